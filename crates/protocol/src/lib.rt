// What a network of reflectors is and does, and why it settles: definitions and theorems.
#![tactic(auto)]
