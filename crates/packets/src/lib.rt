// Which path a router takes and which way a packet goes: the definitions and the theorems about them.
#![tactic(auto)]
