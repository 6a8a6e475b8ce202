// Sets of small numbers, each held in one word: bit n is 1 where n is a member.
//
// Every method is defined for every argument. A number at or past the width of a set is no member
// of it: asking for it answers no, and adding or taking it changes nothing.
#![tactic(auto)]

mod bit_set;

pub use bit_set::{BitSet, Iter, PathSet, RouterSet};
