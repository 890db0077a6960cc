// The slots' words: a word's point and value, how many slots are taken, which addresses are points and
// which points are disabled.
#![tactic(auto)]

pub mod points;
pub mod taken;
pub mod word;
