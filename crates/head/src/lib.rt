// The receiver's head, its ranges, and the tests that refuse: 01, "Head and lent areas" and "Refused, in order of
// test".
#![tactic(auto)]

pub mod gate;
pub mod left;
pub mod refusal;
pub mod refuse;
pub mod state;
