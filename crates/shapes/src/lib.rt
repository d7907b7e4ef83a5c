// Lines by their shape: the record's number, a word and values, put into a lent output. 01, "Trace, mark DLT".
#![tactic(auto)]

pub mod line;
pub mod part;
pub mod tail;
