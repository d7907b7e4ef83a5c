// Numbers: 01, "Numbers". Each function takes any arguments; a sequence number of 2^31 or more is read mod 2^31.
#![tactic(auto)]

pub mod instant;
pub mod seq;
pub mod stamp;
