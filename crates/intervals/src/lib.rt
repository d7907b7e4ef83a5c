// The two windows of intervals and their rates: 01, "ACKs, RTT, rates". The windows of arq.rs.
#![tactic(auto)]

pub mod median;
pub mod rates;
