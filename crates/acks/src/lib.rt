// ACKs and round trip: 01, "ACKs, RTT, rates". history.rs and rtt.rs.
#![tactic(auto)]

pub mod history;
pub mod rtt;
