// What is done to the window beside packets and messages, arq.rs: a drop request, a clear, the question of room, a
// payload shown where it lies. Each call takes any arguments and any lent contents. 01, "Refused, in order of test"
// and "Window".
#![tactic(auto)]

pub mod request;
pub mod show;
