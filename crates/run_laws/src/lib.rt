//! Laws of every run of every scenario, in the words of TCP, of queues and of links. Each function is a law: its contract is
//! the statement, and its body is empty.
#![tactic(auto)]

pub mod laws;
