//! The command line: what its words ask for, who is told of a session beside its output, and what a
//! person is shown of an input that is refused.
#![tactic(auto)]

mod advice;
pub mod notes;
mod numbers;
pub mod reasons;
pub mod sharing;
pub mod subcommand;
pub mod words;
