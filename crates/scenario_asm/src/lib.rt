//! The scenario text: from bytes to a scenario, or to the first fault.
#![tactic(auto)]

pub mod assembler;
pub mod disassembler;
mod draft;
pub mod fault;
pub mod guarantees;
mod lexer;
mod lines;
mod name;
pub mod named_parts;
mod number;
pub mod place;
mod spelling;
mod statement;
mod table;
mod tcp_words;

pub use assembler::assemble;
pub use disassembler::disassemble;
pub use fault::{AsmFault, Fault};
pub use guarantees::texts_have_one_answer;
pub use named_parts::{NamedParts, parts_of_text};
pub use place::{FaultPlace, Part, fault_place};
