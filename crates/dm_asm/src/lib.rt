//! The assembler and the disassembler: text to bytes and back.
#![tactic(auto)]

mod assembly;
mod codes;
mod fixed;
mod known;
mod labels;
mod laws;
mod lines;
mod refusal;
mod shapes;

pub use assembly::assemble;
pub use dm_decode::disassembly::disassemble;
pub use laws::{listings_assemble, texts_are_spelled, texts_have_one_answer};
pub use refusal::AssemblyRefusal;
