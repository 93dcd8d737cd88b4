//! What a program sees of the processor, its registers and flags, and what instructions are built of: operands with
//! their values and addresses, and the stack with the two returns.
//!
//! The registers stand in a record with a field for each, [`Cpu`], or as the emulation's inner loop keeps them,
//! [`Registers`]: as bytes, where a word or a byte register is found without a jump. Contracts see the same [`Cpu`] of
//! both.
#![tactic(auto)]

mod cpu;
mod effective_address;
mod halves;
pub mod memory;
mod named;
pub mod operands;
mod places;
mod registers;
mod result_flags;
mod returns;
pub mod stack;
pub mod values;

pub use cpu::Cpu;
pub use dm_alu::Flags;
pub use effective_address::{EffectiveAddress, SimpleAddress};
pub use halves::Half;
pub use places::{AnyPlace, Destination, Source, Value};
pub use registers::Registers;
pub use returns::{far_return, interrupt_return};
