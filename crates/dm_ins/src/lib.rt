//! Instructions of the 8086: the table of their templates, their operands, and the bytes that spell them.
#![tactic(auto)]

pub mod action;
mod demand;
mod encoding;
pub mod fields;
mod fill;
pub mod ins;
mod keys;
pub mod operand;
pub mod prefix;
mod search;
pub mod table;

pub use action::{Action, Mnemonic};
pub use encoding::{encode, new_encoded};
pub use ins::Ins;
pub use operand::{Address, Base, ByteRegister, Operand, SegmentRegister, Width, WordRegister};
pub use prefix::{Prefixes, Repeat};
