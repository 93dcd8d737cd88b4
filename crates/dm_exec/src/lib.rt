//! What each instruction does to registers, flags and memory.
#![tactic(auto)]

mod control;
mod each;
mod effect;
mod element;
mod far;
mod far_outside;
mod jumps;
mod laws;
mod moves;
mod operation;
mod paged;
mod repetitions;
mod stretches;
mod strings;

pub use control::change_flag;
pub use dm_cpu::{Cpu, Flags, far_return, interrupt_return};
pub use each::is_at_hand;
pub use effect::{Next, exec, execute};
pub use far::{
    call_to_pointer, jump_to_pointer, load_far_low, load_far_shown, push_far_low, return_far_low,
};
pub use far_outside::{call_by_pointer, far_return_target, jump_by_pointer, push_return};
pub use jumps::{
    call_by, call_memory, call_register, is_taken, jump_memory, jump_register, return_near,
    target_after, target_by_count, transfer,
};
pub use laws::{halt_changes_nothing, ignores_unseen, keeps_the_map};
pub use moves::{exchange, extend_byte, extend_word, load_far, load_flags, store_flags, translate};
pub use operation::{
    Condition, FlagOperation, LoopOperation, MoveOperation, Operation, StringOperation,
    TransferOperation,
};
pub use repetitions::repeat_together;
pub use strings::{Comparing, Loading, Moving, Scanning, Storing, StringWork, count_down};
