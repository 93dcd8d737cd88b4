//! Why the machine stopped.

/// Why a run, or a step, stopped.
///
/// The step that ends the first program returns `Exited`, and so does every later call, which makes no step. With
/// `Halted` and the stops after it in this list no step is made and the state stays as it was, so that a later run
/// meets the same instruction.
#[derive(Clone, Copy, Debug, PartialEq, Eq)]
pub enum Stop {
    /// All steps that were asked for were made.
    Steps,
    /// The first program has ended with this code. Every later call returns it again.
    Exited(u8),
    /// The next instruction is HLT.
    Halted,
    /// The bytes at CS:IP are not an instruction of the 8086.
    Unlisted,
    /// The next step would read console input, and too little is left: no byte, or for INT 21h function 0Ah no 0Dh.
    InputEnded,
    /// The present process would end, but memory holds no valid block list; or, for INT 21h function 31h, the list
    /// would not be valid once the process's block is resized; or, for any other ending, upper memory in the arena
    /// holds no valid list.
    Destroyed,
    /// The next step would write more bytes to the console than the room holds, and the allocation for them failed.
    Memory,
}
