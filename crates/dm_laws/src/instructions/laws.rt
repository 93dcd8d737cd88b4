//! Laws of the effect of instructions: each is the contract of a function that does nothing.
ghost use Rattle.dm_laws.specs.instructions.WellFormed.{InstructionsKeepWellFormed};
ghost use Rattle.dm_laws.specs.instructions.Decimals.{InstructionsComputeInDecimal};
ghost use Rattle.dm_laws.specs.instructions.Repetitions.{RepetitionIsElements};
ghost use Rattle.dm_laws.specs.instructions.Stack.{PopTakesWhatWasPushed, PushThenPopKeepsRegisters};

/// Where registers are words and memory keeps bytes, they do so after each instruction.
pub fn instructions_keep_well_formed()
    ensures { InstructionsKeepWellFormed }
{}

/// MOVS, STOS and LODS with a repeat prefix do as many elements as CX says, one a repetition. CX counts down to 0, and
/// IP is at the instruction until then.
pub fn repetition_is_elements()
    ensures { RepetitionIsElements }
{}

/// POP takes what PUSH has left, and SP is as it was, if the word below the stack's top is in memory that keeps it.
pub fn pop_takes_what_was_pushed()
    ensures { PopTakesWhatWasPushed }
{}

/// PUSH and POP of a register but SP leave all registers as they were.
pub fn push_then_pop_keeps_registers()
    ensures { PushThenPopKeepsRegisters }
{}

/// ADD or ADC of AL and then DAA or AAA, SUB or SBB and then DAS or AAS, and MUL of a byte and then AAM compute in
/// decimal digits.
pub fn instructions_compute_in_decimal()
    ensures { InstructionsComputeInDecimal }
{}
