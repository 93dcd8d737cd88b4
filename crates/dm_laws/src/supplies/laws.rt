//! Laws of console input: each is the contract of a function that does nothing.
ghost use Rattle.dm_laws.specs.supplies.Supplies.{PiecesAreOneInput, StepsTakeMoreInput};

/// A step that does not ask how much console input is there, and does not stop for want of it, is the same with more
/// input after it.
pub fn steps_take_more_input()
    ensures { StepsTakeMoreInput }
{}

/// A program that does not ask how much console input is there makes the same steps with input that comes in pieces as
/// with all of it at once.
pub fn pieces_are_one_input()
    ensures { PiecesAreOneInput }
{}
