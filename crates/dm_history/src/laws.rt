//! The law of histories, the contract of a function that does nothing, and what holds of each history.
ghost use Rattle.dm_history.specs.Becomes.{BecomesBy};
ghost use Rattle.dm_history.specs.Laws.{ThereIsOneState};

use crate::history::History;

/// A state becomes at most one by the same edits and as many steps, below 2^64 - 1: so what going back leads to is the
/// state that was there, and going on from it leads to the same states again. Does nothing when called.
#[tactic(auto, using(crate::proofs::OneState::one_state))]
pub fn a_beginning_becomes_one_state()
    ensures { ThereIsOneState }
{}

/// The machine of a history has come from its beginning by steps and by the edits. Does nothing when called.
pub fn histories_come_from_their_beginning(history: &History)
    ensures { BecomesBy history.now.beginning history.now.edits history.now.machine }
{
    let _due = history.due;
}
