//! Instructions.

ghost use Rattle.std.specs.Prelude.{List, ℕ};
ghost use Rattle.dm_ins.specs.Spelling.{SpellsAction};

use crate::action::Action;
use crate::prefix::Prefixes;
use crate::search::least;

/// An instruction of the 8086 with the prefixes that it keeps. Some bytes spell it, so that
/// `encode` needs no condition.
#[derive(Clone, Copy, Debug, PartialEq, Eq)]
pub struct Ins {
    pub prefixes: Prefixes,
    pub action: Action,
    /// Some template of the table spells the action.
    pub ghost has_spelling: { ∥ ((bytes : List ℕ) × SpellsAction action bytes) ∥₁ },
}

impl Ins {
    ghost use Rattle.std.specs.Prelude.{◌≡◌, IfSome, IfNone};

    /// The instruction of these parts, or None exactly where no template of the table has the action.
    pub fn new(prefixes: Prefixes, action: Action) -> Option<Self>
        ensures parts { IfSome result (λ ins. (ins.prefixes ≡ prefixes) × (ins.action ≡ action)) }
        ensures none { IfNone result ((bytes : List ℕ) → SpellsAction action bytes → ⊥) }
    {
        match least(&action) {
            None => None,
            Some(_) => Some(Ins { prefixes, action }),
        }
    }
}
