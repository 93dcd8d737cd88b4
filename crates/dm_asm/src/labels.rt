//! Labels and their places. A place is an offset in the program's segment.

ghost use Rattle.std.specs.Prelude.{◌≡◌, ◌++◌, ◌∷◌, [], None, IfSome, IfOk, true, false, ◌<◌, ◌^◌};
ghost use Rattle.dm_asm.specs.Labels.{place_of_label as find_of, label_place as place_at, term_place as term_at};
ghost use Rattle.dm_asm.specs.inner.Kept.{AreKept, AreNear};
ghost use Rattle.dm_asm.specs.Labels.{Label};
ghost use Rattle.std.specs.Prelude.{ℕ, List};

use dm_lines::{Expression, Name, Term};
use std::alloc::{AllocError, Global};
use std::collections::BTreeMap;

/// The labels of a text: their places by their names.
#[derive(Drop)]
pub(crate) struct Labels {
    places: BTreeMap<[u8; 31], u128>,
}

impl Labels {
    /// The labels before a line is read: none.
    pub(crate) fn new(alloc: Global) -> Labels
        ensures { AreKept result [] }
    {
        Labels {
            places: BTreeMap::new(alloc),
        }
    }

    /// The place of a label; None where no line has it.
    pub(crate) fn find(&self, name: &Name) -> Option<u128>
        ensures place { (labels : List Label) → AreKept self.now labels → result ≡ find_of name.now labels }
        ensures near { AreNear self.now → IfSome result (λ place. place < 2 ^ 16) }
    {
        self.places.get(&name.bytes).copied()
    }

    /// Puts a label at a place. Returns true if it is new; false if a line before has it, and then
    /// its place is overwritten: such a text is refused.
    pub(crate) fn add(&mut self, name: &Name, place: u128) -> Result<bool, AllocError>
        ensures added { IfOk result (λ added. added ≡ true → (labels : List Label) → AreKept self.old labels →
            (find_of name.now labels ≡ None) × AreKept self.new (labels ++ record { name = name.now; place = place }
            ∷ [])) }
        ensures had { IfOk result (λ added. added ≡ false → (labels : List Label) → AreKept self.old labels →
            find_of name.now labels ≡ None → ⊥) }
    {
        match self.places.insert(name.bytes, place) {
            Ok(old) => Ok(old.is_none()),
            Err(_) => Err(AllocError),
        }
    }

    /// The place of the label of a value; None where no line has it, 0 for a number alone.
    pub(crate) fn place_of(&self, value: &Expression) -> Option<u128>
        ensures place { (labels : List Label) → AreKept self.now labels → result ≡ place_at labels value.now }
        ensures near { AreNear self.now → IfSome result (λ place. place < 2 ^ 16) }
    {
        match &value.label {
            Some(name) => self.find(name),
            None => Some(0),
        }
    }

    /// The place of the label of an operand; None where no line has it, 0 if the operand names
    /// none.
    pub(crate) fn term_place(&self, term: &Term) -> Option<u128>
        ensures place { (labels : List Label) → AreKept self.now labels → result ≡ term_at labels term.now }
        ensures near { AreNear self.now → IfSome result (λ place. place < 2 ^ 16) }
    {
        match term {
            Term::Address(_, value) => self.place_of(value),
            Term::Number(value) => self.place_of(value),
            _ => Some(0),
        }
    }
}
