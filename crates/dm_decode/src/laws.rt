//! Laws of the names of mnemonics and registers, and of the texts of instructions.

ghost use Rattle.dm_decode.specs.Laws.{NamesAreRead, TextsAreParted};

/// The law that no two mnemonics have one name, and no two registers of one kind: looking up a name
/// finds what has it. It does nothing when called.
#[tactic(auto, using(crate::proofs::Named::names_are_read))]
pub fn names_are_read()
    ensures { NamesAreRead }
{}

/// The law that in the text of an instruction a sign or a space stands between any two names or
/// numbers, so that a reader can part them again. It does nothing when called.
#[tactic(auto, using(crate::proofs::Parted::texts_are_parted))]
pub fn texts_are_parted()
    ensures { TextsAreParted }
{}
