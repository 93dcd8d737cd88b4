//! Laws of lines: the text of every instruction, and of data, is read as that instruction or data, and the numbers of
//! a line fit words.

ghost use Rattle.dm_lines.specs.Laws.{PiecesAreRead, OwnTermsAreWritten, OutlinesStand, TextsAreRead, TextsArePlain, DataIsRead, NumbersFit};

/// The law that a text whose names and numbers stand apart, and whose numbers fit their sizes, has the tokens of its
/// pieces, with a comment after it too: a name is a word, a number that number. It does nothing when called.
#[tactic(auto, using(crate::proofs::Printed::pieces_are_read))]
pub fn pieces_are_read()
    ensures { PiecesAreRead }
{}

/// The law that the operand that an instruction's text is read as is written as what that text shows, which
/// `dm_decode::words` reads as that instruction. It does nothing when called.
#[tactic(auto, using(crate::proofs::OwnTerms::own_terms_are_written))]
pub fn own_terms_are_written()
    ensures { OwnTermsAreWritten }
{}

/// The law that the outline of an operand can stand for what the operand is once its label has a value: an
/// instruction whose operands are outlines has as many bytes. It does nothing when called.
#[tactic(auto, using(crate::proofs::OwnTerms::outlines_stand))]
pub fn outlines_stand()
    ensures { OutlinesStand }
{}

/// The law that the text of each instruction of the table is a line whose statement is that instruction, wherever it
/// stands. It does nothing when called.
pub fn texts_are_read()
    ensures { TextsAreRead }
{}

/// The law that the text of an instruction is at most 63 bytes, none of which ends a line. It does nothing when called.
pub fn texts_are_plain()
    ensures { TextsArePlain }
{}

/// The law that a DB line of some bytes, at least one, is read as these bytes, with a comment after it too, if it has
/// at most 255 bytes in all. It does nothing when called.
#[tactic(auto, using(crate::proofs::Data::data_is_read))]
pub fn data_is_read()
    ensures { DataIsRead }
{}

/// The law that the numbers in the statement of a line are below 65,536, as `outlines_stand` asks for. It does
/// nothing when called.
pub fn numbers_fit()
    ensures { NumbersFit }
{}
