//! Laws of written instructions: the words of a line are one instruction at most, the text of an instruction is read as
//! that instruction, and words for values that are not known yet have the same length.

ghost use Rattle.dm_decode.specs.words.Laws.{LengthsAreKnown, OwnWordsAreRead, SizesAreShown, StandInsAreRead, WordsAreOne};

/// The law that written words are at most one instruction of the instruction table. It does nothing when called.
pub fn words_are_one_instruction()
    ensures { WordsAreOne }
{}

/// The laws that the words which the text of an instruction shows are that instruction, whatever its operands are and
/// wherever it stands, and that the text has the size words that have to be written before memory. It does nothing
/// when called.
pub fn own_words_are_read()
    ensures own { OwnWordsAreRead }
    ensures sizes { SizesAreShown }
{}

/// The laws that where some words are an instruction, words that stand for them (`StandsFor`: with targets at the next
/// instruction, byte values modulo 64, any direct addresses and any values of MOV) are one too, and it has as many
/// bytes. It does nothing when called.
pub fn stand_ins_have_the_length()
    ensures read { StandInsAreRead }
    ensures lengths { LengthsAreKnown }
{}
