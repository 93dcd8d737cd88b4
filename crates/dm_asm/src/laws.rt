//! Laws of assembly: each text has one result, a listing is assembled to the bytes that it lists, and the bytes of a
//! program spell the instructions of its text.

ghost use Rattle.dm_asm.specs.Laws.{TextsHaveOneAnswer, ListingsAssemble, ListingsAreAnswered, TextsAreSpelled};

use dm_decode::words::{own_words_are_read, stand_ins_have_the_length, words_are_one_instruction};
use dm_lines::{
    data_is_read, outlines_stand, own_terms_are_written, texts_are_plain, texts_are_read,
};

/// The law that a text has one result: always the same bytes, or always the same error. So `assemble` returns bytes
/// exactly where the text has some, unless an allocation fails. It does nothing when called.
pub fn texts_have_one_answer()
    ensures { TextsHaveOneAnswer }
{
    words_are_one_instruction();
}

/// The laws that the listing of at most 65,278 bytes assembles to these bytes, and to no error: unless an allocation
/// fails, `assemble` makes the same bytes of what `disassemble` makes of them. It does nothing when called.
pub fn listings_assemble()
    ensures bytes { ListingsAssemble }
    ensures answer { ListingsAreAnswered }
{
    words_are_one_instruction();
    own_words_are_read();
    stand_ins_have_the_length();
    own_terms_are_written();
    outlines_stand();
    texts_are_read();
    texts_are_plain();
    data_is_read();
}

/// The law that the bytes of a program spell each instruction of its text, after the bytes of all statements before
/// it: `decode` finds there an instruction of the table with the prefixes and the operands that are written, as long
/// as it counts in the text, and in the bytes that `encode` chooses. It does nothing when called.
pub fn texts_are_spelled()
    ensures { TextsAreSpelled }
{
    words_are_one_instruction();
}
