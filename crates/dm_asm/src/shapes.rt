//! The number of bytes of a statement, before labels have places.

ghost use Rattle.std.specs.Prelude.{◌≡◌, ◌≤◌, ℕ, Some, IfSome, length};
ghost use Rattle.dm_lines.specs.Statements.{seen_item};
ghost use Rattle.dm_asm.specs.Codes.{outlined, HasShape, HasLength};

use dm_decode::words::{Words, read_encoded, words_are_one_instruction};
use dm_lines::{Instruction, Item, Items, outline};

/// What an instruction is written as before labels have places.
fn outlines(instruction: &Instruction) -> Words
    ensures { result ≡ outlined instruction.now }
{
    let mnemonic = instruction.mnemonic;
    Words {
        mnemonic,
        first: outline(mnemonic, &instruction.first),
        second: outline(mnemonic, &instruction.second),
    }
}

/// The number of bytes of an instruction, wherever it and its labels stand; None where the table
/// does not have it.
pub(crate) fn instruction_length(instruction: &Instruction) -> Option<usize>
    ensures found { IfSome result (λ n. HasShape instruction.now n) }
    ensures only { (n : ℕ) → HasShape instruction.now n → result ≡ Some n }
    ensures short { IfSome result (λ n. n ≤ 16) }
{
    words_are_one_instruction();
    let words = outlines(instruction);
    let encoded = read_encoded(instruction.prefixes, &words)?;
    Some(encoded.1.len())
}

/// The number of bytes of an item, whose data is in `items`; None where the table does not have its
/// instruction.
pub(crate) fn length_of(item: Item, items: &Items) -> Option<usize>
    ensures found { IfSome result (λ n. HasLength (seen_item items.now item) n) }
    ensures only { (n : ℕ) → HasLength (seen_item items.now item) n → result ≡ Some n }
    ensures short { IfSome result (λ n. n ≤ 256) }
{
    match item {
        Item::Nothing => Some(0),
        Item::Instruction(instruction) => instruction_length(&instruction),
        Item::Bytes => Some(items.bytes.len()),
        Item::Words => Some(2 * items.words.len()),
    }
}
