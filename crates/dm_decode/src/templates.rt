//! The template of the table that some bytes begin with.

ghost use Rattle.std.specs.Prelude.{◌≡◌, ◌<◌, IfSome};
ghost use Rattle.dm_ins.specs.Table.{IfGroup};
ghost use Rattle.dm_ins.specs.Spelling.{uses_fields};
ghost use Rattle.dm_decode.specs.inner.Reading.{action_at, template_at, seen};

use crate::operands::{fields_of, operand_of};
use crate::reading::byte_of;
use dm_ins::Action;
use dm_ins::fields::Fields;
use dm_ins::table::{OpcodeEntry, OperandKind, Template, entry_at, member};

/// Whether an operand of the kind is read from the mod r/m byte, wholly or in part.
fn needs_fields(kind: OperandKind) -> bool
    ensures { result ≡ uses_fields kind }
{
    matches!(
        kind,
        OperandKind::RegisterOrMemory(_)
            | OperandKind::Register(_)
            | OperandKind::Memory
            | OperandKind::Escape(_)
    )
}

/// The template of a first byte's entry, the fields of its mod r/m byte if it has one, and the bytes after them;
/// `bytes` begins after the first byte. None where the entry has no template for these bytes, or where bytes are
/// missing.
#[tactic(auto, unfolding(crate::specs::inner::Reading::template_at))]
fn template_of(entry: OpcodeEntry, bytes: &[u8]) -> Option<((Template, Fields), &[u8])>
    requires { IfGroup entry (λ g. g < 17) }
    ensures reads { seen result ≡ template_at entry bytes.now }
    ensures fits { IfSome result (λ x. (x.0.1.register < 8) × (x.0.1.rm < 8)) }
{
    let none = Fields {
        register: 0,
        rm: 0,
        memory: None,
    };
    match entry {
        OpcodeEntry::Unlisted => None,
        OpcodeEntry::Plain(template) => {
            if needs_fields(template.first) || needs_fields(template.second) {
                let (fields, rest) = fields_of(bytes)?;
                Some(((template, fields), rest))
            } else {
                Some(((template, none), bytes))
            }
        }
        OpcodeEntry::Group(group) => {
            let (fields, rest) = fields_of(bytes)?;
            let template = member(group, fields.register)?;
            Some(((template, fields), rest))
        }
        OpcodeEntry::Second(second, template) => {
            let (b, rest) = byte_of(bytes)?;
            if b == second {
                Some(((template, none), rest))
            } else {
                None
            }
        }
    }
}

/// The action that the bytes spell, without prefixes, and the bytes after it; None where they spell none.
#[tactic(auto, unfolding(crate::specs::inner::Reading::action_at))]
pub fn action_of(bytes: &[u8]) -> Option<(Action, &[u8])>
    ensures { seen result ≡ action_at bytes.now }
{
    let (b, rest) = byte_of(bytes)?;
    let ((template, fields), rest) = template_of(entry_at(b), rest)?;
    let (first, rest) = operand_of(template.first, fields, rest)?;
    let (second, rest) = operand_of(template.second, fields, rest)?;
    Some((
        Action {
            mnemonic: template.mnemonic,
            first,
            second,
        },
        rest,
    ))
}
