//! The lines of a text: bytes with 0Ah, or 0Dh and 0Ah, after each line; the last one may end with the text.

ghost use Rattle.std.specs.Prelude.{◌≡◌, ◌<◌, ◌∷◌, [], MatchOption, IfSome, length};
ghost use Rattle.dm_asm.specs.Lines.{lines_of};
ghost use Rattle.dm_asm.specs.inner.Lines.{trim};

/// A line without one 0Dh at its end.
#[tactic(auto, using(crate::proofs::Ends::trimmed_end, crate::proofs::Ends::trimmed_other))]
fn trimmed(line: &[u8]) -> &[u8]
    ensures { result.now ≡ trim line.now }
{
    let length = line.len();
    if length == 0 {
        return line;
    }
    if line[length - 1] == b'\r' {
        &line[..length - 1]
    } else {
        line
    }
}

/// The first line of a text, without its end, and the text after it; None for an empty text. A line ends with 0Ah,
/// before which one 0Dh is dropped, or with the text.
pub(crate) fn next_line(text: &[u8]) -> Option<(&[u8], &[u8])>
    ensures line { MatchOption result (text.now ≡ []) (λ x. lines_of text.now ≡ x.0.now ∷ lines_of x.1.now) }
    ensures shorter { IfSome result (λ x. length x.1.now < length text.now) }
{
    for (at, byte) in text.iter().enumerate() {
        if *byte == b'\n' {
            return Some((trimmed(&text[..at]), &text[at + 1..]));
        }
    }
    if text.is_empty() {
        None
    } else {
        Some((text, &text[..0]))
    }
}
