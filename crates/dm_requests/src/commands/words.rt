//! The words of a typed line: what stands between spaces.

ghost use Rattle.std.specs.Prelude.{◌≡◌, ◌≢◌, ◌<◌, ◌≤◌, ◌∷◌, [], length, slice_index, IfSome, IfNone};
ghost use Rattle.dm_requests.specs.commands.Words.{words_of};

/// The line without the spaces at its start.
fn trimmed(line: &[u8]) -> &[u8]
    ensures words { words_of result.now ≡ words_of line.now }
    ensures first { slice_index result.now 0 ≢ 32 }
{
    let mut rest = line;
    while let [b' ', tail @ ..] = rest {
        rest = tail;
    }
    rest
}

/// The first word of a line that does not begin with a space, and the rest of the line after the space that ends the
/// word.
fn front(line: &[u8]) -> (&[u8], &[u8])
    requires some { 0 < length line.now }
    requires first { slice_index line.now 0 ≢ 32 }
    ensures { words_of line.now ≡ result.0.now ∷ words_of result.1.now }
{
    for (i, byte) in line.iter().enumerate() {
        if *byte == b' ' {
            return (&line[..i], &line[i + 1..]);
        }
    }
    (line, &line[line.len()..])
}

/// The first word of a line, and the rest of the line after it; None if there is no word.
pub(crate) fn next_word(line: &[u8]) -> Option<(&[u8], &[u8])>
    ensures some { IfSome result (λ x. words_of line.now ≡ x.0.now ∷ words_of x.1.now) }
    ensures none { IfNone result (words_of line.now ≡ []) }
{
    let rest = trimmed(line);
    if rest.is_empty() {
        return None;
    }
    Some(front(rest))
}
