//! The names that files have as programs in the store.
ghost use Rattle.std.specs.Prelude.{◌≡◌, ◌↔◌, IsOk, IfErr, IfOk, IsTrue};
ghost use Rattle.dm_proc.specs.Programs.{IsName};
ghost use Rattle.dm_cli.specs.Names.{IsFileName, last_part};
ghost use Rattle.dm_cli.specs.inner.Names.{IsNameFault};

use crate::fault::Fault;

/// The largest number of bytes that a program's name may have.
const MOST_NAME_BYTES: usize = 64;

/// The part of a path after its last `/`; all of a path that has none.
fn last_part(path: &str) -> &[u8]
    ensures { result.now ≡ last_part path.now }
{
    let bytes = path.as_bytes();
    let mut start = 0;
    for (at, byte) in bytes.iter().enumerate() {
        if *byte == b'/' {
            start = at + 1;
        }
    }
    &bytes[start..]
}

/// Whether the last part of a path can name a file: it is not empty and has no zero byte.
pub(crate) fn names_file(path: &str) -> bool
    ensures { IsTrue result ↔ IsFileName (last_part path.now) }
{
    let name = last_part(path);
    !name.is_empty() && !name.contains(&0)
}

/// The name that the file at `path` has in the store: the last part of the path.
///
/// `CannotRead` if that part can name no file, `NameTooLong` if it has more than 64 bytes.
pub(crate) fn program_name<'a>(path: &'a str) -> Result<&'a [u8], Fault<'a>>
    ensures name { IfOk result (λ name. (name.now ≡ last_part path.now) × IsName name.now) }
    ensures good { IsName (last_part path.now) → IsOk result }
    ensures fault { IfErr result (IsNameFault path.now) }
{
    if !names_file(path) {
        return Err(Fault::CannotRead(path));
    }
    let name = last_part(path);
    if name.len() > MOST_NAME_BYTES {
        return Err(Fault::NameTooLong);
    }
    Ok(name)
}
