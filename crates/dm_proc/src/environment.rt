//! The environment of a process (MS-DOS Programmer's Reference, "Environment"). It is built in the
//! scratch part of a space, bytes that no guest address shows; guest memory stays.
ghost use Rattle.std.specs.Prelude.{◌≡◌, ◌+◌, ◌<◌, ◌≤◌, ◌++◌, length, take, IfSome, MatchOption};
ghost use Rattle.dm_proc.specs.Environment.{closing, environment, HasNoEnd, IsEnvironment, NoVariables};
ghost use Rattle.dm_proc.specs.inner.Environment.{IsRead, IsMade};
ghost use Rattle.dm_proc.specs.Writes.{bytes_from};

use dm_space::Space;

/// The number of bytes in which an environment's variables must end.
const LONGEST: usize = 0x8000;

/// Copies bytes into the scratch part, from offset `at` on. Returns the offset after them.
fn append(space: &mut Space, at: usize, bytes: &[u8]) -> usize
    requires { at + length bytes.now ≤ 0x200000 }
    ensures memory { space.new.memory ≡ space.old.memory }
    ensures scratch { take (at + length bytes.now) space.new.scratch ≡ take at space.old.scratch ++ bytes.now }
    ensures next { result ≡ at + length bytes.now }
{
    let next = at + bytes.len();
    space.scratch_mut(next)[at..next].copy_from_slice(bytes);
    next
}

/// The zeros that close the variables, which are the first `variables` bytes of the scratch part: two where there are
/// none, else one.
fn closing(space: &Space, variables: usize) -> &'static [u8]
    requires { variables ≤ 0x8000 }
    ensures bytes { result.now ≡ Rattle.dm_proc.specs.Environment.closing (take variables space.now.scratch) }
    ensures count { length (take variables space.now.scratch) ≡ variables }
    ensures few { length result.now ≤ 2 }
{
    // The call is for the proof alone, which needs the length that its contract promises.
    let _scratch = space.scratch();
    if variables == 0 { &[0, 0] } else { &[0] }
}

/// Completes an environment whose variables are the first `variables` bytes of the scratch part: appends the zeros that
/// close them, the word 1, and the program's name with a zero. Returns the environment's length in bytes.
fn close_environment(space: &mut Space, variables: usize, name: &[u8]) -> usize
    requires variables { variables ≤ 0x8000 }
    requires name { length name.now ≤ 64 }
    ensures memory { space.new.memory ≡ space.old.memory }
    ensures bytes { take result space.new.scratch ≡ environment (take variables space.old.scratch) name.now }
    ensures length { result ≡ length (environment (take variables space.old.scratch) name.now) }
    ensures fits { result < 0x8100 }
{
    let zeros = closing(space, variables);
    let next = append(space, variables, zeros);
    let next = append(space, next, &[1, 0]);
    let next = append(space, next, name);
    append(space, next, &[0])
}

/// Copies the variables of the environment at a segment to the front of the scratch part, and
/// returns their length in bytes. None if they have no end in 32,768 bytes; then the scratch part
/// is overwritten too.
fn read_environment(space: &mut Space, segment: u16) -> Option<usize>
    ensures memory { space.new.memory ≡ space.old.memory }
    ensures found { MatchOption result (HasNoEnd space.old.memory segment) (λ n. IsEnvironment space.old.memory segment
        n) }
    ensures read { IfSome result (λ n. take n space.new.scratch ≡ bytes_from space.old.memory segment 0 n) }
{
    let mut is_start = true;
    for at in 0..LONGEST {
        let byte = space.peek(segment, at as u16);
        if byte == 0 && is_start {
            return Some(at);
        }
        append(space, at, &[byte]);
        is_start = byte == 0;
    }
    None
}

/// Copies the variables of the environment at a segment, 0 for none, to the front of the scratch part. Returns their
/// length in bytes; None if they have no end in 32,768 bytes, and then the scratch part is overwritten too.
fn read_variables(space: &mut Space, segment: u16) -> Option<usize>
    ensures memory { space.new.memory ≡ space.old.memory }
    ensures read { MatchOption result (NoVariables space.old.memory segment) (λ n. IsRead space.old.memory segment n
        space.new.scratch) }
{
    if segment == 0 {
        return Some(0);
    }
    read_environment(space, segment)
}

/// Builds a child's environment at the front of the scratch part: the variables of the environment at a segment, 0 for
/// none, and the program's name. Returns its length in bytes; None if the variables have no end in 32,768 bytes, and
/// then the scratch part is overwritten too.
pub(crate) fn make_environment(space: &mut Space, segment: u16, name: &[u8]) -> Option<usize>
    requires { length name.now ≤ 64 }
    ensures memory { space.new.memory ≡ space.old.memory }
    ensures made { MatchOption result (NoVariables space.old.memory segment) (λ n. IsMade space.old.memory segment
        name.now n space.new.scratch) }
{
    let variables = read_variables(space, segment)?;
    Some(close_environment(space, variables, name))
}

/// Builds the first program's environment at the front of the scratch part, with these variables, each ended by a zero,
/// and the program's name. Returns its length in bytes.
pub(crate) fn put_environment(space: &mut Space, variables: &[u8], name: &[u8]) -> usize
    requires variables { length variables.now ≤ 0x7FFF }
    requires name { length name.now ≤ 64 }
    ensures memory { space.new.memory ≡ space.old.memory }
    ensures bytes { take result space.new.scratch ≡ environment variables.now name.now }
    ensures length { result ≡ length (environment variables.now name.now) }
    ensures fits { result < 0x8100 }
{
    append(space, 0, variables);
    close_environment(space, variables.len(), name)
}
