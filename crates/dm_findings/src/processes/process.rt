//! A process that ran or runs (MS-DOS Programmer's Reference, "Program Segment Prefix" and "Environment").

ghost use Rattle.std.specs.Prelude.{◌≡◌, ◌≤◌};
ghost use Rattle.dm_findings.specs.processes.Processes.{end_of_variables, name_at, name_of, name_text, process_at};

use dm_space::Space;

/// A process that ran, or runs.
#[derive(Clone, Copy, Debug)]
pub struct Process {
    /// The segment of its program segment prefix.
    pub prefix: u16,
    /// The bytes of its name, as it was asked for, up to the first zero.
    pub name_bytes: [u8; 64],
    /// The segment of its parent's prefix; 0 for a first program.
    pub parent: u16,
    /// The number of the step that started it; for a process that ran before, the count of steps where that was seen.
    pub first: u64,
    /// The number of the step that ended it. None while it runs or waits for a child.
    pub last: Option<u64>,
}

/// How many bytes of an environment are searched for its end.
const MOST: u16 = 0x8000;

/// The offset of the two zeros behind the variables of the environment at a segment; 8000h if there are none below
/// that.
fn end_of_variables(space: &Space, segment: u16) -> u16
    ensures end { result ≡ end_of_variables space.now.memory segment }
    ensures most { result ≤ 0x8000 }
{
    for at in 0..MOST {
        if space.peek16(segment, at) == 0 {
            return at;
        }
    }
    MOST
}

/// The 64 bytes from segment:offset on; offsets wrap.
#[tactic(auto, unfolding(crate::specs::processes::Processes::name_at))]
fn name_at(space: &Space, segment: u16, offset: u16) -> [u8; 64]
    ensures { result ≡ name_at space.now.memory segment offset }
{
    let mut name = [0; 64];
    for at in 0..64 {
        name[at] = space.peek(segment, offset.wrapping_add(at as u16));
    }
    name
}

/// The bytes of the name that stands in the environment of the process with this prefix.
fn name_of(space: &Space, prefix: u16) -> [u8; 64]
    ensures { result ≡ name_of space.now.memory prefix }
{
    let environment = space.peek16(prefix, 0x2C);
    let end = end_of_variables(space, environment);
    name_at(space, environment, end + 4)
}

impl Process {
    /// The process with this prefix, which this step started, by its prefix and environment as they are after it.
    pub fn of(space: &Space, prefix: u16, step: u64) -> Process
        ensures { result ≡ process_at space.now.memory prefix step }
    {
        Process {
            prefix,
            name_bytes: name_of(space, prefix),
            parent: space.peek16(prefix, 0x16),
            first: step,
            last: None,
        }
    }

    /// Its name, as it was asked for, at most 64 bytes.
    pub fn name(&self) -> &[u8]
        ensures { result.now ≡ name_text self.now }
    {
        for at in 0..64 {
            if self.name_bytes[at] == 0 {
                return &self.name_bytes[..at];
            }
        }
        &self.name_bytes
    }
}
