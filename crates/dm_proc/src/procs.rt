//! The processes that are alive.
ghost use Rattle.std.specs.Prelude.{◌≡◌, ◌<◌, [], ◌∷◌, ◌++◌, length, MatchBool};
ghost use Rattle.dm_proc.specs.Processes.{GoesOn};

use crate::parent::{Ending, Parent};
use arrayvec::ArrayVec;
use dm_cpu::Cpu;
use std::marker::Model;

/// The processes that are alive: at most sixteen.
///
/// Contracts see the present process's segment, the processes that wait for a child, and the word
/// of the last ending.
#[derive(Drop)]
pub struct Procs {
    present: u16,
    parents: ArrayVec<Parent, 15>,
    code: u16,
}

impl Model for Procs {
    ghost use Rattle.dm_proc.specs.Processes.{Processes};

    ghost Value = { Processes };

    ghost view = { λ s. record { present = s.present; parents = s.parents.items; code = s.code } };
}

/// The same parents in the same order.
fn same_parents(parents: &ArrayVec<Parent, 15>) -> ArrayVec<Parent, 15>
    ensures { result.items ≡ parents.now.items }
{
    let mut same = ArrayVec::new();
    let _ = same.try_extend_from_slice(parents);
    same
}

impl Procs {
    /// The processes before the first program: none is loaded, and none has ended.
    pub fn new() -> Procs
        ensures { result ≡ record { present = 0; parents = []; code = 0 } }
    {
        Procs {
            present: 0,
            parents: ArrayVec::new(),
            code: 0,
        }
    }

    /// The same processes once more.
    pub fn duplicate(&self) -> Procs
        ensures { result ≡ self.now }
    {
        Procs {
            present: self.present,
            parents: same_parents(&self.parents),
            code: self.code,
        }
    }

    /// The segment of the present process's program segment prefix; 0 while no program is loaded.
    pub fn psp(&self) -> u16
        ensures { result ≡ self.now.present }
    {
        self.present
    }

    /// Returns the word of function 4Dh, and sets it to 0: AL is the exit code of the last process that ended, AH is
    /// 0, or 3 where it stayed resident (MS-DOS Programmer's Reference, function 4Dh). It is 0 where it was read
    /// already or nothing has ended.
    pub fn take_code(&mut self) -> u16
        ensures value { result ≡ self.old.code }
        ensures taken { self.new ≡ record self.old { code = 0 } }
    {
        std::mem::replace(&mut self.code, 0)
    }

    /// Whether sixteen processes are alive, so that function 4Bh starts no other: fifteen wait for the present one.
    pub(crate) fn is_full(&self) -> bool
        ensures { MatchBool result (length self.now.parents ≡ 15) (length self.now.parents < 15) }
    {
        self.parents.is_full()
    }

    /// The processes once the first program is loaded: it is the only one, its prefix is at this segment, and nothing
    /// has ended yet.
    pub(crate) fn of_first(segment: u16) -> Procs
        ensures { result ≡ record { present = segment; parents = []; code = 0 } }
    {
        Procs {
            present: segment,
            ..Procs::new()
        }
    }

    /// Makes a new process, whose prefix is at a segment, the present one (function 4Bh). The present process so far
    /// waits for its end, and then goes on with these registers.
    pub(crate) fn begin(&mut self, segment: u16, cpu: Cpu)
        requires { length self.old.parents < 15 }
        ensures { self.new ≡ record self.old {
          present = segment;
          parents = self.old.parents ++ record { segment = self.old.present; cpu = cpu } ∷ [];
        } }
    {
        self.parents.push(Parent {
            segment: self.present,
            cpu,
        });
        self.present = segment;
    }

    /// Ends the present process, and keeps the word for function 4Dh. Its parent, if it has one, becomes the present
    /// process, and `cpu` gets the registers that the parent waits with; else present process and registers stay.
    pub(crate) fn finish(&mut self, cpu: &mut Cpu, word: u16) -> Ending
        ensures { GoesOn self.old cpu.old word result self.new cpu.new }
    {
        self.code = word;
        let Some(parent) = self.parents.pop() else {
            return Ending::Exited;
        };
        self.present = parent.segment;
        *cpu = parent.cpu;
        Ending::Returned
    }
}
