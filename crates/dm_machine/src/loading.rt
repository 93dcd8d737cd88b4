//! Loading the first program.
ghost use Rattle.std.specs.Prelude.{◌≡◌, ◌≤◌, ◌↔◌, ◌++◌, length, None, replicate, OnOk, OnErr, IsErrOf, All, ◌<◌};
ghost use Rattle.dm_proc.specs.Programs.{program_of, IsName};
ghost use Rattle.dm_proc.specs.Request.{passed_of};
ghost use Rattle.dm_machine.specs.Start.{passed_first, IsLoaded, IsBadProgram, HasNoRoom};
ghost use Rattle.dm_services.specs.state.State.{HasProgram};

use crate::machine::Machine;
use arrayvec::ArrayVec;
use dm_load::Image;
use dm_proc::{Arguments, Procs};
use thiserror::Error;

/// Why no program was loaded.
#[derive(Clone, Copy, Debug, PartialEq, Eq, Error)]
pub enum LoadError {
    /// The store has no program of this name.
    #[error("not found")]
    NotFound,
    /// The program is neither a COM file of at most 65,278 bytes nor a good MZ file.
    #[error("bad format")]
    BadFormat,
    /// Conventional memory has no room for the environment and the program, or memory holds no valid block list.
    #[error("short")]
    Short,
}

/// What the first program is passed: the command tail, of at most 126 bytes, and two file control blocks of zeros.
fn arguments(tail: &[u8]) -> Arguments
    requires { length tail.now ≤ 126 }
    ensures { passed_of result ≡ passed_first tail.now }
{
    let mut bytes = ArrayVec::new();
    for byte in tail {
        bytes.push(*byte);
    }
    Arguments {
        tail: bytes,
        first: [0; 16],
        second: [0; 16],
    }
}

impl Machine {
    /// Loads the program of this name, with its environment, into memory, makes it the present process, and sets the
    /// registers with which it starts. No step is made or counted. No program may be loaded yet; the name must be one
    /// that the store could have; the tail has at most 126 bytes.
    ///
    /// # Errors
    ///
    /// `NotFound` exactly where the store has no such program (ASCII case ignored), `BadFormat` exactly where it has
    /// one that is bad, `Short` exactly where there is no room for the blocks of environment and program or memory
    /// holds no valid block list. A call that fails changes nothing.
    pub fn load(&mut self, name: &[u8], tail: &[u8]) -> Result<(), LoadError>
        requires fresh { self.old.processes.present ≡ 0 }
        requires name { IsName name.now }
        requires tail { length tail.now ≤ 126 }
        ensures ok { OnOk result (IsLoaded self.old name.now tail.now self.new) }
        ensures loaded { OnOk result (HasProgram self.new) }
        ensures not_found { IsErrOf result LoadError.NotFound ↔ (program_of self.old.programs name.now ≡ None) }
        ensures bad_format { IsErrOf result LoadError.BadFormat ↔ IsBadProgram self.old name.now }
        ensures short { IsErrOf result LoadError.Short ↔ HasNoRoom self.old name.now }
        ensures err { OnErr result (self.new ≡ self.old) }
    {
        let Some(file) = self.parts.programs.find(name) else {
            return Err(LoadError::NotFound);
        };
        let Ok(image) = Image::of(file) else {
            return Err(LoadError::BadFormat);
        };
        let arguments = arguments(tail);
        let loaded = Procs::load(
            &mut self.parts.space,
            self.parts.strategy,
            &image,
            self.parts.variables.as_slice(),
            name,
            &arguments,
            self.parts.upper,
        );
        match loaded {
            Ok((procs, cpu)) => {
                self.parts.procs = procs;
                self.parts.cpu = cpu;
                Ok(())
            }
            Err(_) => Err(LoadError::Short),
        }
    }
}
