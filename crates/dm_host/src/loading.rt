//! Adding programs to a host, and loading the first one.
ghost use Rattle.std.specs.Prelude.{◌≡◌, ◌≤◌, ◌⊎◌, OnOk, OnErr, IfOk, IfErr, length};
ghost use Rattle.dm_proc.specs.Programs.{IsName};
ghost use Rattle.dm_host.specs.Setups.{IsLoadable};
ghost use Rattle.dm_host.specs.inner.Loading.{IsBegun, IsUnbegun, IsTestedWith};
ghost use Rattle.dm_host.specs.Loading.{Adds, IsUnadded, Loads, IsUnloaded};

use crate::host::{Host, Stage};
use crate::refusal::Refusal;
use crate::setup::{Setup, is_name};
use dm_debug::Session;
use dm_machine::{Machine, NewError};
use std::alloc::Global;

/// The largest number of bytes of a command tail.
const MOST_TAIL: usize = 126;

/// A session, without breakpoints, over a new machine of the setup in which the program of this name is loaded. The
/// program must be one that can be loaded. `Short` if conventional memory has no room for it, `Memory` if an allocation
/// failed; in both cases the setup is lost.
fn begun(
    alloc: Global,
    setup: Setup,
    name: &[u8],
    tail: &[u8],
    input: &[u8],
) -> Result<Session, Refusal>
    requires name { IsName name.now }
    requires tail { length tail.now ≤ 126 }
    requires program { IsLoadable setup name.now }
    ensures ok { IfOk result (IsBegun setup name.now tail.now input.now) }
    ensures err { IfErr result (IsUnbegun setup name.now input.now) }
{
    let Setup { config, programs } = setup;
    let Ok(input) = Vec::from_slice(alloc, input) else {
        return Err(Refusal::Memory);
    };
    let Ok(mut machine) = Machine::new(alloc, config, programs, input) else {
        return Err(Refusal::Memory);
    };
    if let Err(_) = machine.load(name, tail) {
        return Err(Refusal::Short);
    }
    Ok(Session::new(machine))
}

impl Setup {
    /// Returns Ok if a program can be loaded by this name and with this tail; else `BadName`, `TailTooLong`, `NotFound`
    /// or `BadFormat`, in this order.
    fn test(&self, name: &[u8], tail: &[u8]) -> Result<(), Refusal>
        ensures { IsTestedWith self.now name.now tail.now result }
    {
        if !is_name(name) {
            return Err(Refusal::BadName);
        }
        if tail.len() > MOST_TAIL {
            return Err(Refusal::TailTooLong);
        }
        self.test_program(name)
    }
}

impl Host {
    /// Adds a program under its name. It can then be loaded, or started by another program.
    ///
    /// # Errors
    ///
    /// `Started` where a program was loaded or its loading failed for good; else `BadName` where the name is empty, has
    /// over 64 bytes or has a zero byte; else `NameTwice` where a program has the name already, ASCII case ignored;
    /// else `Memory` if an allocation failed. Nothing has changed then.
    pub fn add(&mut self, alloc: Global, name: &[u8], bytes: &[u8]) -> Result<(), Refusal>
        ensures ok { OnOk result (Adds self.old name.now bytes.now self.new) }
        ensures err { IfErr result (IsUnadded self.old name.now) }
        ensures kept { OnErr result (self.new ≡ self.old) }
    {
        let Stage::Fresh(setup) = &mut self.stage else {
            return Err(Refusal::Started);
        };
        setup.add(alloc, name, bytes)
    }

    /// Makes the machine with this console input, and loads the program of this name into it with a command tail. The
    /// answer stays.
    ///
    /// # Errors
    ///
    /// In this order: `Started` where a program was loaded or its loading failed for good; `BadName` where the name is
    /// empty, has over 64 bytes or has a zero byte; `TailTooLong` over 126 bytes; `NotFound` where no program has the
    /// name; `BadFormat` where the program is neither a COM file of at most 65,278 bytes nor a good MZ file. Nothing
    /// has changed then. `Short` where conventional memory has no room for the program and its environment, and
    /// `Memory` if an allocation failed: then the host is spent.
    pub fn load(
        &mut self,
        alloc: Global,
        name: &[u8],
        tail: &[u8],
        input: &[u8],
    ) -> Result<(), Refusal>
        ensures ok { OnOk result (Loads self.old name.now tail.now input.now self.new) }
        ensures err { IfErr result (λ e. IsUnloaded self.old name.now tail.now input.now e self.new) }
    {
        let Stage::Fresh(setup) = &self.stage else {
            return Err(Refusal::Started);
        };
        if let Err(refusal) = setup.test(name, tail) {
            return Err(refusal);
        }
        let Stage::Fresh(setup) = std::mem::replace(&mut self.stage, Stage::Spent) else {
            unreachable!()
        };
        match begun(alloc, setup, name, tail, input) {
            Ok(session) => {
                self.stage = Stage::Loaded(session);
                Ok(())
            }
            Err(refusal) => Err(refusal),
        }
    }
}
