//! What a host's machine is made from.
ghost use Rattle.std.specs.Prelude.{◌≡◌, ◌++◌, ◌∷◌, [], ◌↔◌, ◌<◌, ◌≤◌, OnOk, OnErr, IsErrOf, IfOk, IfErr, IsTrue, length, None};
ghost use Rattle.dm_pool.specs.Stored.{IsTooLarge};
ghost use Rattle.dm_proc.specs.Programs.{IsName, program_of};
ghost use Rattle.dm_load.specs.Image.{IsGood};
ghost use Rattle.dm_host.specs.Setups.{IsNewFault, IsAddFault, added};
ghost use Rattle.dm_host.specs.inner.Setups.{IsTested};

use crate::refusal::Refusal;
use dm_load::Image;
use dm_machine::{AddError, Config, Programs, Sizes};
use std::alloc::Global;
use std::marker::Model;

/// The largest number of pages of expanded memory.
const MOST_PAGES: u32 = 512;

/// The largest size of extended memory, in KiB.
const MOST_KIB: u32 = 15_360;

/// The largest number of bytes of the environment variables with their zeros.
const MOST_VARIABLES: usize = 0x7FFF;

/// The largest number of bytes of a program's name.
const MOST_NAME: usize = 64;

/// What a machine is made from: how much memory it has, the variables of the first program's environment, whether upper
/// memory belongs to the arena, and the programs that can be loaded or started.
#[derive(Drop)]
pub struct Setup {
    pub(crate) config: Config,
    pub(crate) programs: Programs,
}

impl Model for Setup {
    ghost use Rattle.dm_host.specs.Setups.{Prepared};
    ghost use Rattle.dm_host.specs.inner.Setups.{IsPrepared};

    ghost Value = { Prepared };

    ghost view = { λ s. record {
      sizes = s.config.sizes;
      variables = s.config.variables.items;
      upper = s.config.upper;
      programs = s.programs;
    } };

    ghost invariant = { λ s. IsPrepared (record {
      sizes = s.config.sizes;
      variables = s.config.variables.items;
      upper = s.config.upper;
      programs = s.programs;
    }) };
}

/// Whether a program can have this name: it has 1 to 64 bytes, none of them zero.
pub(crate) fn is_name(name: &[u8]) -> bool
    ensures { IsTrue result ↔ IsName name.now }
{
    !name.is_empty() && name.len() <= MOST_NAME && !name.contains(&0)
}

impl Setup {
    /// A setup with no programs. The variables of the first program's environment are each closed by a zero byte;
    /// `upper` is whether upper memory belongs to the arena.
    ///
    /// # Errors
    ///
    /// `TooLarge` exactly where the sizes are over 512 pages or 15,360 KiB; else `VariablesTooLong` exactly where the
    /// variables have over 32,767 bytes; else `Memory` if an allocation failed.
    pub fn new(alloc: Global, sizes: Sizes, variables: &[u8], upper: bool) -> Result<Setup, Refusal>
        ensures ok { IfOk result (λ s. s ≡ record {
          sizes = sizes;
          variables = variables.now;
          upper = upper;
          programs = [];
        }) }
        ensures fits { OnOk result ((IsTooLarge sizes → ⊥) × (length variables.now ≤ 0x7FFF)) }
        ensures err { IfErr result (IsNewFault sizes variables.now) }
    {
        if sizes.ems_pages > MOST_PAGES || sizes.xms_kib > MOST_KIB {
            return Err(Refusal::TooLarge);
        }
        if variables.len() > MOST_VARIABLES {
            return Err(Refusal::VariablesTooLong);
        }
        let Ok(variables) = Vec::from_slice(alloc, variables) else {
            return Err(Refusal::Memory);
        };
        let config = Config {
            sizes,
            variables,
            upper,
        };
        Ok(Setup {
            config,
            programs: Programs::new(alloc),
        })
    }

    /// Adds a program: its name and its file's bytes.
    ///
    /// # Errors
    ///
    /// `BadName` exactly where the name is empty, has over 64 bytes or has a zero byte; else `NameTwice` exactly where
    /// a program has the name already, ASCII case ignored; else `Memory` if an allocation failed. Nothing has changed
    /// then.
    pub fn add(&mut self, alloc: Global, name: &[u8], bytes: &[u8]) -> Result<(), Refusal>
        ensures ok { OnOk result (self.new ≡ added self.old name.now bytes.now) }
        ensures err { IfErr result (IsAddFault self.old name.now) }
        ensures kept { OnErr result (self.new ≡ self.old) }
    {
        if !is_name(name) {
            return Err(Refusal::BadName);
        }
        if self.programs.find(name).is_some() {
            return Err(Refusal::NameTwice);
        }
        let Ok(bytes) = Vec::from_slice(alloc, bytes) else {
            return Err(Refusal::Memory);
        };
        match self.programs.add(alloc, name, bytes) {
            Ok(()) => Ok(()),
            Err(AddError::Twice) => Err(Refusal::NameTwice),
            Err(AddError::Memory) => Err(Refusal::Memory),
        }
    }

    /// Returns Ok if the store has a program of this name that can be loaded; `NotFound` if it has none of the name,
    /// `BadFormat` if the file of the name is neither a COM file of at most 65,278 bytes nor a good MZ file.
    pub(crate) fn test_program(&self, name: &[u8]) -> Result<(), Refusal>
        ensures { IsTested self.now name.now result }
    {
        let Some(file) = self.programs.find(name) else {
            return Err(Refusal::NotFound);
        };
        match Image::of(file) {
            Ok(_) => Ok(()),
            Err(_) => Err(Refusal::BadFormat),
        }
    }
}
