//! The store of programs: named files, whose names are compared with ASCII case ignored.
ghost use Rattle.std.specs.Prelude.{◌≡◌, ◌++◌, ◌↔◌, ◌≤◌, ◌<◌, List, [], ◌∷◌, ℕ, true, IfOk, OnOk, OnErr, IsErrOf, length, map, option_map};
ghost use Rattle.std.specs.Str.{str_eq_ignore_ascii_case};
ghost use Rattle.dm_proc.specs.Programs.{has_program, program_of, IsName};

use std::alloc::{AllocError, Global};
use std::marker::Model;
use thiserror::Error;

/// Why a program was not added.
#[derive(Clone, Copy, Debug, PartialEq, Eq, Error)]
pub enum AddError {
    /// A program of the store has this name already.
    #[error("name twice")]
    Twice,
    /// An allocation failed.
    #[error("out of memory")]
    Memory,
}

/// A program: its name, and the bytes of its file.
#[derive(Drop)]
struct Program {
    name: Vec<u8>,
    bytes: Vec<u8>,
}

impl Program {
    /// Another program with the same name and bytes. `AllocError` if an allocation fails.
    fn duplicate(&self, alloc: Global) -> Result<Program, AllocError>
        ensures { IfOk result (λ program. (program.name.items ≡ self.now.name.items) ×
            (program.bytes.items ≡ self.now.bytes.items)) }
    {
        Ok(Program {
            name: Vec::from_slice(alloc, self.name.as_slice())?,
            bytes: Vec::from_slice(alloc, self.bytes.as_slice())?,
        })
    }
}

/// Named program files. Contracts see the list of names and bytes.
#[derive(Drop)]
pub struct Programs {
    programs: Vec<Program>,
}

impl Model for Programs {
    ghost Value = { List (List ℕ × List ℕ) };

    ghost view = { λ s. map (λ p. (p.name.items, p.bytes.items)) s.programs.items };
}

/// Whether two names are the same, ASCII case ignored.
fn same_name(a: &[u8], b: &[u8]) -> bool
    ensures { result ≡ str_eq_ignore_ascii_case a.now b.now }
{
    a.eq_ignore_ascii_case(b)
}

impl Programs {
    /// An empty store. It allocates no memory.
    pub fn new(alloc: Global) -> Programs
        ensures { result ≡ [] }
    {
        Programs {
            programs: Vec::new(alloc),
        }
    }

    /// Another store with the same programs in the same order.
    ///
    /// # Errors
    ///
    /// `AllocError` if an allocation fails.
    pub fn duplicate(&self, alloc: Global) -> Result<Programs, AllocError>
        ensures { IfOk result (λ store. store ≡ self.now) }
    {
        let mut programs = Vec::new(alloc);
        for program in &self.programs {
            programs.push(program.duplicate(alloc)?)?;
        }
        Ok(Programs { programs })
    }

    /// The bytes of the program with this name, ASCII case ignored; None if the store has none.
    pub fn find(&self, name: &[u8]) -> Option<&[u8]>
        ensures { option_map (λ b. b.now) result ≡ program_of self.now name.now }
    {
        for program in &self.programs {
            if same_name(program.name.as_slice(), name) {
                return Some(program.bytes.as_slice());
            }
        }
        None
    }

    /// Adds a program: a name of 1 to 64 bytes, none of them zero, and the file's bytes.
    ///
    /// # Errors
    ///
    /// `Twice` where a program has this name already, ASCII case ignored; else `Memory` where an
    /// allocation failed. Then nothing has changed.
    pub fn add(&mut self, alloc: Global, name: &[u8], bytes: Vec<u8>) -> Result<(), AddError>
        requires { IsName name.now }
        ensures ok { OnOk result (self.new ≡ self.old ++ (name.now, bytes.items) ∷ []) }
        ensures twice { IsErrOf result AddError.Twice ↔ (has_program self.old name.now ≡ true) }
        ensures err { OnErr result (self.new ≡ self.old) }
    {
        if self.find(name).is_some() {
            return Err(AddError::Twice);
        }
        let name = Vec::from_slice(alloc, name).map_err(|_| AddError::Memory)?;
        match self.programs.push(Program { name, bytes }) {
            Ok(()) => Ok(()),
            Err(_) => Err(AddError::Memory),
        }
    }
}
