//! A copy of a machine, as a snapshot that can be run again.
ghost use Rattle.std.specs.Prelude.{◌≡◌, IfOk};

use crate::decode_caches::DecodeCaches;
use crate::machine::Machine;
use std::alloc::{AllocError, Global};

impl Machine {
    /// Another machine in the same state. The two share nothing: what one does, the other does not see. The copy has
    /// memory of its own, as much as a new machine of these sizes, and its input, output, programs and variables.
    ///
    /// # Errors
    ///
    /// `AllocError` if an allocation fails.
    pub fn duplicate(&self, alloc: Global) -> Result<Machine, AllocError>
        ensures { IfOk result (λ machine. machine ≡ self.now) }
    {
        let parts = self.parts.duplicate(alloc)?;
        let decode_caches = DecodeCaches::new(alloc)?;
        Ok(Machine {
            parts,
            decode_caches,
        })
    }
}
