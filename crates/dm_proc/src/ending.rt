//! How a program ends (MS-DOS Programmer's Reference, functions 00h, 4Ch and 31h, and INT 20h).
ghost use Rattle.std.specs.Prelude.{◌≡◌, ◌+◌, IsErrOf, MatchBool};
ghost use Rattle.dm_proc.specs.Processes.{Ends, StaysResident, Terminates};

use crate::parent::Ending;
use crate::procs::Procs;
use crate::psp::push_guest;
use crate::refusal::ArenaDestroyed;
use crate::writes::write_from;
use arrayvec::ArrayVec;
use dm_arena::{ArenaRefusal, free_all, resize};
use dm_cpu::Cpu;
use dm_space::Space;

/// Restores the vectors of interrupts 22h to 24h, 12 bytes at 0000:0088h, from the prefix at a segment, offset 0Ah.
fn vectors_back(space: &mut Space, segment: u16)
    ensures { space.new.memory ≡ Rattle.dm_proc.specs.Processes.vectors_back space.old.memory segment }
{
    let mut vectors: ArrayVec<u8, 12> = ArrayVec::new();
    push_guest(&mut vectors, space, segment, 0x0A, 12);
    write_from(space, 0, 0x88, vectors.as_slice());
}

/// Whether the arena's resize, for function 31h, failed with `Destroyed`: there is no clear list of blocks, or there
/// would be none.
fn is_destroyed(answer: Result<(), ArenaRefusal>) -> bool
    ensures { MatchBool result (IsErrOf answer ArenaRefusal.Destroyed) (IsErrOf answer ArenaRefusal.Destroyed → ⊥) }
{
    match answer {
        Err(ArenaRefusal::Destroyed) => true,
        Ok(()) | Err(ArenaRefusal::Short { .. } | ArenaRefusal::NoBlock) => false,
    }
}

impl Procs {
    /// Ends the present process, whose blocks are freed or kept already: restores the vectors 22h to 24h from its
    /// prefix; its parent, if it has one, becomes the present process, and `cpu` gets the registers that the parent
    /// waits with, else present process and registers stay. `word` is what function 4Dh then returns.
    fn end(&mut self, cpu: &mut Cpu, space: &mut Space, word: u16) -> Ending
        ensures { Ends self.old cpu.old space.old.memory word result self.new cpu.new space.new.memory }
    {
        vectors_back(space, self.psp());
        self.finish(cpu, word)
    }

    /// Ends the present process with an exit code (functions 00h and 4Ch, INT 20h, a divide error): frees its blocks
    /// and restores the vectors 22h to 24h from its prefix; its parent becomes the present process, and `cpu` gets the
    /// registers that the parent waits with. Where the first program ends, registers and present process stay. Either
    /// way the code is kept for function 4Dh.
    ///
    /// # Errors
    ///
    /// `ArenaDestroyed` where memory spells no clear list of blocks or, where upper memory belongs to the arena
    /// (`upper`) and that list isn't linked with it, no second one that is clear with it. Then nothing has changed.
    pub fn terminate(
        &mut self,
        cpu: &mut Cpu,
        space: &mut Space,
        code: u8,
        upper: bool,
    ) -> Result<Ending, ArenaDestroyed>
        ensures { Terminates upper self.old cpu.old space.old.memory code result self.new cpu.new space.new.memory }
    {
        if free_all(space, self.psp(), upper).is_err() {
            return Err(ArenaDestroyed);
        }
        Ok(self.end(cpu, space, code as u16))
    }

    /// Ends the present process and keeps it in memory (function 31h): resizes its block to `paragraphs` (the size
    /// stays where that can't be done), and frees none of its blocks. Vectors, parent and registers are as for
    /// `terminate`; the word for function 4Dh has the code in its low byte, 3 in its high byte.
    ///
    /// # Errors
    ///
    /// `ArenaDestroyed` where memory spells no clear list of blocks, or would spell none once the block is resized.
    /// Then nothing has changed.
    pub fn keep(
        &mut self,
        cpu: &mut Cpu,
        space: &mut Space,
        code: u8,
        paragraphs: u16,
        upper: bool,
    ) -> Result<Ending, ArenaDestroyed>
        ensures { StaysResident upper self.old cpu.old space.old.memory code paragraphs result self.new cpu.new
            space.new.memory }
    {
        let answer = resize(space, self.psp(), paragraphs, upper);
        if is_destroyed(answer) {
            return Err(ArenaDestroyed);
        }
        Ok(self.end(cpu, space, 0x300 + code as u16))
    }
}
