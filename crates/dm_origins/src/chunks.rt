//! Which step was the last that freed each paragraph below 10000h, kept so that a large block is freed in few writes.

ghost use Rattle.std.specs.Prelude.{◌≡◌, ◌+◌, ◌*◌, ◌<◌, ◌≤◌, length, replicate, slice_index_or, IfOk};
ghost use Rattle.dm_origins.specs.inner.Chunks.{freed_by};
ghost use Rattle.dm_origins.specs.inner.Freed.{within, Frees};

use dm_findings::Origin;
use std::alloc::{AllocError, Global};
use std::marker::Model;

/// How many paragraphs are kept.
const PARAGRAPHS: usize = 0x1_0000;

/// How many paragraphs a chunk has.
const CHUNK: usize = 256;

/// How many chunks there are.
const CHUNKS: usize = 256;

/// Of each paragraph below 10000h, the last step that freed it; None if there is none.
///
/// Where one step freed a whole chunk, `wholes` has that step: what `each` holds of its paragraphs then means nothing.
/// Contracts see a list with an entry for each paragraph.
#[derive(Drop)]
pub(crate) struct Chunks {
    wholes: Vec<Option<Origin>>,
    each: Vec<Option<Origin>>,
}

impl Model for Chunks {
    ghost use Rattle.std.specs.Prelude.{◌≡◌, List, Option, vec_len};
    ghost use Rattle.dm_findings.specs.declared.finding.Origin.{Origin};
    ghost use Rattle.dm_origins.specs.inner.Chunks.{freed_by};

    ghost Value = { List (Option Origin) };

    ghost view = { λ c. freed_by c.wholes.items c.each.items };

    ghost invariant = { λ c. (vec_len c.wholes ≡ 256) × (vec_len c.each ≡ 0x10000) };
}

/// A list that names no step, `count` times. An `Err` is a failed allocation.
fn no_steps(alloc: Global, count: usize) -> Result<Vec<Option<Origin>>, AllocError>
    ensures { IfOk result (λ steps. steps.items ≡ replicate count None) }
{
    let mut steps = Vec::new(alloc);
    for number in 0..count {
        let _ = number;
        steps.push(None)?;
    }
    Ok(steps)
}

/// Writes the origin of the paragraphs from `first` up to but not including `end`.
fn write(each: &mut [Option<Origin>], first: usize, end: usize, origin: Origin)
    requires order { first ≤ end }
    requires fits { end ≤ length each.old }
    ensures { Frees (within first end) origin each.old each.new }
{
    for paragraph in first..end {
        each[paragraph] = Some(origin);
    }
}

/// Writes the step that freed a whole chunk, if there is one, to each of its paragraphs, and forgets it of the whole.
fn spread(wholes: &mut [Option<Origin>], each: &mut [Option<Origin>], chunk: usize)
    requires wholes { length wholes.old ≡ 256 }
    requires each { length each.old ≡ 0x10000 }
    requires chunk { chunk < 256 }
    ensures same { freed_by wholes.new each.new ≡ freed_by wholes.old each.old }
    ensures forgotten { slice_index_or wholes.new chunk None ≡ None }
{
    if let Some(origin) = wholes[chunk] {
        write(each, chunk * CHUNK, chunk * CHUNK + CHUNK, origin);
        wholes[chunk] = None;
    }
}

/// Sets the origin of the paragraphs of a chunk from `first` up to but not including `end`.
fn set_in_chunk(
    wholes: &mut [Option<Origin>],
    each: &mut [Option<Origin>],
    chunk: usize,
    first: usize,
    end: usize,
    origin: Origin,
)
    requires wholes { length wholes.old ≡ 256 }
    requires each { length each.old ≡ 0x10000 }
    requires chunk { chunk < 256 }
    requires from { chunk * 256 ≤ first }
    requires order { first ≤ end }
    requires to { end ≤ chunk * 256 + 256 }
    ensures { Frees (within first end) origin (freed_by wholes.old each.old) (freed_by wholes.new each.new) }
{
    if end - first == CHUNK {
        wholes[chunk] = Some(origin);
    } else {
        spread(wholes, each, chunk);
        write(each, first, end, origin);
    }
}

impl Chunks {
    /// No paragraph was freed. An `Err` is a failed allocation.
    pub(crate) fn never_freed(alloc: Global) -> Result<Chunks, AllocError>
        ensures { IfOk result (λ chunks. chunks ≡ replicate 0x10000 None) }
    {
        let wholes = no_steps(alloc, CHUNKS)?;
        let each = no_steps(alloc, PARAGRAPHS)?;
        Ok(Chunks { wholes, each })
    }

    /// The last step that freed a paragraph; None if there is none.
    pub(crate) fn get(&self, paragraph: usize) -> Option<Origin>
        ensures { result ≡ slice_index_or self.now paragraph None }
    {
        if paragraph >= self.each.len() {
            return None;
        }
        self.wholes[paragraph / CHUNK].or(self.each[paragraph])
    }

    /// Sets the origin of the paragraphs from `first` up to but not including `end`.
    pub(crate) fn set(&mut self, first: usize, end: usize, origin: Origin)
        requires order { first ≤ end }
        requires fits { end ≤ length self.old }
        ensures { Frees (within first end) origin self.old self.new }
    {
        let mut at = first;
        while at < end {
            let chunk = at / CHUNK;
            let next = end.min(chunk * CHUNK + CHUNK);
            set_in_chunk(&mut self.wholes, &mut self.each, chunk, at, next, origin);
            at = next;
        }
    }
}
