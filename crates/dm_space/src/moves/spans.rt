//! Spans: stretches of bytes at linear addresses, in pages of expanded memory, or in one block.

ghost use Rattle.std.specs.Prelude.{◌≡◌, ◌+◌, ◌^◌, ◌<◌, ◌∷◌, []};
ghost use Rattle.dm_space.specs.moves.Spans.{span, place_in, IsInside};

use crate::{Place, Space};
use dm_pool::Block;
use std::marker::Model;
use std::slice;

/// How many bytes a page of expanded memory has.
pub(crate) const PAGE: usize = 0x4000;

/// What a span lies in.
#[derive(Clone, Copy, Debug, PartialEq, Eq)]
pub enum SpanKind {
    /// Linear addresses, with A20 on.
    Linear,
    /// Pages of 4000h bytes, one after the other.
    Pages,
    /// One block of the pool.
    Single,
}

/// What a span lies in, and where it begins. Its bytes are counted from there. A span has no length: each function is
/// given the number of bytes it works on. The list of its blocks is lent to it.
#[derive(Drop)]
pub struct Span<'a> {
    kind: SpanKind,
    start: usize,
    blocks: &'a [Block],
}

impl<'a> Model for Span<'a> {
    ghost use Rattle.dm_space.specs.moves.Spans.{Span, span};

    ghost Value = { Span };

    ghost view = { λ r. span r.kind r.start r.blocks.now };
}

impl<'a> Span<'a> {
    /// The span from a linear address on.
    pub fn of_linear(address: usize) -> Span<'a>
        ensures { result ≡ span SpanKind.Linear address [] }
    {
        Span {
            kind: SpanKind::Linear,
            start: address,
            blocks: &[],
        }
    }

    /// The span from byte `start` of a list of pages on. Their bytes are counted from the first page on, 4000h for each
    /// page.
    pub fn of_pages(blocks: &'a [Block], start: usize) -> Span<'a>
        ensures { result ≡ span SpanKind.Pages start blocks.now }
    {
        Span {
            kind: SpanKind::Pages,
            start,
            blocks,
        }
    }

    /// The span from byte `start` of a block on.
    pub fn of_block(block: &'a Block, start: usize) -> Span<'a>
        ensures { result ≡ span SpanKind.Single start (block.now ∷ []) }
    {
        Span {
            kind: SpanKind::Single,
            start,
            blocks: slice::from_ref(block),
        }
    }

    /// What the span lies in.
    pub fn kind(&self) -> SpanKind
        ensures { result ≡ self.now.kind }
    {
        self.kind
    }

    /// Where byte `k` of the span stands, counted from linear address 0, or from the first byte of the pages or of the
    /// block.
    pub fn at(&self, k: usize) -> usize
        requires { self.now.start + k < 2 ^ 64 }
        ensures { result ≡ self.now.start + k }
    {
        self.start + k
    }

    /// The blocks that are the span's pages, or its one block; none for linear addresses.
    pub(crate) fn blocks(&self) -> &[Block]
        ensures { result.now ≡ self.now.blocks }
    {
        self.blocks
    }

    /// The place of byte `k` of the span, A20 taken as on.
    pub(crate) fn place(&self, space: &Space, k: usize) -> Place
        requires { IsInside space.now.memory self.now (k + 1) }
        ensures { result ≡ place_in space.now.memory self.now k }
    {
        let at = self.start + k;
        match self.kind {
            SpanKind::Linear => space.place(at),
            SpanKind::Pages => Place::Page(self.blocks[at / PAGE], at % PAGE),
            SpanKind::Single => Place::Page(self.blocks[0], at),
        }
    }
}
