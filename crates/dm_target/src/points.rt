//! Breakpoints and watchpoints that are set.

ghost use Rattle.std.specs.Prelude.{◌≡◌, ◌<◌, ◌==◌, OnOk, OnErr, IfSome, length, position};
ghost use Rattle.std.specs.List.{list_any};
ghost use Rattle.dm_target.specs.Points.{is_same, none_set, type_of, with_break, with_point, with_watch, without_break, without_point, without_watch};

use crate::going::is_among;
use dm_requests::{Point, WatchedAccess};
use std::alloc::{AllocError, Global};
use std::marker::Model;

/// Breakpoints, by their linear addresses, and watchpoints, all different, in the order of setting.
///
/// Contracts see both lists.
#[derive(Drop)]
pub struct Points {
    breaks: Vec<u32>,
    watches: Vec<Point>,
}

impl Model for Points {
    ghost use Rattle.dm_target.specs.Points.{Set};

    ghost Value = { Set };

    ghost view = { λ p. record { breaks = p.breaks.items; watches = p.watches.items } };
}

/// The number of an access in a packet.
fn type_of(access: WatchedAccess) -> u8
    ensures { result ≡ type_of access }
{
    match access {
        WatchedAccess::Execute => 0,
        WatchedAccess::Write => 2,
        WatchedAccess::Read => 3,
        WatchedAccess::Either => 4,
    }
}

/// Whether two watchpoints have the same access and the same range.
fn is_same(point: &Point, other: &Point) -> bool
    ensures { result ≡ is_same point.now other.now }
{
    type_of(other.access) == type_of(point.access)
        && other.address == point.address
        && other.length == point.length
}

/// The index of an address among these; None if it is not among them.
fn place_of_break(breaks: &[u32], address: u32) -> Option<usize>
    ensures first { result ≡ position (λ p. p == address) breaks.now }
    ensures there { IfSome result (λ k. k < length breaks.now) }
{
    breaks.iter().position(|point| *point == address)
}

/// The index of a watchpoint among these; None if it is not among them.
fn place_of_watch(watches: &[Point], point: &Point) -> Option<usize>
    ensures first { result ≡ position (is_same point.now) watches.now }
    ensures there { IfSome result (λ k. k < length watches.now) }
{
    watches.iter().position(|other| is_same(point, other))
}

/// Whether a watchpoint is among these.
fn is_watched(watches: &[Point], point: &Point) -> bool
    ensures { result ≡ list_any (is_same point.now) watches.now }
{
    watches.iter().any(|other| is_same(point, other))
}

impl Points {
    /// None set.
    pub fn new(alloc: Global) -> Points
        ensures { result ≡ none_set }
    {
        Points {
            breaks: Vec::new(alloc),
            watches: Vec::new(alloc),
        }
    }

    /// The linear addresses of breakpoints, in the order of setting.
    pub fn breaks(&self) -> &[u32]
        ensures { result.now ≡ self.now.breaks }
    {
        self.breaks.as_slice()
    }

    /// The watchpoints, in the order of setting.
    pub fn watches(&self) -> &[Point]
        ensures { result.now ≡ self.now.watches }
    {
        self.watches.as_slice()
    }

    /// Sets a breakpoint, unless it is set. An `Err` is a failed allocation, and nothing has changed.
    fn set_break(&mut self, address: u32) -> Result<(), AllocError>
        ensures ok { OnOk result (self.new ≡ record self.old { breaks = with_break self.old.breaks address }) }
        ensures err { OnErr result (self.new ≡ self.old) }
    {
        if !is_among(self.breaks.as_slice(), address) {
            self.breaks.push(address)?;
        }
        Ok(())
    }

    /// Sets a watchpoint, unless it is set. An `Err` is a failed allocation, and nothing has changed.
    fn set_watch(&mut self, point: Point) -> Result<(), AllocError>
        ensures ok { OnOk result (self.new ≡ record self.old { watches = with_watch self.old.watches point }) }
        ensures err { OnErr result (self.new ≡ self.old) }
    {
        if !is_watched(self.watches.as_slice(), &point) {
            self.watches.push(point)?;
        }
        Ok(())
    }

    /// Removes a breakpoint, if it is set.
    fn clear_break(&mut self, address: u32)
        ensures { self.new ≡ record self.old { breaks = without_break self.old.breaks address } }
    {
        if let Some(at) = place_of_break(self.breaks.as_slice(), address) {
            self.breaks.remove(at);
        }
    }

    /// Removes a watchpoint, if it is set.
    fn clear_watch(&mut self, point: Point)
        ensures { self.new ≡ record self.old { watches = without_watch self.old.watches point } }
    {
        if let Some(at) = place_of_watch(self.watches.as_slice(), &point) {
            self.watches.remove(at);
        }
    }

    /// Sets a breakpoint or watchpoint, unless it is set. Of a breakpoint the length does not matter. Any address and
    /// length will do: no step reaches an address above FFFF:FFFF.
    ///
    /// # Errors
    ///
    /// `AllocError`, and nothing has changed.
    pub fn set(&mut self, point: Point) -> Result<(), AllocError>
        ensures ok { OnOk result (self.new ≡ with_point self.old point) }
        ensures err { OnErr result (self.new ≡ self.old) }
    {
        match point.access {
            WatchedAccess::Execute => self.set_break(point.address),
            _ => self.set_watch(point),
        }
    }

    /// Removes a breakpoint or watchpoint, if it is set.
    pub fn clear(&mut self, point: Point)
        ensures { self.new ≡ without_point self.old point }
    {
        match point.access {
            WatchedAccess::Execute => self.clear_break(point.address),
            _ => self.clear_watch(point),
        }
    }
}
