//! The breakpoints of a debugging session, in the order of setting.

ghost use Rattle.std.specs.Prelude.{◌≡◌, ◌<◌, ◌++◌, ◌∷◌, [], false, IfSome, OnOk, length, position};
ghost use Rattle.dm_debug.specs.Points.{is_point, point_at, is_set, is_seventeenth, with_point, without_point, points_text, AreDistinct};

use arrayvec::ArrayVec;
use dm_machine::Breakpoint;
use dm_requests::commands::LogicalAddress;
use dm_views::put_address;
use std::alloc::AllocError;
use std::marker::Model;

/// The largest number of breakpoints of a session.
const MOST: usize = 16;

/// The breakpoints of a session, at most 16, in the order of setting, no two of them at one segment and offset.
/// Contracts see them as a list.
#[derive(Drop)]
pub struct Points {
    list: ArrayVec<Breakpoint, 16>,
}

impl Model for Points {
    ghost use Rattle.std.specs.Prelude.{List};
    ghost use Rattle.dm_machine.specs.declared.until.Breakpoint.{Breakpoint};
    ghost use Rattle.dm_debug.specs.Points.{AreDistinct};

    ghost Value = { List Breakpoint };

    ghost view = { λ p. p.list.items };

    ghost invariant = { λ p. AreDistinct p.list.items };
}

/// The breakpoint at exactly this segment and offset.
fn point_at(address: LogicalAddress) -> Breakpoint
    ensures { result ≡ point_at address }
{
    Breakpoint {
        segment: address.segment,
        offset: address.offset,
    }
}

/// Whether the breakpoint is the one for exactly this segment and offset.
fn is_point(address: LogicalAddress, point: Breakpoint) -> bool
    ensures { result ≡ is_point address point }
{
    point.offset == address.offset && point.segment == address.segment
}

/// The index, in the list of breakpoints, of the one at an address; None if no breakpoint is set there.
fn index_of(points: &[Breakpoint], address: LogicalAddress) -> Option<usize>
    ensures first { result ≡ position (is_point address) points.now }
    ensures there { IfSome result (λ k. k < length points.now) }
{
    points.iter().position(|point| is_point(address, *point))
}

impl Points {
    /// No breakpoints.
    pub fn new() -> Points
        ensures { result ≡ [] }
    {
        Points {
            list: ArrayVec::new(),
        }
    }

    /// The same breakpoints once more.
    pub fn duplicate(&self) -> Points
        ensures { result ≡ self.now }
    {
        let mut list = ArrayVec::new();
        // There is room for them.
        let _ = list.try_extend_from_slice(&self.list);
        Points { list }
    }

    /// The breakpoints. No two are at one segment and offset.
    pub fn as_slice(&self) -> &[Breakpoint]
        ensures value { result.now ≡ self.now }
        ensures distinct { AreDistinct result.now }
    {
        self.list.as_slice()
    }

    /// Whether a breakpoint is set at the address: this segment and this offset exactly.
    pub fn is_set(&self, address: LogicalAddress) -> bool
        ensures { result ≡ is_set self.now address }
    {
        index_of(self.list.as_slice(), address).is_some()
    }

    /// Whether there is no room for a breakpoint at the address: it is not set, and sixteen others are.
    pub fn is_seventeenth(&self, address: LogicalAddress) -> bool
        ensures { result ≡ is_seventeenth self.now address }
    {
        !self.is_set(address) && MOST <= self.list.len()
    }

    /// Adds a breakpoint at the end of the list, where there must be room for it; if it is set already, the list stays.
    pub fn set(&mut self, address: LogicalAddress)
        requires { is_seventeenth self.old address ≡ false }
        ensures { self.new ≡ with_point self.old address }
    {
        if let None = index_of(self.list.as_slice(), address) {
            self.list.push(point_at(address));
        }
    }

    /// Removes the breakpoint at the address from the list, where no other one has this segment and this offset; if
    /// none is set there, the list stays.
    pub fn clear(&mut self, address: LogicalAddress)
        ensures list { self.new ≡ without_point self.old address }
        ensures gone { is_set self.new address ≡ false }
    {
        if let Some(at) = index_of(self.list.as_slice(), address) {
            self.list.remove(at);
        }
    }
}

/// BL: appends the breakpoints, a line `segment:offset` each. An `Err` is a failed allocation.
pub(crate) fn put_points(out: &mut Vec<u8>, points: &[Breakpoint]) -> Result<(), AllocError>
    ensures { OnOk result (out.new.items ≡ out.old.items ++ points_text points.now) }
{
    for point in points {
        put_address(out, point.segment, point.offset)?;
        out.extend_from_slice(b"\n")?;
    }
    Ok(())
}
