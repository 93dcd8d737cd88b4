//! The values that pass between C and the library beside numbers and bytes: statuses, stops, registers, breakpoints.
ghost use Rattle.std.specs.Prelude.{◌≡◌, ◌++◌, ◌∷◌, [], IfOk, map, drop, OnOk};
ghost use Rattle.dm_c.specs.calls.Statuses.{status_of, stopped_of, registers_of, cpu_of, point_of};
ghost use Rattle.dm_c.specs.calls.Calls.{GivesItems};

use dm_alu::Flags;
use dm_host::{Refusal, copy_all};
use dm_machine::{Breakpoint, Cpu, Stop};
use std::alloc::{AllocError, Global};

/// The status of a call that has succeeded.
pub const OK: u32 = 0;

/// The status of a call that needs a machine (any but `dm_c_new` and `dm_c_free`), on a handle that holds none.
pub const NO_MACHINE: u32 = 1;

/// The status of `dm_c_new` on a handle that holds a machine already.
pub const IN_USE: u32 = 2;

/// The status if an allocation of the library failed. One for the program's output is a stop (6) instead.
pub const OUT_OF_MEMORY: u32 = 3;

/// The status if the buffer is too small.
pub const TOO_SMALL: u32 = 4;

/// The status if the program to assemble or disassemble has over 65,278 bytes.
pub const TOO_LONG: u32 = 21;

/// Why a run stopped: `why` is 0 to 7 as `stopped_of` numbers the stops, and `code` is the exit code, 0 at any other
/// stop.
#[repr(C)]
#[derive(Clone, Copy, Debug, PartialEq, Eq)]
pub struct Stopped {
    pub why: u32,
    pub code: u32,
}

/// The registers as C sees them; `flags` is the word that PUSHF stores.
#[repr(C)]
#[derive(Clone, Copy, Debug, PartialEq, Eq)]
pub struct Registers {
    pub ax: u16,
    pub bx: u16,
    pub cx: u16,
    pub dx: u16,
    pub sp: u16,
    pub bp: u16,
    pub si: u16,
    pub di: u16,
    pub cs: u16,
    pub ds: u16,
    pub es: u16,
    pub ss: u16,
    pub ip: u16,
    pub flags: u16,
}

/// A breakpoint as C passes it: an exact pair of CS and IP.
#[repr(C)]
#[derive(Clone, Copy, Debug, PartialEq, Eq)]
pub struct Point {
    pub segment: u16,
    pub offset: u16,
}

/// The status of a refusal of `dm_host`.
pub fn status_of(refusal: Refusal) -> u32
    ensures { result ≡ status_of refusal }
{
    match refusal {
        Refusal::Memory => OUT_OF_MEMORY,
        Refusal::TooLarge => 5,
        Refusal::VariablesTooLong => 6,
        Refusal::BadName => 7,
        Refusal::NameTwice => 8,
        Refusal::Started => 9,
        Refusal::TailTooLong => 10,
        Refusal::NotFound => 11,
        Refusal::BadFormat => 12,
        Refusal::Short => 13,
        Refusal::NotLoaded => 14,
        Refusal::Syntax => 15,
        Refusal::Full => 16,
        Refusal::InputClosed => 22,
        Refusal::NoHandle => 26,
        Refusal::NoPage => 27,
        Refusal::PastEnd => 28,
        Refusal::NoFinding => 29,
    }
}

/// The status of a call of `Host`: that of its refusal; without one it is 0, or what follows `=>` says of the value.
macro_rules! status_by {
    ($call:expr) => {
        status_by!($call, () => $crate::calls::OK)
    };
    ($call:expr, $value:pat => $status:expr) => {
        match $call {
            Ok($value) => $status,
            Err(refusal) => $crate::calls::status_of(refusal),
        }
    };
}

pub(crate) use status_by;

/// A stop as C sees it; None is a breakpoint.
pub fn stopped_of(stop: Option<Stop>) -> Stopped
    ensures { result ≡ stopped_of stop }
{
    match stop {
        Some(Stop::Steps) => Stopped { why: 0, code: 0 },
        Some(Stop::Exited(code)) => Stopped {
            why: 1,
            code: code as u32,
        },
        Some(Stop::Halted) => Stopped { why: 2, code: 0 },
        Some(Stop::Unlisted) => Stopped { why: 3, code: 0 },
        Some(Stop::InputEnded) => Stopped { why: 4, code: 0 },
        Some(Stop::Destroyed) => Stopped { why: 5, code: 0 },
        Some(Stop::Memory) => Stopped { why: 6, code: 0 },
        None => Stopped { why: 7, code: 0 },
    }
}

/// The registers and flags as C sees them. `cpu_of` gives them back.
pub fn registers_of(cpu: Cpu) -> Registers
    ensures registers { result ≡ registers_of cpu }
    ensures sets_back { cpu_of result ≡ cpu }
{
    Registers {
        ax: cpu.ax,
        bx: cpu.bx,
        cx: cpu.cx,
        dx: cpu.dx,
        sp: cpu.sp,
        bp: cpu.bp,
        si: cpu.si,
        di: cpu.di,
        cs: cpu.cs,
        ds: cpu.ds,
        es: cpu.es,
        ss: cpu.ss,
        ip: cpu.ip,
        flags: cpu.flags.to_word(),
    }
}

/// The registers and flags that C passes. Of the flags' word only the bits of the nine flags count.
pub fn cpu_of(registers: Registers) -> Cpu
    ensures { result ≡ cpu_of registers }
{
    Cpu {
        ax: registers.ax,
        bx: registers.bx,
        cx: registers.cx,
        dx: registers.dx,
        sp: registers.sp,
        bp: registers.bp,
        si: registers.si,
        di: registers.di,
        cs: registers.cs,
        ds: registers.ds,
        es: registers.es,
        ss: registers.ss,
        ip: registers.ip,
        flags: Flags::from_word(registers.flags),
    }
}

/// The breakpoint at an exact pair of CS and IP.
fn point_of(point: Point) -> Breakpoint
    ensures { result ≡ point_of point }
{
    Breakpoint {
        segment: point.segment,
        offset: point.offset,
    }
}

/// The breakpoints at these pairs of CS and IP, in their order. An `Err` is a failed allocation.
pub fn points_of(alloc: Global, points: &[Point]) -> Result<Vec<Breakpoint>, AllocError>
    ensures { IfOk result (λ v. v.items ≡ map point_of points.now) }
{
    let mut breakpoints = Vec::new(alloc);
    for point in points {
        breakpoints.push(point_of(*point))?;
    }
    Ok(breakpoints)
}

/// The bytes from an offset on; none where the offset is past the end.
pub fn rest_of(bytes: &[u8], from: usize) -> &[u8]
    ensures { result.now ≡ drop from bytes.now }
{
    &bytes[from.min(bytes.len())..]
}

/// The end of the calls that give as much as there is: sets `wanted` to the number of items. If they fit, copies them
/// to the front of the buffer and returns 0; otherwise returns 4, and the buffer stays.
pub fn give_items<T: Copy>(items: &[T], buffer: &mut [T], wanted: &mut usize) -> u32
    ensures { GivesItems items.now buffer.old buffer.new wanted.new result }
{
    *wanted = items.len();
    if copy_all(items, buffer) {
        OK
    } else {
        TOO_SMALL
    }
}
