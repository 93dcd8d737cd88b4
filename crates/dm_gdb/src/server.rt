//! A session of the protocol: a machine, its breakpoints and watchpoints, and what each request changes and is replied.

ghost use Rattle.std.specs.Prelude.{◌≡◌, ◌≤◌, ◌+◌, ℕ, OnOk, OnErr, IfOk, length};
ghost use Rattle.dm_services.specs.state.State.{HasProgram};
ghost use Rattle.dm_target.specs.Going.{Continues};
ghost use Rattle.dm_gdb.specs.declared.replies.Reply.TheVariants as reply;
ghost use Rattle.dm_gdb.specs.Servers.{PutsConsole, Replies, arrival_reply, at_state, first_segment_address, is_exit, new_server, plain_reply, setting_reply, step_reply, threads_reply, with_inserted, with_registers, with_removed, after_write, memory_written, written_reply};

use crate::answers::{memory_reply, register_reply};
use crate::description::features_reply;
use crate::digits::put_hex;
use crate::replies::{BAD, NO_MEMORY, Reply, stop_reply};
use dm_history::History;
use dm_machine::{Cpu, Machine, Stop};
use dm_requests::packets::Payload;
use dm_requests::{Point, Request};
use dm_target::{
    LAST, Pause, Points, StepRange, all_registers, code_address, go_on, is_among, reads_as,
    registers_with, segment_below,
};
use std::alloc::{AllocError, Global};
use std::marker::Model;

/// A machine that is debugged over the protocol: with its breakpoints and watchpoints, by linear addresses, and how
/// much of the console's output the debugger was sent.
///
/// Contracts see the machine and its history, what is set, how many bytes of output were sent, the linear address of
/// the program's first segment, and whether the program has ended.
#[derive(Drop)]
pub struct Server {
    pub(crate) alloc: Global,
    pub(crate) history: History,
    pub(crate) points: Points,
    pub(crate) shown: usize,
    base: u32,
    pub(crate) is_ended: bool,
}

impl Model for Server {
    ghost use Rattle.dm_gdb.specs.Servers.{Served};

    ghost Value = { Served };

    ghost view = { λ s. record {
      history = s.history;
      points = s.points;
      shown = s.shown;
      base = s.base;
      ended = s.is_ended;
    } };
}

/// The reply to a request that asks for nothing of the machine, or for nothing that this server has: empty, but an
/// error for `vRun`, since GDB would send `R` after an empty reply, and expect no reply to that.
fn plain_reply(request: &Request) -> Reply
    ensures { result ≡ plain_reply request.now }
{
    match request {
        Request::Why => Reply::Signal(0x05),
        Request::Supported => Reply::Abilities,
        Request::Attached => Reply::Started,
        Request::CurrentThread => Reply::CurrentThread,
        Request::MoreThreads => Reply::NoMoreThreads,
        Request::ContinueKinds => Reply::ContinueKinds,
        Request::Symbols => Reply::Done,
        Request::StopAcknowledging => Reply::Done,
        Request::SetThread => Reply::Done,
        Request::IsAlive => Reply::Done,
        Request::Extended => Reply::Done,
        Request::Kill => Reply::Done,
        Request::Detach => Reply::Done,
        Request::Malformed => Reply::Refused(BAD),
        _ => Reply::Unknown,
    }
}

/// The reply where steps ended: at a breakpoint, behind a range, at a watchpoint, or for another reason.
fn arrival_reply(breaks: &[u32], pause: Pause, machine: &Machine) -> Reply
    ensures { result ≡ arrival_reply breaks.now pause machine.now }
{
    match pause {
        Pause::Stopped(stop) => stop_reply(stop),
        Pause::Hit(point) => Reply::Watch(point),
        Pause::Arrived => {
            if is_among(breaks, code_address(machine)) {
                Reply::Breakpoint
            } else {
                Reply::Signal(0x05)
            }
        }
    }
}

/// The reply where the steps of one step or of a range ended: no more steps are a step that was made.
fn step_reply(breaks: &[u32], pause: Pause, machine: &Machine) -> Reply
    ensures { result ≡ step_reply breaks.now pause machine.now }
{
    match pause {
        Pause::Stopped(Stop::Steps) => Reply::Signal(0x05),
        _ => arrival_reply(breaks, pause, machine),
    }
}

/// The threads: one, and none once the program has ended.
fn threads_reply(is_ended: bool) -> Reply
    ensures { result ≡ threads_reply is_ended }
{
    if is_ended {
        Reply::NoMoreThreads
    } else {
        Reply::Threads
    }
}

/// Whether the reply says that the program has ended.
fn is_exit(reply: &Reply) -> bool
    ensures { result ≡ is_exit reply.now }
{
    match reply {
        Reply::Exited(_) => true,
        _ => false,
    }
}

/// The linear address of a program's first segment, by the registers with which it starts.
fn base_of(cpu: &Cpu) -> u32
    ensures { result ≡ first_segment_address cpu.now }
{
    if cpu.cs == cpu.ds {
        cpu.ds as u32 * 16
    } else {
        (cpu.ds as u32 + 0x10) * 16
    }
}

impl Server {
    /// A session over a machine on which a program was loaded and has made no step, without breakpoints. At most
    /// `copies` copies of the machine are kept on its way, which make going back quick, besides one of its start.
    ///
    /// # Errors
    ///
    /// `AllocError` if there is no memory for that copy.
    pub fn new(alloc: Global, machine: Machine, copies: usize) -> Result<Server, AllocError>
        requires { HasProgram machine }
        ensures { IfOk result (λ server. server ≡ new_server machine) }
    {
        let base = base_of(&machine.cpu());
        Ok(Server {
            alloc,
            history: History::new(alloc, machine, copies)?,
            points: Points::new(alloc),
            shown: 0,
            base,
            is_ended: false,
        })
    }

    /// The machine.
    pub fn machine(&self) -> &Machine
        ensures { result.now ≡ self.now.history.machine }
    {
        self.history.machine()
    }

    /// Writes bytes from an address up, which end at FFFF:FFFF or before, and returns the reply. An `Err` is a failed
    /// allocation, and nothing has changed.
    fn write(&mut self, address: u32, bytes: &[u8]) -> Result<Reply, AllocError>
        requires there { address ≤ 0x10FFEF }
        requires ends { address + length bytes.now ≤ 0x10FFF0 }
        ensures after { OnOk result (self.new ≡ after_write self.old address bytes.now) }
        ensures reply { IfOk result (λ r. r ≡ written_reply (memory_written self.old.history.machine.memory address
            bytes.now) address bytes.now) }
        ensures err { OnErr result (self.new ≡ self.old) }
    {
        let segment = segment_below(address);
        self.history
            .write(segment, (address - segment as u32 * 16) as u16, bytes)?;
        if reads_as(self.history.machine().space(), address, bytes) {
            Ok(Reply::Done)
        } else {
            Ok(Reply::Refused(NO_MEMORY))
        }
    }

    /// Makes at most `most` steps, but none after one that led to a breakpoint or out of the range, or hit a
    /// watchpoint, and returns why the steps ended. Nothing but the machine changes.
    fn go(&mut self, most: u64, span: Option<StepRange>) -> Pause
        ensures goes { Continues self.old.points.breaks self.old.points.watches span self.old.history.machine most
            result self.new.history.machine }
        ensures same { self.new ≡ at_state self.old self.new.history.machine }
    {
        go_on(
            self.alloc,
            &mut self.history,
            most,
            span,
            self.points.breaks(),
            self.points.watches(),
        )
    }

    /// `Z`: sets a breakpoint or watchpoint. An `Err` is a failed allocation, and nothing has changed.
    fn insert(&mut self, point: Point) -> Result<Reply, AllocError>
        ensures ok { OnOk result (self.new ≡ with_inserted self.old point) }
        ensures reply { IfOk result (λ r. r ≡ reply.Done) }
        ensures err { OnErr result (self.new ≡ self.old) }
    {
        self.points.set(point)?;
        Ok(Reply::Done)
    }

    /// `z`: removes a breakpoint or watchpoint.
    fn remove(&mut self, point: Point) -> Reply
        ensures after { self.new ≡ with_removed self.old point }
        ensures reply { result ≡ reply.Done }
    {
        self.points.clear(point);
        Reply::Done
    }

    /// `M`: writes bytes, and returns the reply; nothing is written if they would end behind FFFF:FFFF. An `Err` is a
    /// failed allocation, and nothing has changed.
    fn set_memory(&mut self, address: u32, bytes: &[u8]) -> Result<Reply, AllocError>
        ensures ok { IfOk result (λ r. (most : ℕ) → Replies self.old most (Request.SetMemory address bytes.now) r
            self.new) }
        ensures err { OnErr result (self.new ≡ self.old) }
    {
        if LAST < address {
            return Ok(Reply::Refused(NO_MEMORY));
        }
        if (LAST + 1 - address) as usize >= bytes.len() {
            self.write(address, bytes)
        } else {
            Ok(Reply::Refused(NO_MEMORY))
        }
    }

    /// Sets the registers to these, and returns the reply; for None, an error. An `Err` is a failed allocation, and
    /// nothing has changed.
    fn set_cpu(&mut self, cpu: Option<Cpu>) -> Result<Reply, AllocError>
        ensures after { OnOk result (self.new ≡ with_registers self.old cpu) }
        ensures reply { IfOk result (λ r. r ≡ setting_reply cpu) }
        ensures err { OnErr result (self.new ≡ self.old) }
    {
        match cpu {
            None => Ok(Reply::Refused(BAD)),
            Some(cpu) => {
                self.history.set_registers(cpu)?;
                Ok(Reply::Done)
            }
        }
    }

    /// `P`: sets a register to bytes, and returns the reply. An `Err` is a failed allocation, and nothing has changed.
    fn set_register(&mut self, number: u32, bytes: &[u8]) -> Result<Reply, AllocError>
        ensures ok { IfOk result (λ r. (most : ℕ) → Replies self.old most (Request.SetRegister number bytes.now) r
            self.new) }
        ensures err { OnErr result (self.new ≡ self.old) }
    {
        let machine = self.history.machine();
        let cpu = registers_with(machine.space(), machine.cpu(), number, bytes);
        self.set_cpu(cpu)
    }

    /// Executes a request, and returns what is replied. A way to go on makes at most `most` steps. A breakpoint is at a
    /// linear address, whatever the segment; a step that leads to one is replied as a breakpoint, in `s` too, and one
    /// that hits a watchpoint as its hit. The bytes of `M` to ROM, or where there is no memory, are lost, and the
    /// others are written. Memory is read and written as a program would through the highest segment below the address.
    /// `k` has no reply in the protocol, though one is returned for it: the caller ends the conversation and sends
    /// nothing.
    ///
    /// # Errors
    ///
    /// `AllocError`, and nothing has changed.
    pub fn reply_to(&mut self, request: &Request, most: u64) -> Result<Reply, AllocError>
        ensures ok { IfOk result (λ r. Replies self.old most request.now r self.new) }
        ensures err { OnErr result (self.new ≡ self.old) }
    {
        match request {
            Request::Registers => {
                let bytes = all_registers(self.alloc, self.history.machine())?;
                Ok(Reply::Bytes(Payload::new(bytes)))
            }
            Request::Register(number) => {
                register_reply(self.alloc, self.history.machine(), *number)
            }
            Request::Memory(address, count) => {
                memory_reply(self.alloc, self.history.machine().space(), *address, *count)
            }
            Request::SetMemory(address, bytes) => self.set_memory(*address, bytes.as_slice()),
            Request::SetRegister(number, bytes) => self.set_register(*number, bytes.as_slice()),
            Request::Features(offset, count) => features_reply(self.alloc, *offset, *count),
            Request::Command(line) => self.monitor(line.as_slice()),
            Request::Offsets => Ok(Reply::Offsets(self.base)),
            Request::FirstThreads => Ok(threads_reply(self.is_ended)),
            Request::EndProgram => {
                self.is_ended = true;
                Ok(Reply::Done)
            }
            Request::Insert(point) => self.insert(*point),
            Request::Remove(point) => Ok(self.remove(*point)),
            Request::Step => Ok(self.step()),
            Request::Continue => Ok(self.continue_to(most)),
            Request::Range(start, end) => Ok(self.step_through(*start, *end, most)),
            Request::StepBack => self.step_back(),
            Request::ContinueBack => self.continue_back(),
            Request::Restart => self.restart(),
            _ => Ok(plain_reply(request)),
        }
    }

    /// Notes whether the program has ended with this reply, and returns the reply.
    fn noted(&mut self, reply: Reply) -> Reply
        ensures after { self.new ≡ record self.old { ended = is_exit reply } }
        ensures reply { result ≡ reply }
    {
        self.is_ended = is_exit(&reply);
        reply
    }

    /// `s`: one step, or why there was none.
    fn step(&mut self) -> Reply
        ensures { (most : ℕ) → Replies self.old most Request.Step result self.new }
    {
        let pause = self.go(1, None);
        let reply = step_reply(self.points.breaks(), pause, self.history.machine());
        self.noted(reply)
    }

    /// `c`: at most `most` steps, up to a breakpoint, a watchpoint or a stop.
    fn continue_to(&mut self, most: u64) -> Reply
        ensures { Replies self.old most Request.Continue result self.new }
    {
        let pause = self.go(most, None);
        let reply = arrival_reply(self.points.breaks(), pause, self.history.machine());
        self.noted(reply)
    }

    /// `vCont;r`: at most `most` steps, up to a breakpoint, a watchpoint, the end of the range or a stop.
    fn step_through(&mut self, start: u32, end: u32, most: u64) -> Reply
        ensures { Replies self.old most (Request.Range start end) result self.new }
    {
        let pause = self.go(most, Some(StepRange { start, end }));
        let reply = step_reply(self.points.breaks(), pause, self.history.machine());
        self.noted(reply)
    }

    /// Appends the packet of console output that the debugger was not sent yet, `O` and the bytes in two digits each,
    /// and counts it as sent; appends nothing if there is none. Returns whether there was some.
    ///
    /// # Errors
    ///
    /// `AllocError`, and nothing counts as sent; a first part of the text may have been appended.
    pub fn put_console(&mut self, out: &mut Vec<u8>) -> Result<bool, AllocError>
        ensures ok { IfOk result (λ some. PutsConsole self.old out.old.items some out.new.items self.new) }
        ensures err { OnErr result (self.new ≡ self.old) }
    {
        let output = self.history.machine().output();
        let count = output.len();
        if count <= self.shown {
            return Ok(false);
        }
        out.extend_from_slice(b"O")?;
        put_hex(self.alloc, out, &output[self.shown..])?;
        self.shown = count;
        Ok(true)
    }
}
