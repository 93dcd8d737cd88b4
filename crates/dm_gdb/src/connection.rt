//! A conversation with the debugger: what each byte of the stream leads to, and which bytes are sent for it.

ghost use Rattle.std.specs.Prelude.{◌≡◌, ◌&&◌, ◌++◌, ℕ, List, IfOk, OnOk};
ghost use Rattle.dm_services.specs.state.State.{HasProgram};
ghost use Rattle.dm_gdb.specs.Connections.{Hears, Obeys, Takes, all_shown, console_packet, is_detach, is_kill, is_quiet, makes_steps, new_connection, packet_of, receipt, replied, with_last};

use crate::replies::{BAD, Reply, put_reply};
use crate::server::Server;
use dm_machine::Machine;
use dm_requests::packets::{Received, Receiver, SendingSide};
use dm_requests::{Request, read_request};
use std::alloc::{AllocError, Global};
use std::marker::Model;

/// The signal of a stop that the debugger wanted: SIGINT.
const INTERRUPTED: u8 = 0x02;

/// A conversation with the debugger over a stream of bytes.
///
/// Contracts see where the stream stands, the sending side, the session, whether the debugger wants the program to stop
/// before its next step, and whether the conversation is over.
#[derive(Drop)]
pub struct Connection {
    alloc: Global,
    receiver: Receiver,
    sending: SendingSide,
    server: Server,
    is_stopping: bool,
    is_over: bool,
}

impl Model for Connection {
    ghost use Rattle.dm_gdb.specs.Connections.{Connected};

    ghost Value = { Connected };

    ghost view = { λ c. record {
      reading = c.receiver;
      sending = c.sending;
      server = c.server;
      stopping = c.is_stopping;
      over = c.is_over;
    } };
}

/// Whether the request ends the conversation without a word.
fn is_kill(request: &Request) -> bool
    ensures { result ≡ is_kill request.now }
{
    match request {
        Request::Kill => true,
        _ => false,
    }
}

/// Whether the request ends the conversation after its reply.
fn is_detach(request: &Request) -> bool
    ensures { result ≡ is_detach request.now }
{
    match request {
        Request::Detach => true,
        _ => false,
    }
}

/// Whether nothing is acknowledged after the request.
fn is_quiet(request: &Request) -> bool
    ensures { result ≡ is_quiet request.now }
{
    match request {
        Request::StopAcknowledging => true,
        _ => false,
    }
}

/// Whether the request is a way to go on.
fn makes_steps(request: &Request) -> bool
    ensures { result ≡ makes_steps request.now }
{
    match request {
        Request::Step => true,
        Request::Continue => true,
        Request::Range(_, _) => true,
        Request::StepBack => true,
        Request::ContinueBack => true,
        _ => false,
    }
}

impl Connection {
    /// The start of a conversation over a machine on which a program was loaded and has made no step. At most `copies`
    /// copies of the machine are kept on its way, which make going back quick, besides one of its start.
    ///
    /// # Errors
    ///
    /// `AllocError` if there is no memory for that copy.
    pub fn new(alloc: Global, machine: Machine, copies: usize) -> Result<Connection, AllocError>
        requires { HasProgram machine }
        ensures { IfOk result (λ connection. connection ≡ new_connection machine) }
    {
        Ok(Connection {
            alloc,
            receiver: Receiver::new(alloc),
            sending: SendingSide::new(alloc),
            server: Server::new(alloc, machine, copies)?,
            is_stopping: false,
            is_over: false,
        })
    }

    /// Whether the debugger has ended the conversation: nothing more is to be read.
    pub fn is_over(&self) -> bool
        ensures { result ≡ self.now.over }
    {
        self.is_over
    }

    /// Appends the packet of a reply to `out`, and keeps it as the last one. An `Err` is a failed allocation.
    fn send(&mut self, reply: &Reply, out: &mut Vec<u8>) -> Result<(), AllocError>
        ensures sent { OnOk result (out.new.items ≡ out.old.items ++ packet_of reply.now) }
        ensures last { OnOk result (self.new ≡ with_last self.old (packet_of reply.now)) }
    {
        let mut text = Vec::new(self.alloc);
        put_reply(self.alloc, &mut text, reply)?;
        self.sending.pack(text.as_slice())?;
        out.extend_from_slice(self.sending.last())
    }

    /// Appends the last packet to `out` once more. An `Err` is a failed allocation.
    fn send_again(&self, out: &mut Vec<u8>) -> Result<(), AllocError>
        ensures { OnOk result (out.new.items ≡ out.old.items ++ self.now.sending.last) }
    {
        out.extend_from_slice(self.sending.last())
    }

    /// Appends the acknowledgement of what was received to `out`. An `Err` is a failed allocation.
    fn acknowledge(&self, received: &Received, out: &mut Vec<u8>) -> Result<(), AllocError>
        ensures { OnOk result (out.new.items ≡ out.old.items ++ receipt self.now received.now) }
    {
        out.extend_from_slice(self.sending.acknowledgement(received))
    }

    /// Appends the packet of the console output that was not sent yet to `out`, if there is some. An `Err` is a failed
    /// allocation.
    fn send_console(&mut self, out: &mut Vec<u8>) -> Result<(), AllocError>
        ensures sent { OnOk result (out.new.items ≡ out.old.items ++ console_packet self.old.server) }
        ensures shown { OnOk result (self.new.server ≡ all_shown self.old.server) }
        ensures kept { OnOk result ((self.new.reading ≡ self.old.reading) ×
            (self.new.sending.acknowledges ≡ self.old.sending.acknowledges)
            × (self.new.stopping ≡ self.old.stopping) × (self.new.over ≡ self.old.over)) }
    {
        let mut text = Vec::new(self.alloc);
        if self.server.put_console(&mut text)? {
            self.sending.pack(text.as_slice())?;
            out.extend_from_slice(self.sending.last())?;
        }
        Ok(())
    }

    /// Appends the console output and the reply to a request to `out`, and does what the conversation is asked for. An
    /// `Err` is a failed allocation.
    fn tell(
        &mut self,
        request: &Request,
        reply: &Reply,
        out: &mut Vec<u8>,
    ) -> Result<(), AllocError>
        ensures sent { OnOk result (out.new.items ≡ out.old.items ++ (console_packet self.old.server
            ++ packet_of reply.now)) }
        ensures after { OnOk result (self.new ≡ replied self.old request.now reply.now self.old.server) }
    {
        self.send_console(out)?;
        self.send(reply, out)?;
        if is_quiet(request) {
            self.sending.stop_acknowledging();
        }
        if is_detach(request) {
            self.is_over = true;
        }
        Ok(())
    }

    /// Whether the request is a way to go on, and the debugger wanted a stop before.
    fn stops(&self, request: &Request) -> bool
        ensures { result ≡ (self.now.stopping && makes_steps request.now) }
    {
        if self.is_stopping {
            makes_steps(request)
        } else {
            false
        }
    }

    /// Executes a request, and appends what is sent for it to `out`. An `Err` is a failed allocation.
    fn obey(&mut self, request: &Request, most: u64, out: &mut Vec<u8>) -> Result<(), AllocError>
        ensures { OnOk result ((sent : List ℕ) × (out.new.items ≡ out.old.items ++ sent) ×
            Obeys most self.old request.now sent self.new) }
    {
        if is_kill(request) {
            self.is_over = true;
            return Ok(());
        }
        if self.stops(request) {
            self.is_stopping = false;
            return self.send(&Reply::Signal(INTERRUPTED), out);
        }
        let reply = self.server.reply_to(request, most)?;
        self.tell(request, &reply, out)
    }

    /// Does what was received, and appends what is sent for it after its acknowledgement to `out`. An `Err` is a failed
    /// allocation.
    fn hear(&mut self, received: &Received, most: u64, out: &mut Vec<u8>) -> Result<(), AllocError>
        ensures { OnOk result ((sent : List ℕ) × (out.new.items ≡ out.old.items ++ sent) ×
            Hears most self.old received.now sent self.new) }
    {
        match received {
            Received::Packet(payload) => {
                let request = read_request(self.alloc, payload.as_slice())?;
                self.obey(&request, most, out)
            }
            Received::TooLong => self.send(&Reply::Refused(BAD), out),
            Received::Damaged => Ok(()),
            Received::Interrupt => {
                self.is_stopping = true;
                Ok(())
            }
            Received::Again => self.send_again(out),
        }
    }

    /// Acknowledges what was received, does it, and appends what is sent for it to `out`. An `Err` is a failed
    /// allocation.
    fn react(&mut self, received: &Received, most: u64, out: &mut Vec<u8>) -> Result<(), AllocError>
        ensures { OnOk result ((sent : List ℕ) × (out.new.items ≡ out.old.items ++ (receipt self.old received.now
            ++ sent)) × Hears most self.old received.now sent self.new) }
    {
        self.acknowledge(received, out)?;
        self.hear(received, most, out)
    }

    /// Takes the next byte of the stream, and appends the bytes that are sent for it to `out`: nothing, unless the byte
    /// completes a packet or means something between packets. A request that goes on makes at most `most` steps.
    ///
    /// # Errors
    ///
    /// `AllocError`. The conversation cannot go on then: the request may have been executed, and a first part of what
    /// is sent for it may have been appended.
    pub fn receive(&mut self, byte: u8, most: u64, out: &mut Vec<u8>) -> Result<(), AllocError>
        ensures { OnOk result ((sent : List ℕ) × (out.new.items ≡ out.old.items ++ sent) ×
            Takes most self.old byte sent self.new) }
    {
        match self.receiver.receive(byte)? {
            Some(received) => self.react(&received, most, out),
            None => Ok(()),
        }
    }
}
