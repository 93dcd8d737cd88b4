//! Reads a stream byte by byte.

ghost use Rattle.std.specs.Prelude.{◌≡◌, IfOk, OnOk, OnErr};
ghost use Rattle.dm_requests.specs.packets.Reading.{between, after_byte, received, lone_byte};

use crate::packets::content::Content;
use crate::packets::received::Received;
use std::alloc::{AllocError, Global};
use std::marker::Model;

/// Which byte of a packet is next, if any.
#[derive(Clone, Copy, Debug, PartialEq, Eq)]
pub(crate) enum Stage {
    /// The stream is between packets.
    Between,
    /// A byte of the packet's content, or the `#` after it.
    Content,
    /// The first check digit.
    High,
    /// The second check digit; the first is known.
    Low(u8),
}

/// A reader of packets, to which the bytes of a stream are given one by one. It keeps at most the 4000h bytes of one
/// packet, whatever the stream holds.
///
/// Contracts see where the stream stands: between packets, or after which bytes of a packet.
#[derive(Drop)]
pub struct Receiver {
    alloc: Global,
    stage: Stage,
    content: Content,
}

impl Model for Receiver {
    ghost use Rattle.dm_requests.specs.packets.Reading.{Reading};
    ghost use Rattle.dm_requests.specs.packets.inner.Stages.{reading_at};

    ghost Value = { Reading };

    ghost view = { λ r. reading_at r.stage r.content };
}

/// What a byte between packets means, other than `$`; None if it means nothing.
fn lone_byte(byte: u8) -> Option<Received>
    ensures { result ≡ lone_byte byte }
{
    match byte {
        0x03 => Some(Received::Interrupt),
        b'-' => Some(Received::Again),
        _ => None,
    }
}

impl Receiver {
    /// A reader at the start of a stream, between packets. It allocates nothing.
    pub fn new(alloc: Global) -> Receiver
        ensures { result ≡ between }
    {
        Receiver {
            alloc,
            stage: Stage::Between,
            content: Content::new(alloc),
        }
    }

    /// Takes the next byte of the stream, and returns what is complete with it: a packet at its second check digit, or
    /// what a byte between packets means. None if nothing is. A `$` begins a packet wherever it stands; a packet that
    /// it cuts off is dropped without a word.
    ///
    /// # Errors
    ///
    /// `AllocError` if there is no memory for the byte or for what the packet carries. Then the byte was not taken.
    pub fn receive(&mut self, byte: u8) -> Result<Option<Received>, AllocError>
        ensures received { IfOk result (λ r. r ≡ received self.old byte) }
        ensures after { OnOk result (self.new ≡ after_byte self.old byte) }
        ensures err { OnErr result (self.new ≡ self.old) }
    {
        if byte == b'$' {
            self.content.clear();
            self.stage = Stage::Content;
            return Ok(None);
        }
        match self.stage {
            Stage::Between => Ok(lone_byte(byte)),
            Stage::Content if byte == b'#' => {
                self.stage = Stage::High;
                Ok(None)
            }
            Stage::Content => {
                self.content.add(byte)?;
                Ok(None)
            }
            Stage::High => {
                self.stage = Stage::Low(byte);
                Ok(None)
            }
            Stage::Low(high) => {
                let packet = self.content.packet(self.alloc, high, byte)?;
                self.stage = Stage::Between;
                Ok(Some(packet))
            }
        }
    }
}
