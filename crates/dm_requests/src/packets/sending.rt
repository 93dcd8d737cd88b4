//! The sending side: acknowledgements, and the last packet, which may be asked for again.

ghost use Rattle.std.specs.Prelude.{◌≡◌, ◌++◌, [], true, false, IfOk, OnOk, OnErr};
ghost use Rattle.dm_requests.specs.packets.Frames.{frame_of};
ghost use Rattle.dm_requests.specs.packets.Sending.{SendingState, acknowledgement};

use crate::packets::checks::checksum;
use crate::packets::escapes::put_escaped;
use crate::packets::received::Received;
use std::alloc::{AllocError, Global};
use std::marker::Model;

/// The sending side of a conversation: whether packets are acknowledged, and the bytes of the last packet.
///
/// Contracts see both.
#[derive(Drop)]
pub struct SendingSide {
    acknowledges: bool,
    alloc: Global,
    last: Vec<u8>,
}

impl Model for SendingSide {
    ghost use Rattle.dm_requests.specs.packets.Sending.{SendingState};

    ghost Value = { SendingState };

    ghost view = { λ l. record { acknowledges = l.acknowledges; last = l.last.items } };
}

/// The bytes of the packet that carries `payload`: `$`, the payload with `#`, `$`, `*` and `}` escaped, `#`, and two
/// check digits in lower case.
///
/// # Errors
///
/// `AllocError`.
fn frame(alloc: Global, payload: &[u8]) -> Result<Vec<u8>, AllocError>
    ensures { IfOk result (λ bytes. bytes.items ≡ frame_of payload.now) }
{
    let mut content = Vec::new(alloc);
    put_escaped(&mut content, payload)?;
    let mut digits = [0; 2];
    // The digits of one byte are two.
    let _ = hex::encode_to_slice(&[checksum(content.as_slice())], &mut digits);
    let mut bytes = Vec::new(alloc);
    bytes.push(b'$')?;
    bytes.extend_from_slice(content.as_slice())?;
    bytes.push(b'#')?;
    bytes.extend_from_slice(&digits)?;
    Ok(bytes)
}

impl SendingSide {
    /// The start of a conversation: packets are acknowledged, and none was sent. It allocates nothing.
    pub fn new(alloc: Global) -> SendingSide
        ensures { result ≡ record { acknowledges = true; last = [] } }
    {
        SendingSide {
            acknowledges: true,
            alloc,
            last: Vec::new(alloc),
        }
    }

    /// From now on nothing is acknowledged: the debugger has asked for that (`QStartNoAckMode`).
    pub fn stop_acknowledging(&mut self)
        ensures { self.new ≡ record self.old { acknowledges = false } }
    {
        self.acknowledges = false;
    }

    /// What is sent at once for what was received, before any reply: `+` for a packet, also for one that is too long,
    /// `-` for a damaged one, and nothing otherwise. Nothing at all once acknowledgements have stopped.
    pub fn acknowledgement(&self, received: &Received) -> &'static [u8]
        ensures { result.now ≡ acknowledgement self.now.acknowledges received.now }
    {
        if !self.acknowledges {
            return b"";
        }
        match received {
            Received::Packet(_) => b"+",
            Received::TooLong => b"+",
            Received::Damaged => b"-",
            Received::Interrupt => b"",
            Received::Again => b"",
        }
    }

    /// Makes the packet that carries `payload` the last one.
    ///
    /// # Errors
    ///
    /// `AllocError`, and the last packet stays as it was.
    pub fn pack(&mut self, payload: &[u8]) -> Result<(), AllocError>
        ensures ok { OnOk result (self.new ≡ record self.old { last = frame_of payload.now }) }
        ensures err { OnErr result (self.new ≡ self.old) }
    {
        self.last = frame(self.alloc, payload)?;
        Ok(())
    }

    /// The bytes of the last packet, to be sent, or sent again; none if there was no packet yet.
    pub fn last(&self) -> &[u8]
        ensures { result.now ≡ self.now.last }
    {
        self.last.as_slice()
    }
}
