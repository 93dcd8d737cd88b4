//! The bytes of a packet between `$` and `#`, while they are received.

ghost use Rattle.std.specs.Prelude.{◌≡◌, [], Some, IfOk, OnOk, OnErr};
ghost use Rattle.dm_requests.specs.packets.Reading.{one_more, packet_of, whole_packet};

use crate::packets::checks::{checksum, is_checked};
use crate::packets::escapes::unescape;
use crate::packets::received::Received;
use std::alloc::{AllocError, Global};
use std::marker::Model;

/// The largest number of bytes between `$` and `#` of a packet that is not too long.
const MOST: usize = 0x4000;

/// The bytes of a packet since its `$`: at most 4000h, and of more none. Contracts see the list of them; None if they
/// are more.
#[derive(Drop)]
pub(crate) struct Content {
    bytes: Vec<u8>,
    is_long: bool,
}

impl Model for Content {
    ghost use Rattle.std.specs.Prelude.{ℕ, ◌≤◌, Bool, false, List, Option, length};
    ghost use Rattle.dm_requests.specs.packets.inner.Stages.{if_kept};

    ghost Value = { Option (List ℕ) };

    ghost view = { λ c. if_kept c.is_long c.bytes.items };

    ghost invariant = { λ c. length c.bytes.items ≤ 0x4000 };
}

/// The packet with this content and these two check digits. An `Err` is a failed allocation.
fn whole_packet(alloc: Global, content: &[u8], high: u8, low: u8) -> Result<Received, AllocError>
    ensures { IfOk result (λ packet. packet ≡ whole_packet content.now high low) }
{
    if !is_checked(checksum(content), high, low) {
        return Ok(Received::Damaged);
    }
    match unescape(alloc, content)? {
        Some(payload) => Ok(Received::Packet(payload)),
        None => Ok(Received::Damaged),
    }
}

impl Content {
    /// No bytes.
    pub(crate) fn new(alloc: Global) -> Content
        ensures { result ≡ Some [] }
    {
        Content {
            bytes: Vec::new(alloc),
            is_long: false,
        }
    }

    /// Drops all bytes.
    pub(crate) fn clear(&mut self)
        ensures { self.new ≡ Some [] }
    {
        self.bytes.clear();
        self.is_long = false;
    }

    /// Adds a byte at the end. If there are 4000h already, or more, nothing is kept from then on.
    ///
    /// # Errors
    ///
    /// `AllocError`, and the byte was not added.
    pub(crate) fn add(&mut self, byte: u8) -> Result<(), AllocError>
        ensures ok { OnOk result (self.new ≡ one_more self.old byte) }
        ensures err { OnErr result (self.new ≡ self.old) }
    {
        if self.is_long {
            return Ok(());
        }
        if self.bytes.len() == MOST {
            self.is_long = true;
            return Ok(());
        }
        self.bytes.push(byte)?;
        Ok(())
    }

    /// The packet of these bytes with two check digits. An `Err` is a failed allocation.
    pub(crate) fn packet(&self, alloc: Global, high: u8, low: u8) -> Result<Received, AllocError>
        ensures { IfOk result (λ packet. packet ≡ packet_of self.now high low) }
    {
        if self.is_long {
            return Ok(Received::TooLong);
        }
        whole_packet(alloc, self.bytes.as_slice(), high, low)
    }
}
