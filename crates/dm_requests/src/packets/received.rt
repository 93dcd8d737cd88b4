//! What a stream of bytes holds: packets, and the bytes between packets that mean something.

ghost use Rattle.std.specs.Prelude.{◌≡◌};

use std::marker::Model;

/// Bytes that a packet carries: all of them, or those that some part of them spells. Contracts see the list of bytes.
#[derive(Drop)]
pub struct Payload {
    bytes: Vec<u8>,
}

impl Model for Payload {
    ghost use Rattle.std.specs.Prelude.{ℕ, List};

    ghost Value = { List ℕ };

    ghost view = { λ p. p.bytes.items };
}

impl Payload {
    /// The payload of these bytes.
    pub fn new(bytes: Vec<u8>) -> Payload
        ensures { result ≡ bytes.items }
    {
        Payload { bytes }
    }

    /// The bytes.
    pub fn as_slice(&self) -> &[u8]
        ensures { result.now ≡ self.now }
    {
        self.bytes.as_slice()
    }
}

/// What is read from a stream: a whole packet, or a byte between packets that means something.
#[derive(Drop)]
pub enum Received {
    /// A packet whose check digits are right, of at most 4000h bytes between `$` and `#`.
    Packet(Payload),
    /// A packet of at most 4000h bytes whose check digits are wrong, or whose last byte is an escape. What it carries
    /// is lost.
    Damaged,
    /// A packet of more than 4000h bytes between `$` and `#`. What it carries is lost.
    TooLong,
    /// The byte 03h between packets: the debugger wants the program to stop.
    Interrupt,
    /// The byte `-` between packets: the debugger wants the last packet once more.
    Again,
}
