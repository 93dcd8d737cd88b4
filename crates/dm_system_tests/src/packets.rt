//! Streams and the packets that are read from them, and packets that are sent: checksums added up by hand (GDB manual,
//! "GDB Remote Serial Protocol", "Overview").

use crate::checks::same;
use dm_requests::packets::{Received, Receiver, SendingSide};
use std::alloc::Global;
use std::process::Abort;
use std::test::Fail;

/// Streams, with what is read from each: `[..]` is a packet, `damaged` and `long` are packets that are refused, `stop`
/// is 03h, `again` a `-`.
const STREAMS: [(&[u8], &str); 26] = [
    (b"", ""),
    (b"$#00", "[]"),
    (b"$g#67", "[g]"),
    (b"$OK#9a", "[OK]"),
    (b"$OK#9A", "[OK]"),
    (b"$qSupported#37", "[qSupported]"),
    (b"+$g#67+$OK#9a", "[g][OK]"),
    (b"$g#67$OK#9a", "[g][OK]"),
    (b"$g#68", "damaged"),
    (b"$g#6g", "damaged"),
    (b"$g##7", "damaged"),
    (b"$g#68$g#67", "damaged[g]"),
    (b"$g", ""),
    (b"$g#", ""),
    (b"$g#6", ""),
    (b"$g$OK#9a", "[OK]"),
    (b"$g#$OK#9a", "[OK]"),
    (b"$g#6$OK#9a", "[OK]"),
    (b"$$$OK#9a", "[OK]"),
    (b"+++-\x03", "againstop"),
    (b"no packet #67\x00\xFF$g#67}", "[g]"),
    (b"$\x03-#30", "[\x03-]"),
    (b"$}]#da", "[}]"),
    (b"$}\x03}\x04}\x0a#88", "[#$*]"),
    (b"$}#7d", "damaged"),
    (b"$a:b;c,d*#55", "[a:b;c,d*]"),
];

/// What packets carry, and their bytes.
const FRAMES: [(&[u8], &[u8]); 6] = [
    (b"", b"$#00"),
    (b"OK", b"$OK#9a"),
    (b"T05", b"$T05#b9"),
    (b"}", b"$}]#da"),
    (b"#$*", b"$}\x03}\x04}\x0a#88"),
    (b"\x00\xFF", b"$\x00\xFF#ff"),
];

/// Appends what was received to a text, as the rows have it.
fn put(text: &mut Vec<u8>, received: &Received) -> Result<(), Fail> {
    match received {
        Received::Packet(payload) => {
            text.push(b'[')?;
            text.extend_from_slice(payload.as_slice())?;
            text.push(b']')?;
        }
        Received::Damaged => text.extend_from_slice(b"damaged")?,
        Received::TooLong => text.extend_from_slice(b"long")?,
        Received::Interrupt => text.extend_from_slice(b"stop")?,
        Received::Again => text.extend_from_slice(b"again")?,
    }
    Ok(())
}

/// Gives a receiver the bytes one by one, and appends what is read to a text.
fn read(receiver: &mut Receiver, bytes: &[u8], text: &mut Vec<u8>) -> Result<(), Fail> {
    for byte in bytes {
        if let Some(received) = receiver.receive(*byte)? {
            put(text, &received)?;
        }
    }
    Ok(())
}

/// Tests a stream.
fn check_stream(rt: &impl Abort, alloc: Global, stream: &[u8], wanted: &str) -> Result<(), Fail> {
    let mut text = Vec::new(alloc);
    read(&mut Receiver::new(alloc), stream, &mut text)?;
    same(rt, wanted, text.as_slice(), wanted.as_bytes());
    Ok(())
}

/// Definitions: dm_requests packets.Streams Holds read_from
/// Definitions: dm_requests packets.Reading after_byte received lone_byte whole_packet
/// Definitions: dm_requests packets.Checks checksum_of is_checked
/// Definitions: dm_requests packets.Escapes unescaped
#[test]
fn streams_hold_packets(rt: HostRuntime) -> Result<(), Fail> {
    for (stream, wanted) in STREAMS {
        check_stream(&rt, rt.alloc(), stream, wanted)?;
    }
    Ok(())
}

/// A packet of 4000h bytes is read, one of 4001h is too long, and the next one is read again. (The sum of 4000h times
/// 61h is a multiple of 256.)
///
/// Definitions: dm_requests packets.Reading one_more packet_of
#[test]
fn long_packets_are_refused(rt: HostRuntime) -> Result<(), Fail> {
    for (count, digits, wanted) in [
        (0x4000usize, b"#00", 0x4002usize),
        (0x4001, b"#61", 4),
        (0x1_0000, b"#00", 4),
    ] {
        let mut receiver = Receiver::new(rt.alloc());
        let mut text = Vec::new(rt.alloc());
        read(&mut receiver, b"$", &mut text)?;
        for _ in 0..count {
            read(&mut receiver, b"a", &mut text)?;
        }
        read(&mut receiver, digits, &mut text)?;
        same(&rt, "length", text.len(), wanted);
        text.clear();
        read(&mut receiver, b"$g#67", &mut text)?;
        same(&rt, "the next", text.as_slice(), b"[g]".as_slice());
    }
    Ok(())
}

/// Definitions: dm_requests packets.Frames frame_of
/// Definitions: dm_requests packets.Escapes escaped is_special
#[test]
fn packets_are_sent(rt: HostRuntime) -> Result<(), Fail> {
    let mut sending = SendingSide::new(rt.alloc());
    same(&rt, "none yet", sending.last(), b"".as_slice());
    for (payload, bytes) in FRAMES {
        sending.pack(payload)?;
        same(&rt, "packet", sending.last(), bytes);
    }
    Ok(())
}

/// Definitions: dm_requests packets.Sending acknowledgement receipt
#[test]
fn packets_are_acknowledged(rt: HostRuntime) -> Result<(), Fail> {
    let mut sending = SendingSide::new(rt.alloc());
    for (received, wanted) in [
        (Received::TooLong, b"+".as_slice()),
        (Received::Damaged, b"-".as_slice()),
        (Received::Interrupt, b"".as_slice()),
        (Received::Again, b"".as_slice()),
    ] {
        same(&rt, "at first", sending.acknowledgement(&received), wanted);
    }
    sending.stop_acknowledging();
    same(
        &rt,
        "later",
        sending.acknowledgement(&Received::Damaged),
        b"".as_slice(),
    );
    Ok(())
}
