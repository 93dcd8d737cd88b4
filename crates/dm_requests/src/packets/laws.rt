//! Laws of streams and packets, as the contract of a function that does nothing.

ghost use Rattle.dm_requests.specs.packets.Laws.{StreamsAreRead, FramesAreRead};

/// The law that what is read byte by byte from any stream is what its text holds; and that whatever came before, a
/// whole packet is read, and carries what was sent. Does nothing when called.
pub fn streams_are_read()
    ensures streams { StreamsAreRead }
    ensures frames { FramesAreRead }
{}
