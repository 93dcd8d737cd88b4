//! The law of listings, as the contract of a function that does nothing.

ghost use Rattle.dm_decode.specs.disassembly.Laws.{BytesHaveOneListing};

/// The law that the bytes of a program have one listing, so that `disassemble` makes the only one. It does nothing
/// when called.
#[tactic(auto, using(crate::proofs::disassembly::Once::listing_once))]
pub fn bytes_have_one_listing()
    ensures { BytesHaveOneListing }
{}
