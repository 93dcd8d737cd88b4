//! The errors of the calls of the extended memory driver (XMS 3.0, error code index).

ghost use Rattle.std.specs.Prelude.{◌≡◌};
ghost use Rattle.dm_xms.specs.Status.{code_of};

/// Why a call of the extended memory driver failed.
#[derive(Clone, Copy, Debug, PartialEq, Eq)]
pub enum Status {
    /// The local count of A20 cannot go up from FFFFh, or down from 0.
    LineError,
    /// The high memory area is taken.
    AreaTaken,
    /// The high memory area is not taken.
    AreaNotTaken,
    /// A20 is still on, by the local count or the global switch.
    LineStillOn,
    /// No gap of the pool holds the block, or the pool has no number left; for function 08h, there is no gap.
    NoMemory,
    /// All 64 handles are in use.
    NoHandleLeft,
    /// The handle is not in use.
    UnknownHandle,
    /// The handle of the source is not in use.
    UnknownSource,
    /// The offset of the source is after the end of its block.
    PastSource,
    /// The handle of the destination is not in use.
    UnknownDestination,
    /// The offset of the destination is after the end of its block.
    PastDestination,
    /// The length is odd, or the source or the destination does not have so many bytes.
    BadLength,
    /// The block has no lock.
    NotLocked,
    /// The block is locked, so it can be neither freed nor resized.
    Locked,
    /// The block has 255 locks already.
    TooManyLocks,
}

impl Status {
    /// The error code that the call returns in BL.
    #[tactic(auto, unfolding(crate::specs::Status::code_of))]
    pub fn code(self) -> u8
        ensures { result ≡ code_of self }
    {
        match self {
            Status::LineError => 0x82,
            Status::AreaTaken => 0x91,
            Status::AreaNotTaken => 0x93,
            Status::LineStillOn => 0x94,
            Status::NoMemory => 0xA0,
            Status::NoHandleLeft => 0xA1,
            Status::UnknownHandle => 0xA2,
            Status::UnknownSource => 0xA3,
            Status::PastSource => 0xA4,
            Status::UnknownDestination => 0xA5,
            Status::PastDestination => 0xA6,
            Status::BadLength => 0xA7,
            Status::NotLocked => 0xAA,
            Status::Locked => 0xAB,
            Status::TooManyLocks => 0xAC,
        }
    }
}
