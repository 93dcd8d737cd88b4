//! The errors of the calls of INT 67h (LIM EMS 4.0, appendix A).

ghost use Rattle.std.specs.Prelude.{◌≡◌};
ghost use Rattle.dm_ems.specs.Status.{code_of};

/// Why a call of INT 67h failed.
#[derive(Clone, Copy, Debug, PartialEq, Eq)]
pub enum Status {
    /// The handle is not in use.
    UnknownHandle,
    /// All 64 handles are in use.
    NoHandleLeft,
    /// The handle has saved windows, so it cannot be freed.
    ContextSaved,
    /// The call asks for more pages than the machine has.
    OverTotal,
    /// The call asks for more new pages than can still be allocated.
    OverFree,
    /// The call asks for no page.
    NoPages,
    /// The handle has no such page.
    NoSuchPage,
    /// The frame has no such window.
    NoSuchWindow,
    /// The handle has saved windows already.
    SavedAlready,
    /// The handle has no saved windows.
    NoneSaved,
    /// The function has no such subfunction (AL).
    NoSubfunction,
    /// A region ends after the last page of its handle.
    PastPages,
    /// A region of conventional memory and one of pages overlap.
    KindsOverlap,
    /// The offset is not within a page.
    OffsetPastPage,
    /// More than 1 MiB is to be moved or exchanged.
    TooLong,
    /// The regions to be exchanged overlap.
    ExchangeOverlaps,
    /// There is no such type of memory.
    UnknownKind,
    /// No handle has the name.
    NameNotFound,
    /// Another handle has the name that is set (53h), or the one searched for (54h) is eight zeros, which are no name.
    NameTaken,
    /// A region of conventional memory ends after address FFFFFh.
    PastMemory,
    /// The map names a handle that is not in use, or a page that its handle does not have.
    BadMap,
}

impl Status {
    /// The status byte that the call returns in AH.
    #[tactic(auto, unfolding(crate::specs::Status::code_of))]
    pub fn code(self) -> u8
        ensures { result ≡ code_of self }
    {
        match self {
            Status::UnknownHandle => 0x83,
            Status::NoHandleLeft => 0x85,
            Status::ContextSaved => 0x86,
            Status::OverTotal => 0x87,
            Status::OverFree => 0x88,
            Status::NoPages => 0x89,
            Status::NoSuchPage => 0x8A,
            Status::NoSuchWindow => 0x8B,
            Status::SavedAlready => 0x8D,
            Status::NoneSaved => 0x8E,
            Status::NoSubfunction => 0x8F,
            Status::PastPages => 0x93,
            Status::KindsOverlap => 0x94,
            Status::OffsetPastPage => 0x95,
            Status::TooLong => 0x96,
            Status::ExchangeOverlaps => 0x97,
            Status::UnknownKind => 0x98,
            Status::NameNotFound => 0xA0,
            Status::NameTaken => 0xA1,
            Status::PastMemory => 0xA2,
            Status::BadMap => 0xA3,
        }
    }
}
