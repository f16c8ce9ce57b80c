// Why a call is turned down.
ghost use Rattle.std.specs.Prelude.{◌≡◌};
ghost use Rattle.capabilities.specs.Refusals.{number_of};

// Document 01, "Why a call is turned down", and the errors of document 02: the number of each there is its own.
#[derive(Clone, Copy, PartialEq, Eq, PartialOrd, Ord, Debug)]
pub enum Refusal {
    // The state is not well formed, or a start names V or F out of range.
    State = 1,
    // The lent cells or tags are not 16 F in number.
    Memory = 2,
    // The bytes are no command.
    Command = 3,
    // A party, a `to` or a register is above 7.
    Unnamed = 4,
    // A manager's command comes from another party than 0.
    Manager = 5,
    // No reservation that the caller holds begins there.
    NoReservation = 6,
    // The reservation, or the one above it, is in another state than the call needs.
    ReservationState = 7,
    SplitLength = 8,
    TableFull = 9,
    // The range to revoke is not made of whole pages.
    PartPage = 10,
    // A revocation runs, or none does, or cells are left to sweep.
    Revocation = 11,
    // A page is V or more, or a frame F or more.
    OutOfRange = 12,
    PageState = 13,
    FrameState = 14,
    // The register that must hold a capability is untagged.
    Untagged = 15,
    Permission = 16,
    Bounds = 17,
    NotMapped = 18,
    // The mailbox to grant to is full, or the one to receive from is empty.
    Mailbox = 19,
    // The principal is not in being or not held so, or the child's number will not do.
    Principal = 20,
    Limit = 21,
    // The page to unmap has a claim.
    Claimed = 22,
    // Records or a question that no map answers.
    Question = 25,
}

impl Refusal {
    pub fn number(self) -> u8
        ensures { result ≡ number_of self }
    {
        self as u8
    }
}
