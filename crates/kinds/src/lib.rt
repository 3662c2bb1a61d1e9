// The three counters of the network, and why a call is refused. The counters are never added or compared but by a
// stated rule.
#![tactic(auto)]

ghost use Rattle.std.specs.Prelude.{◌≡◌};
ghost use Rattle.kinds.specs.Refusals.{refusal_number};

// Document 004's SLOT: a time slot, below the plan's slot count.
#[derive(Clone, Copy, PartialEq, Eq)]
pub struct Slot(pub u8);

// Document 004's HUB: a count of routers booked, or passed, on a walk.
#[derive(Clone, Copy, PartialEq, Eq)]
pub struct Hub(pub u8);

// Document 004's credit: how many packets a queue still takes; at the start its capacity.
#[derive(Clone, Copy, PartialEq, Eq)]
pub struct Credit(pub u8);

// Why a call is refused, in document 01's order; what document 02 adds stands behind.
#[derive(Clone, Copy, PartialEq, Eq)]
pub enum Refusal {
    TooShort,
    OutOfRange,
    WrongLength,
    BadField,
    BadJoint,
    HasRing,
    NotState,
    WrongPhase,
    BadNumber,
    NotServed,
    NoAllowance,
    QueueFull,
    QueueEmpty,
    FlagUp,
    Unmarked,
    NotAccepted,
}

// The number of a refusal, as document 01 counts them.
impl From<Refusal> for u8 {
    ghost from_gives = { λ w r. r ≡ refusal_number w };

    fn from(w: Refusal) -> u8 {
        match w {
            Refusal::TooShort => 1,
            Refusal::OutOfRange => 2,
            Refusal::WrongLength => 3,
            Refusal::BadField => 4,
            Refusal::BadJoint => 5,
            Refusal::HasRing => 6,
            Refusal::NotState => 7,
            Refusal::WrongPhase => 8,
            Refusal::BadNumber => 9,
            Refusal::NotServed => 10,
            Refusal::NoAllowance => 11,
            Refusal::QueueFull => 12,
            Refusal::QueueEmpty => 13,
            Refusal::FlagUp => 14,
            Refusal::Unmarked => 15,
            Refusal::NotAccepted => 16,
        }
    }
}
