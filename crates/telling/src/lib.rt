// What a program tells of the calls: answers, packets and entries in document 01's words; and a printer that goes on
// past a write that fails.
#![tactic(auto)]

use kinds::Refusal;
use packets::{Answer, Entry, Kind, Packet, Remaining};
use std::fmt;

pub mod steady;

// A value that is told in document 01's words.
#[derive(Clone, Copy)]
pub struct Words<T>(pub T);

impl fmt::Display for Words<Kind> {
    // A packet's kind.
    fn fmt<W: fmt::Write>(&self, f: &mut fmt::Formatter<W>) -> fmt::Result {
        match self.0 {
            Kind::Setup => write!(f, "SETUP"),
            Kind::Tdown => write!(f, "TDOWN"),
            Kind::Ack => write!(f, "ACK"),
            Kind::Nack => write!(f, "NACK"),
        }
    }
}

impl fmt::Display for Words<Packet> {
    // A packet: its kind and its fields.
    fn fmt<W: fmt::Write>(&self, f: &mut fmt::Formatter<W>) -> fmt::Result {
        let x = self.0;
        let kind = Words(x.kind);
        write!(
            f,
            "{kind}, active {}, passive {}, slot {}, hub {}",
            x.active, x.passive, x.slot.0, x.hub.0
        )
    }
}

impl fmt::Display for Words<Entry> {
    // An entry of the slot table.
    fn fmt<W: fmt::Write>(&self, f: &mut fmt::Formatter<W>) -> fmt::Result {
        match self.0 {
            Entry::Free => write!(f, "free"),
            Entry::Booked(side) => write!(f, "booked, came in by side {side}"),
        }
    }
}

// What a refusal is for.
fn reason(w: Refusal) -> &'static str {
    match w {
        Refusal::TooShort => "fewer than six bytes",
        Refusal::OutOfRange => "R, A, P, S or a capacity outside its range",
        Refusal::WrongLength => "wrong length or a fill bit set",
        Refusal::BadField => "a later field outside its range",
        Refusal::BadJoint => {
            "a joint not named back, to the same router, or not the only one of an interface"
        }
        Refusal::HasRing => "a ring",
        Refusal::NotState => "not a state",
        Refusal::WrongPhase => "another phase",
        Refusal::BadNumber => "a number out of range",
        Refusal::NotServed => "pair not served",
        Refusal::NoAllowance => "allowance 0",
        Refusal::QueueFull => "out-queue full",
        Refusal::QueueEmpty => "in-queue empty",
        Refusal::FlagUp => "in-queue flag up",
        Refusal::Unmarked => "head is an unmarked NACK",
        Refusal::NotAccepted => "connection not accepted",
    }
}

impl fmt::Display for Words<Refusal> {
    // A refusal: its number, and what it is for.
    fn fmt<W: fmt::Write>(&self, f: &mut fmt::Formatter<W>) -> fmt::Result {
        let w = self.0;
        write!(f, "refused: {}, {}", u8::from(w), reason(w))
    }
}

impl fmt::Display for Words<Remaining> {
    // What is left.
    fn fmt<W: fmt::Write>(&self, f: &mut fmt::Formatter<W>) -> fmt::Result {
        let x = self.0;
        write!(f, "packets {}, rounds {}", x.packets, x.rounds)
    }
}

impl fmt::Display for Words<Answer> {
    // What a call answers.
    fn fmt<W: fmt::Write>(&self, f: &mut fmt::Formatter<W>) -> fmt::Result {
        match self.0 {
            Answer::Done => write!(f, "done"),
            Answer::Refused(w) => Words(w).fmt(f),
            Answer::Shows(x) => write!(f, "gives {}", Words(x)),
            Answer::Holds(e) => Words(e).fmt(f),
            Answer::Remains(n) => Words(n).fmt(f),
        }
    }
}
