// Packets, wires, phases and answers, by value; and the stated rules that join the three counters, one function each.
#![tactic(auto)]

ghost use Rattle.std.specs.Prelude.{◌≡◌, ◌<◌, ◌≤◌};
ghost use Rattle.packets.specs.Codes.{kind_code, kind_of, phase_code, phase_of, entry_code, entry_from};
ghost use Rattle.packets.specs.Counters.{slot_next, start_slot, slot_after, hub_up, hub_down, credit_up, credit_down};
ghost use Rattle.packets.specs.Directions.{goes_back, unmarked};

use kinds::{Credit, Hub, Refusal, Slot};

// A packet's kind. SETUP and TDOWN go to the passive, ACK and NACK to the active.
#[derive(Clone, Copy, PartialEq, Eq)]
pub enum Kind {
    Setup,
    Tdown,
    Ack,
    Nack,
}

impl Kind {
    // Whether packets of the kind go back to the active.
    pub fn goes_back(self) -> bool
        ensures { result ≡ goes_back self }
    {
        match self {
            Kind::Setup => false,
            Kind::Tdown => false,
            Kind::Ack => true,
            Kind::Nack => true,
        }
    }
}

// The byte of a packet's kind.
impl From<Kind> for u8 {
    ghost from_gives = { λ k b. b ≡ kind_code k };

    fn from(k: Kind) -> u8 {
        match k {
            Kind::Setup => 0,
            Kind::Tdown => 1,
            Kind::Ack => 2,
            Kind::Nack => 3,
        }
    }
}

// The kind of a byte: of one that is no kind's the last.
impl From<u8> for Kind {
    ghost from_gives = { λ b k. k ≡ kind_of b };

    fn from(b: u8) -> Kind {
        match b {
            0 => Kind::Setup,
            1 => Kind::Tdown,
            2 => Kind::Ack,
            _ => Kind::Nack,
        }
    }
}

// A packet: its kind, its active and passive numbers, a slot, and a hub count.
#[derive(Clone, Copy, PartialEq, Eq)]
pub struct Packet {
    pub kind: Kind,
    pub active: u8,
    pub passive: u8,
    pub slot: Slot,
    pub hub: Hub,
}

impl Packet {
    // Whether it is a NACK that is not marked: its hub is not 0.
    pub fn is_unmarked(self) -> bool
        ensures { result ≡ unmarked self }
    {
        self.kind == Kind::Nack && self.hub.0 != 0
    }
}

// A wire holds nothing or one packet.
#[derive(Clone, Copy, PartialEq, Eq)]
pub enum Wire {
    Empty,
    Full(Packet),
}

// The phases of a round, in turn.
#[derive(Clone, Copy, PartialEq, Eq)]
pub enum Phase {
    Read,
    Execute,
    Write,
}

// The byte of a phase.
impl From<Phase> for u8 {
    ghost from_gives = { λ x b. b ≡ phase_code x };

    fn from(x: Phase) -> u8 {
        match x {
            Phase::Read => 0,
            Phase::Execute => 1,
            Phase::Write => 2,
        }
    }
}

// The phase of a byte: of one that is no phase's the last.
impl From<u8> for Phase {
    ghost from_gives = { λ b x. x ≡ phase_of b };

    fn from(b: u8) -> Phase {
        match b {
            0 => Phase::Read,
            1 => Phase::Execute,
            _ => Phase::Write,
        }
    }
}

// An entry of the slot table: free, or booked with the side by which the booking came in.
#[derive(Clone, Copy, PartialEq, Eq)]
pub enum Entry {
    Free,
    Booked(u8),
}

// The byte of an entry: 0 for free, else its side and one more. (Of side 255, which no router has, nothing is said.)
impl From<Entry> for u8 {
    ghost from_gives = { λ x b. entry_code x < 256 → b ≡ entry_code x };

    fn from(x: Entry) -> u8 {
        match x {
            Entry::Free => 0,
            Entry::Booked(side) => side.saturating_add(1),
        }
    }
}

// The entry of a byte.
impl From<u8> for Entry {
    ghost from_gives = { λ b x. x ≡ entry_from b };

    fn from(b: u8) -> Entry {
        if b == 0 {
            Entry::Free
        } else {
            Entry::Booked(b - 1)
        }
    }
}

// What is left in the network: the packets in queues and on wires, and the rounds after which a program that waits
// finds it empty.
#[derive(Clone, Copy, PartialEq, Eq)]
pub struct Remaining {
    pub packets: u32,
    pub rounds: u32,
}

// What a call answers: its refusal, only that it was accepted, the packet that a Look shows, the entry, or what is
// left.
#[derive(Clone, Copy, PartialEq, Eq)]
pub enum Answer {
    Refused(Refusal),
    Done,
    Shows(Packet),
    Holds(Entry),
    Remains(Remaining),
}

// The slot after t, of s slots.
pub fn slot_next(t: Slot, s: u8) -> Slot
    requires { (t.0 < s) × (s ≤ 32) }
    ensures { result ≡ slot_next t s }
{
    Slot((t.0 + 1) % s)
}

// The slot minus the hub count, modulo s: the start slot.
pub fn start_slot(t: Slot, h: Hub, s: u8) -> Slot
    requires { (t.0 < s) × (s ≤ 32) }
    ensures { result ≡ start_slot t h s }
{
    Slot((t.0 + (s - h.0 % s)) % s)
}

// The start slot plus the index of a router on the walk, modulo s.
pub fn slot_after(t: Slot, h: Hub, s: u8) -> Slot
    requires { (t.0 < s) × (s ≤ 32) × (h.0 ≤ 16) }
    ensures { result ≡ slot_after t h s }
{
    Slot((t.0 + h.0) % s)
}

// One router more is booked.
pub fn hub_up(h: Hub) -> Hub
    requires { h.0 < 16 }
    ensures { result ≡ hub_up h }
{
    Hub(h.0 + 1)
}

// One router fewer is to be freed.
pub fn hub_down(h: Hub) -> Hub
    requires { 1 ≤ h.0 }
    ensures { result ≡ hub_down h }
{
    Hub(h.0 - 1)
}

// A place in the queue is free again.
pub fn credit_up(c: Credit) -> Credit
    requires { c.0 < 7 }
    ensures { result ≡ credit_up c }
{
    Credit(c.0 + 1)
}

// A packet is on its way to the queue.
pub fn credit_down(c: Credit) -> Credit
    requires { 1 ≤ c.0 }
    ensures { result ≡ credit_down c }
{
    Credit(c.0 - 1)
}
