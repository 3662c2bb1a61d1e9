// A unit's queue, lent to its unit: the head is handled once. A SETUP books or becomes a NACK, a TDOWN goes on or
// ends.
#![tactic(auto)]

ghost use Rattle.std.specs.Prelude.{◌≡◌, ◌≤◌, ◌<◌};
ghost use Rattle.rules.specs.Execute.{declined, booked, freed};
ghost use Rattle.phase_unit.specs.Handled.{Ready, set_up, stays, torn, handled_of};

use packets::{Kind, Packet};

// What a unit looks at and changes of its queue: the flag, the mark, how many packets, and the head.
#[derive(Clone, Copy, PartialEq, Eq)]
pub struct Queue {
    pub flag: u8,
    pub mark: u8,
    pub len: u8,
    pub head: Packet,
}

// The packet becomes a NACK, slot and hub kept.
fn decline(x: Packet) -> Packet
    ensures { result ≡ declined x }
{
    Packet {
        kind: Kind::Nack,
        ..x
    }
}

// One router more is booked: hub and slot each grow by one, the slot modulo the slot count.
fn book(x: Packet, slots: u8) -> Packet
    requires { (x.slot.0 < slots) × (slots ≤ 32) × (x.hub.0 < 16) }
    ensures { result ≡ booked slots x }
{
    Packet {
        slot: packets::slot_next(x.slot, slots),
        hub: packets::hub_up(x.hub),
        ..x
    }
}

// One router fewer is to be freed: the hub falls and the slot grows by one, modulo the slot count.
fn free(x: Packet, slots: u8) -> Packet
    requires { (x.slot.0 < slots) × (slots ≤ 32) × (1 ≤ x.hub.0) }
    ensures { result ≡ freed slots x }
{
    Packet {
        slot: packets::slot_next(x.slot, slots),
        hub: packets::hub_down(x.hub),
        ..x
    }
}

// A SETUP: booked where it may be (may is not 0), else declined.
fn set_up(x: Packet, may: u8, slots: u8) -> Packet
    requires { (x.slot.0 < slots) × (slots ≤ 32) × (x.hub.0 < 16) }
    ensures { result ≡ set_up x may slots }
{
    if may == 0 {
        return decline(x);
    }
    book(x, slots)
}

// The head stays, handled, as x.
fn stay(q: Queue, x: Packet) -> Queue
    ensures { result ≡ stays q x }
{
    Queue {
        mark: 1,
        head: x,
        ..q
    }
}

// A TDOWN: with hub 1 it ends and the flag rises, else it stays.
fn tear_down(q: Queue, slots: u8) -> Queue
    requires { (q.head.slot.0 < slots) × (slots ≤ 32) × (1 ≤ q.len) × (1 ≤ q.head.hub.0) }
    ensures { result ≡ torn q slots }
{
    let x = q.head;
    if x.hub.0 == 1 {
        return Queue {
            flag: 1,
            len: q.len - 1,
            ..q
        };
    }
    stay(q, free(x, slots))
}

// The queue with its head handled. May is not 0 where a SETUP's entry may be booked.
pub fn handled(q: Queue, may: u8, slots: u8) -> Queue
    requires { Ready q slots }
    ensures { result ≡ handled_of q may slots }
{
    match q.head.kind {
        Kind::Setup => stay(q, set_up(q.head, may, slots)),
        Kind::Tdown => tear_down(q, slots),
        Kind::Ack => q,
        Kind::Nack => q,
    }
}

// The handling step: the queue is lent to its unit, which changes it there.
pub fn handle(q: &mut Queue, may: u8, slots: u8)
    requires { Ready q.old slots }
    ensures { q.new ≡ handled_of q.old may slots }
{
    *q = handled(*q, may, slots);
}

// A queue by value is lent to the handling step and comes back.
pub fn lend(q: Queue, may: u8, slots: u8) -> Queue
    requires { Ready q slots }
    ensures { result ≡ handled_of q may slots }
{
    let mut r = q;
    handle(&mut r, may, slots);
    r
}
