// One row of a state's bytes: the bytes of its values, packets and wires, and what joins and leaves a queue, in place.
#![tactic(auto)]

// The start slots of a pair's accepted connections.
pub mod starts;

ghost use Rattle.std.specs.Prelude.{◌≡◌, ◌+◌, ◌*◌, ◌<◌, ◌≤◌, length};
ghost use Rattle.std.proofs.lemmas.List.Edits.{sets};
ghost use Rattle.bytes_layout.specs.Places.{packet_bytes, no_packet, packet_at};
ghost use Rattle.bytes_layout.specs.Encode.{wire_bytes};
ghost use Rattle.bytes_layout.specs.Decode.{length_at, wire_at, entry_at};
ghost use Rattle.bytes_layout.specs.Updates.{push_at, move_place, close_up, pop_at};

use bytes_steps::{FIRST_PLACE, LENGTH_BYTE, PLACE_WIDTH};
use kinds::{Hub, Slot};
use packets::{Entry, Kind, Packet, Wire};

// The entry of the table at an offset.
pub fn entry_at(s: &[u8], at: usize) -> Entry
    requires { at < length s.now }
    ensures { result ≡ entry_at at s.now }
{
    Entry::from(s[at])
}

// The packet of the five bytes at an offset.
pub fn packet_at(s: &[u8], at: usize) -> Packet
    requires { at + 5 ≤ length s.now }
    ensures { result ≡ packet_at at s.now }
{
    Packet {
        kind: Kind::from(s[at]),
        active: s[at + 1],
        passive: s[at + 2],
        slot: Slot(s[at + 3]),
        hub: Hub(s[at + 4]),
    }
}

// The packet's five bytes at an offset.
pub fn put_packet(s: &mut [u8], at: usize, x: Packet)
    requires { at + 5 ≤ length s.old }
    ensures { s.new ≡ sets s.old at (packet_bytes x) }
{
    s[at] = u8::from(x.kind);
    s[at + 1] = x.active;
    s[at + 2] = x.passive;
    s[at + 3] = x.slot.0;
    s[at + 4] = x.hub.0;
}

// A place without a packet at an offset.
fn clear_place(s: &mut [u8], at: usize)
    requires { at + 5 ≤ length s.old }
    ensures { s.new ≡ sets s.old at no_packet }
{
    s[at..at + PLACE_WIDTH].fill(0);
}

// The wire of the six bytes at an offset.
pub fn wire_at(s: &[u8], at: usize) -> Wire
    requires { at + 6 ≤ length s.now }
    ensures { result ≡ wire_at at s.now }
{
    if s[at] == 0 {
        return Wire::Empty;
    }
    let x = packet_at(s, at + 1);
    Wire::Full(x)
}

// The wire's six bytes at an offset.
pub fn put_wire(s: &mut [u8], at: usize, w: Wire)
    requires { at + 6 ≤ length s.old }
    ensures { s.new ≡ sets s.old at (wire_bytes w) }
{
    match w {
        Wire::Empty => {
            s[at] = 0;
            clear_place(s, at + 1);
        }
        Wire::Full(x) => {
            s[at] = 1;
            put_packet(s, at + 1, x);
        }
    }
}

// The packet joins the queue whose row is at an offset: behind the last one.
pub fn push(s: &mut [u8], at: usize, x: Packet)
    requires { (at + 39 ≤ length s.old) × (length_at at s.old < 7) }
    ensures { s.new ≡ push_at at x s.old }
{
    let n = s[at + LENGTH_BYTE];
    put_packet(s, at + FIRST_PLACE + PLACE_WIDTH * usize::from(n), x);
    s[at + LENGTH_BYTE] = n + 1;
}

// The five bytes of the next place come to the place at an offset.
fn move_place(s: &mut [u8], at: usize)
    requires { at + 10 ≤ length s.old }
    ensures { s.new ≡ move_place at s.old }
{
    s[at] = s[at + PLACE_WIDTH];
    s[at + 1] = s[at + 1 + PLACE_WIDTH];
    s[at + 2] = s[at + 2 + PLACE_WIDTH];
    s[at + 3] = s[at + 3 + PLACE_WIDTH];
    s[at + 4] = s[at + 4 + PLACE_WIDTH];
}

// From an offset on, n places take what the next one has.
fn close_up(s: &mut [u8], at: usize, n: usize)
    requires { (at + 5 + 5 * n ≤ length s.old) × (n < 7) }
    ensures { s.new ≡ close_up at n s.old }
{
    for j in 0..n {
        move_place(s, at + PLACE_WIDTH * j);
    }
}

// The first packet leaves the queue whose row is at an offset, and the others close up.
pub fn pop(s: &mut [u8], at: usize)
    requires { (at + 39 ≤ length s.old) × (1 ≤ length_at at s.old) × (length_at at s.old ≤ 7) }
    ensures { s.new ≡ pop_at at s.old }
{
    let n = s[at + LENGTH_BYTE] - 1;
    let last = usize::from(n);
    close_up(s, at + FIRST_PLACE, last);
    clear_place(s, at + FIRST_PLACE + PLACE_WIDTH * last);
    s[at + LENGTH_BYTE] = n;
}
