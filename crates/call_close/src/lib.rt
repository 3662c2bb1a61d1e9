// Close on the bytes of a good state: its refusals one after another in document 02's order, and then its step. A
// refusal writes nothing.
#![tactic(auto)]

ghost use Rattle.std.specs.Prelude.{◌≡◌, ◌+◌, ◌≤◌, ◌<◌, length};
ghost use Rattle.plan.specs.Head.{InRange};
ghost use Rattle.rules.specs.Calls.{of_close};
ghost use Rattle.bytes_layout.specs.Decode.{length_at};
ghost use Rattle.call_common.specs.Visits.{Ready, Walked};
ghost use Rattle.call_close.specs.Closing.{tdown_with, closed_at};

use call_common::{active_out, open_pair, queued, starts};
use kinds::{Hub, Refusal, Slot};
use packets::{Answer, Kind, Packet};
use plan::Head;

// A TDOWN that has the whole walk ahead: 'hub the number of routers on the walk'.
fn tear_down(a: usize, p: usize, t: Slot, n: u8) -> Packet
    requires { (a < 256) × (p < 256) }
    ensures { result ≡ tdown_with a p t.0 n }
{
    Packet {
        kind: Kind::Tdown,
        active: a as u8,
        passive: p as u8,
        slot: t,
        hub: Hub(n),
    }
}

// 'it puts a TDOWN in the active's out-queue, slot the start slot, hub the number of routers on the walk, and the
// connection leaves the accepted ones'
pub fn close_step(s: &mut [u8], row: usize, at: usize, a: usize, p: usize, t: Slot, n: u8)
    requires { (row + 39 ≤ length s.old) × (length_at row s.old < 7) × (at + 4 ≤ length s.old) × (a < 16)
        × (p < 16) × (t.0 < 32) }
    ensures { s.new ≡ closed_at row at a p t.0 n s.old }
{
    let x = tear_down(a, p, t, n);
    bytes_rows::push(s, row, x);
    bytes_rows::starts::leave(s, at, t);
}

// 'Close (active, passive, start slot) in READ .. refuses 8, 9, 10, then 16 for a connection not accepted, then 12'
pub fn close(
    h: Head,
    lengths: &[[u8; 16]; 16],
    s: &mut [u8],
    active: usize,
    passive: usize,
    slot: usize,
) -> Answer
    requires { InRange h × Ready h s.old }
    ensures { Walked h lengths.now (of_close active passive slot) s.old result
        s.new }
{
    let n = match open_pair(h, lengths, s, active, passive, slot) {
        Ok(n) => n,
        Err(w) => return Answer::Refused(w),
    };
    let at = starts(h, active, passive);
    let t = Slot(slot as u8);
    if !bytes_rows::starts::has(s, at, t) {
        return Answer::Refused(Refusal::NotAccepted);
    }
    let row = active_out(active);
    if h.aout.0 <= queued(s, row) {
        return Answer::Refused(Refusal::QueueFull);
    }
    close_step(s, row, at, active, passive, t, n);
    Answer::Done
}
