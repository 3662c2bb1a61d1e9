// Drop on the bytes of a good state: its refusals one after another in the documents' order, and then its step. A
// refusal writes nothing. An ACK's connection is accepted.
#![tactic(auto)]

ghost use Rattle.std.specs.Prelude.{◌≡◌, ◌+◌, ◌≤◌, ◌<◌, get_or, length};
ghost use Rattle.plan.specs.Head.{InRange};
ghost use Rattle.rules.specs.Calls.{of_drop};
ghost use Rattle.bytes_layout.specs.Decode.{length_at};
ghost use Rattle.call_common.specs.Visits.{Ready, Visits};
ghost use Rattle.bytes_steps.specs.Counts.{state_size};
ghost use Rattle.call_drop.specs.Dropping.{dropped_at, is_ack, noted_at, Named};

use bytes_steps::{FIRST_PLACE, PHASE_BYTE};
use call_common::{active_in, allowance, flag_up, queued, starts, take};
use kinds::Refusal;
use packets::{Answer, Kind, Packet, Phase, start_slot};
use plan::Head;

// 'the packet is .. removed, the flag rises, the allowance grows by one'
fn drop_step(s: &mut [u8], row: usize, byte: usize)
    requires { (row < 20000) × (row + 39 ≤ length s.old) × (1 ≤ length_at row s.old) × (length_at row s.old ≤ 7)
        × (byte < length s.old) × (get_or s.old byte 0 ≤ 7) }
    ensures { s.new ≡ dropped_at row byte s.old }
{
    let n = s[byte];
    take(s, row);
    s[byte] = n + 1;
}

// Whether a packet is an ACK.
fn is_ack(x: Packet) -> bool
    ensures { result ≡ is_ack x.kind }
{
    matches!(x.kind, Kind::Ack)
}

// 'an ACK counts as accepted when dropped, with the numbers of the packet': its pair, and slot minus hub.
fn note(h: Head, s: &mut [u8], x: Packet)
    requires { InRange h × Named h x × (state_size h ≤ length s.old) }
    ensures { s.new ≡ noted_at h x s.old }
{
    if !is_ack(x) {
        return;
    }
    let at = starts(h, usize::from(x.active), usize::from(x.passive));
    let t = start_slot(x.slot, x.hub, h.slots);
    bytes_rows::starts::join(s, at, t);
}

// 'Drop removes it and returns nothing', and 'keeps Consume's 8, 9, 14, 13, 15': '8 not WRITE; 9; 14; 13; 15 head is an
// unmarked NACK'.
pub fn drop(h: Head, s: &mut [u8], active: usize) -> Answer
    requires { InRange h × Ready h s.old }
    ensures { Visits h (of_drop active) s.old result s.new }
{
    if s[PHASE_BYTE] != u8::from(Phase::Write) {
        return Answer::Refused(Refusal::WrongPhase);
    }
    if h.actives <= active {
        return Answer::Refused(Refusal::BadNumber);
    }
    let row = active_in(h, active);
    if flag_up(s, row) {
        return Answer::Refused(Refusal::FlagUp);
    }
    if queued(s, row) == 0 {
        return Answer::Refused(Refusal::QueueEmpty);
    }
    let x = bytes_rows::packet_at(s, row + FIRST_PLACE);
    if x.is_unmarked() {
        return Answer::Refused(Refusal::Unmarked);
    }
    let byte = allowance(h, active);
    drop_step(s, row, byte);
    note(h, s, x);
    Answer::Done
}
