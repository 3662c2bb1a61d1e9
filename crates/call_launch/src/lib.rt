// Launch on the bytes of a good state: its refusals one after another in document 01's order, and then its step. A
// refusal writes nothing.
#![tactic(auto)]

ghost use Rattle.std.specs.Prelude.{◌≡◌, ◌+◌, ◌≤◌, ◌<◌, get_or, length};
ghost use Rattle.plan.specs.Head.{InRange};
ghost use Rattle.rules.specs.Visits.{setup_of};
ghost use Rattle.rules.specs.Calls.{of_launch};
ghost use Rattle.bytes_layout.specs.Decode.{length_at};
ghost use Rattle.call_common.specs.Visits.{Ready, Walked};
ghost use Rattle.call_launch.specs.Launching.{launched_at};

use call_common::{active_out, allowance, open_pair, queued};
use kinds::{Hub, Refusal, Slot};
use packets::{Answer, Kind, Packet};
use plan::Head;

// A SETUP with hub 0.
fn set_up(a: usize, p: usize, t: usize) -> Packet
    requires { (a < 256) × (p < 256) × (t < 256) }
    ensures { result ≡ setup_of a p t }
{
    Packet {
        kind: Kind::Setup,
        active: a as u8,
        passive: p as u8,
        slot: Slot(t as u8),
        hub: Hub(0),
    }
}

// 'a SETUP, hub 0, joins and the allowance falls by one'
fn launch_step(s: &mut [u8], row: usize, byte: usize, a: usize, p: usize, t: usize)
    requires { (row + 39 ≤ length s.old) × (length_at row s.old < 7) × (byte < length s.old)
        × (1 ≤ get_or s.old byte 0) × (a < 16) × (p < 16) × (t < 32) }
    ensures { s.new ≡ launched_at row byte a p t s.old }
{
    let n = s[byte];
    let x = set_up(a, p, t);
    bytes_rows::push(s, row, x);
    s[byte] = n - 1;
}

// '**Launch** (active, passive, slot): 8 not READ; 9 a number out of range; 10 pair not served; 11 allowance 0; 12
// out-queue full.'
pub fn launch(
    h: Head,
    lengths: &[[u8; 16]; 16],
    s: &mut [u8],
    active: usize,
    passive: usize,
    slot: usize,
) -> Answer
    requires { InRange h × Ready h s.old }
    ensures { Walked h lengths.now (of_launch active passive slot) s.old result
        s.new }
{
    if let Err(w) = open_pair(h, lengths, s, active, passive, slot) {
        return Answer::Refused(w);
    }
    let byte = allowance(h, active);
    if s[byte] == 0 {
        return Answer::Refused(Refusal::NoAllowance);
    }
    let row = active_out(active);
    if h.aout.0 <= queued(s, row) {
        return Answer::Refused(Refusal::QueueFull);
    }
    launch_step(s, row, byte, active, passive, slot);
    Answer::Done
}
