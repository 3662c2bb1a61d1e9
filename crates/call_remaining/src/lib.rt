// Remaining, for document 02 (n), on the bytes of a good state: the packets in queues and on wires, and the rounds
// after which a program that waits finds the network empty.
#![tactic(auto)]

ghost use Rattle.std.specs.Prelude.{◌≡◌, ℕ, ◌+◌, ◌*◌, ◌≤◌, ◌<◌, length};
ghost use Rattle.plan.specs.Head.{InRange};
ghost use Rattle.rules.specs.Calls.{of_remaining};
ghost use Rattle.call_common.specs.Visits.{Ready, Visits};
ghost use Rattle.call_remaining.specs.Counted.{apart, Counted};

use bytes_steps::LENGTH_BYTE;
use packets::{Answer, Remaining};
use plan::Head;

// '256 × S × N rounds'.
const ROUNDS: u32 = 256;

// The sum of n bytes that stand so far apart, the first at an offset.
fn summed(s: &[u8], at: usize, width: usize, n: usize) -> u32
    requires { (n ≤ 512) × ((k : ℕ) → k < n → at + width * k < length s.now) }
    ensures { (result ≡ apart at width n s.now) × (result ≤ 255 * n) }
{
    let mut m = 0u32;
    for k in 0..n {
        m += u32::from(s[at + width * k]);
    }
    m
}

// The packets in queues and on wires. An output's row begins with its wire's byte, 1 where the wire is full.
fn packets(h: Head, s: &[u8]) -> u32
    requires { InRange h × Ready h s.now }
    ensures { Counted h s.now result × (result ≤ 163200) }
{
    let queued = summed(
        s,
        bytes_steps::queue_row(0) + LENGTH_BYTE,
        bytes_steps::QUEUE_WIDTH,
        bytes_steps::queue_count(h),
    );
    let carried = summed(
        s,
        bytes_steps::output_row(h, 0),
        bytes_steps::OUTPUT_WIDTH,
        bytes_steps::output_count(h),
    );
    queued + carried
}

// Remaining: N and 256 × S × N.
pub fn remaining(h: Head, s: &[u8]) -> Answer
    requires { InRange h × Ready h s.now }
    ensures { Visits h of_remaining s.now result s.now }
{
    let n = packets(h, s);
    let left = Remaining {
        packets: n,
        rounds: ROUNDS * u32::from(h.slots) * n,
    };
    Answer::Remains(left)
}
