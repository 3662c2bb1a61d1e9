// What Launch, Reply, Look, Drop, Close and Entry share on the bytes of a good state: the rows of the interfaces'
// queues, what is read of them, the head that leaves a queue, and how Launch and Close begin.
#![tactic(auto)]

ghost use Rattle.std.specs.Prelude.{◌≡◌, ◌+◌, ◌≤◌, ◌<◌, length, MatchResult};
ghost use Rattle.packets.specs.declared.Answer.TheVariants.{Refused};
ghost use Rattle.plan.specs.Head.{InRange, Counts};
ghost use Rattle.rules.specs.Calls.{Visit};
ghost use Rattle.bytes_layout.specs.Decode.{flag_at, length_at};
ghost use Rattle.call_common.specs.Visits.{active_out_row, passive_out_row, active_in_row, passive_in_row};
ghost use Rattle.call_common.specs.Visits.{allowance_byte};
ghost use Rattle.call_common.specs.Visits.{starts_byte, taken_at, Ready, Walked};
ghost use Rattle.call_common.specs.Pairs.{Begins, Opened};

use bytes_steps::{FLAG_BYTE, LENGTH_BYTE, PHASE_BYTE};
use kinds::Refusal;
use packets::Phase;
use plan::Head;

// The row of an active's out-queue.
pub fn active_out(a: usize) -> usize
    requires { a < 16 }
    ensures { (result ≡ active_out_row a) × (result < 20000) }
{
    bytes_steps::queue_row(a)
}

// The row of an active's in-queue.
pub fn active_in(h: Head, a: usize) -> usize
    requires { Counts h × (a < 16) }
    ensures { (result ≡ active_in_row h a) × (result < 20000) }
{
    bytes_steps::queue_row(h.actives + h.passives + 28 * h.routers + a)
}

// The row of a passive's in-queue.
pub fn passive_in(h: Head, p: usize) -> usize
    requires { Counts h × (p < 16) }
    ensures { (result ≡ passive_in_row h p) × (result < 20000) }
{
    bytes_steps::queue_row(h.actives + h.passives + 28 * h.routers + h.actives + p)
}

// The row of a passive's out-queue.
pub fn passive_out(h: Head, p: usize) -> usize
    requires { Counts h × (p < 16) }
    ensures { (result ≡ passive_out_row h p) × (result < 20000) }
{
    bytes_steps::queue_row(h.actives + p)
}

// The byte of an active's allowance.
pub fn allowance(h: Head, a: usize) -> usize
    requires { Counts h × (a < 16) }
    ensures { result ≡ allowance_byte h a }
{
    bytes_steps::allowance_row(h, a)
}

// The bytes of a pair's start slots.
pub fn starts(h: Head, a: usize, p: usize) -> usize
    requires { Counts h × (a < 16) × (p < 16) }
    ensures { result ≡ starts_byte h a p }
{
    bytes_steps::starts_row(h, a, p)
}

// Whether the flag is up of the queue whose row is at an offset.
pub fn flag_up(s: &[u8], at: usize) -> bool
    requires { (at < 20000) × (at + 39 ≤ length s.now) }
    ensures { result ≡ flag_at at s.now }
{
    s[at + FLAG_BYTE] != 0
}

// How many packets are in the queue whose row is at an offset.
pub fn queued(s: &[u8], at: usize) -> u8
    requires { (at < 20000) × (at + 39 ≤ length s.now) }
    ensures { result ≡ length_at at s.now }
{
    s[at + LENGTH_BYTE]
}

// The head leaves the queue whose row is at an offset, and the queue's flag rises.
pub fn take(s: &mut [u8], at: usize)
    requires { (at < 20000) × (at + 39 ≤ length s.old) × (1 ≤ length_at at s.old) × (length_at at s.old ≤ 7) }
    ensures { s.new ≡ taken_at at s.old }
{
    bytes_rows::pop(s, at);
    s[at + FLAG_BYTE] = 1;
}

// Launch and Close begin alike: 8 not READ; 9 a number out of range; 10 pair not served. Where these tests are passed,
// how many routers are on the pair's walk; else the refusal of each call that begins so.
pub fn open_pair(
    h: Head,
    lengths: &[[u8; 16]; 16],
    s: &[u8],
    active: usize,
    passive: usize,
    slot: usize,
) -> Result<u8, Refusal>
    requires { InRange h × Ready h s.now }
    ensures { MatchResult result (λ n. Opened h lengths.now s.now active passive slot n)
        (λ w. (v : Visit) → Begins v active passive slot → Walked h lengths.now v s.now (Refused w) s.now) }
{
    if s[PHASE_BYTE] != u8::from(Phase::Read) {
        return Err(Refusal::WrongPhase);
    }
    if h.actives <= active || h.passives <= passive || usize::from(h.slots) <= slot {
        return Err(Refusal::BadNumber);
    }
    let n = lengths[active][passive];
    if n == 0 {
        return Err(Refusal::NotServed);
    }
    Ok(n)
}
