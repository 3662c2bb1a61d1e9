// A queue's first four bytes, and what a queue is by its number.
#![tactic(auto)]

ghost use Rattle.std.specs.Prelude.{◌≡◌, Bool, ℕ, ◌+◌, ◌*◌, ◌≤◌, ◌<◌};
ghost use Rattle.plan.specs.Head.{Counts, destinations};
ghost use Rattle.rules.specs.Valid.{spends_kind};
ghost use Rattle.check_frames.specs.Tally.{counted};
ghost use Rattle.check_frames.specs.Frame.{flag_fits, mark_fits, flags_of, frame_of, joined_at, cross_side};
ghost use Rattle.check_frames.specs.Frame.{fed_in_router};
ghost use Rattle.check_frames.specs.Frame.{fed_of, unit_of, of_head};

use packets::Kind;
use plan::joints::joint_of;
use plan::{Head, Joint};

// What a packet of a kind has spent of its active's allowance.
pub fn spends(k: Kind) -> u8
    ensures { (result ≡ spends_kind k) × (result ≤ 1) }
{
    match k {
        Kind::Setup => 1,
        Kind::Tdown => 0,
        Kind::Ack => 1,
        Kind::Nack => 1,
    }
}

// n more of a count, which stops at 200.
pub fn counted(x: u8, n: u8) -> u8
    requires { n ≤ 1 }
    ensures { result ≡ counted x n }
{
    if x < 200 { x + n } else { x }
}

// Only the head of a queue can have been handled.
pub fn of_head(done: bool, k: usize) -> bool
    ensures { result ≡ of_head done k }
{
    k == 0 && done
}

// Whether a flag is up only where a wire feeds the queue, and not in EXECUTE.
fn flag_ok(fed: bool, executes: bool, f: u8) -> bool
    ensures { result ≡ flag_fits fed executes f }
{
    f == 0 || (!executes && fed)
}

// Whether a mark is on a unit's queue that is not empty.
fn mark_ok(unit: bool, m: u8, n: u8) -> bool
    ensures { result ≡ mark_fits unit m n }
{
    m == 0 || (unit && n != 0)
}

// Whether flag and mark are flags, the length is within the capacity, and flag and mark are where they may be.
fn flags_ok(cap: u8, fed: bool, unit: bool, executes: bool, f: u8, m: u8, n: u8) -> bool
    ensures { result ≡ flags_of cap fed unit executes f m n }
{
    if 1 < f {
        return false;
    }
    if 1 < m {
        return false;
    }
    if cap < n {
        return false;
    }
    if flag_ok(fed, executes, f) {
        return mark_ok(unit, m, n);
    }
    false
}

// Whether a queue's credit c, flag f, mark m and length n fit, w packets being on the way to it.
pub fn frame_ok(
    cap: u8,
    fed: bool,
    unit: bool,
    executes: bool,
    c: u8,
    f: u8,
    m: u8,
    n: u8,
    w: u8,
) -> bool
    ensures { result ≡ frame_of cap fed unit executes c f m n w }
{
    if !flags_ok(cap, fed, unit, executes, f, m, n) {
        return false;
    }
    if fed {
        return u32::from(c) + u32::from(n) + u32::from(w) + u32::from(f) == u32::from(cap);
    }
    c == cap
}

// Whether a port is joined.
fn joined(joints: &[u8; 64], i: usize) -> bool
    requires { i < 64 }
    ensures { result ≡ joined_at joints.now i }
{
    joint_of(joints[i]) != Joint::Nothing
}

// The side by which K is entered, k its rank at side o, from 0.
fn cross_side(k: usize, o: usize) -> usize
    requires { k < 3 }
    ensures { (result ≡ cross_side k o) × (result < 4) }
{
    if k < o { k } else { k + 1 }
}

// Whether a wire feeds the k-th queue of router r.
fn fed_in_router(joints: &[u8; 64], r: usize, k: usize) -> bool
    requires { (r < 16) × (k < 28) }
    ensures { result ≡ fed_in_router joints.now r k }
{
    if k < 4 {
        return joined(joints, 4 * r + k);
    }
    if k < 8 {
        return true;
    }
    let j = (k - 8) % 5;
    if j < 2 {
        return true;
    }
    joined(joints, 4 * r + cross_side(j - 2, (k - 8) / 5))
}

// Whether a wire feeds queue n.
pub fn fed_at(h: Head, joints: &[u8; 64], n: usize) -> bool
    requires { Counts h }
    ensures { result ≡ fed_of h joints.now n }
{
    let d = h.actives + h.passives;
    if n < d {
        return false;
    }
    if n < d + 28 * h.routers {
        return fed_in_router(joints, (n - d) / 28, (n - d) % 28);
    }
    true
}

// Whether queue n is a unit's.
pub fn unit_at(h: Head, n: usize) -> bool
    requires { Counts h }
    ensures { result ≡ unit_of h n }
{
    let d = h.actives + h.passives;
    if n < d {
        return false;
    }
    if n < d + 28 * h.routers {
        return (n - d) % 28 / 4 == 1;
    }
    false
}
