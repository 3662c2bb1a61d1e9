// The plan's first 45 bits: counts and capacities, their ranges, the length that they give, and the fill bits behind
// it.
ghost use Rattle.std.specs.Prelude.{◌≡◌, ◌≤◌, ◌<◌, ◌*◌, ◌+◌, length};
ghost use Rattle.plan.specs.Head.{capacity_at, head_of, within, counts_ok, capacities_ok, head_ok, bit_count};
ghost use Rattle.plan.specs.Rules.{fill_ok};

use crate::Head;
use kinds::Credit;
use sets::{below, both};

// The bits of a count, of the slot count and of a capacity, and where each stands.
const COUNT_BITS: usize = 5;

const SLOTS_BITS: usize = 6;

const CAPACITY_BITS: usize = 3;

const ACTIVES_AT: usize = 5;

const PASSIVES_AT: usize = 10;

const SLOTS_AT: usize = 15;

const CAPACITIES_AT: usize = 21;

// The most of routers, of actives and of passives, of slots, and of a capacity.
const COUNT_MOST: usize = 16;

const SLOTS_MOST: usize = 32;

const CAPACITY_MOST: usize = 7;

// The bits before the joints, of a router's joints, and of a route.
pub const JOINTS_AT: usize = 45;

pub const ROUTER_BITS: usize = 32;

pub const ROUTE_BITS: usize = 3;

// The i-th of the eight capacities.
fn capacity(plan: &[u8], i: usize) -> Credit
    requires { (i < 8) × (6 ≤ length plan.now) }
    ensures { result ≡ capacity_at plan.now i }
{
    Credit(fields::field(plan, CAPACITIES_AT + CAPACITY_BITS * i, CAPACITY_BITS))
}

// The counts, the slot count and the capacities that the bytes give.
pub fn read_head(plan: &[u8]) -> Head
    requires { 6 ≤ length plan.now }
    ensures { result ≡ head_of plan.now }
{
    Head {
        routers: usize::from(fields::field(plan, 0, COUNT_BITS)),
        actives: usize::from(fields::field(plan, ACTIVES_AT, COUNT_BITS)),
        passives: usize::from(fields::field(plan, PASSIVES_AT, COUNT_BITS)),
        slots: fields::field(plan, SLOTS_AT, SLOTS_BITS),
        aout: capacity(plan, 0),
        ain: capacity(plan, 1),
        u: capacity(plan, 2),
        q: capacity(plan, 3),
        f: capacity(plan, 4),
        k: capacity(plan, 5),
        pin: capacity(plan, 6),
        pout: capacity(plan, 7),
    }
}

// Whether a number is between two, both included.
fn is_within(low: usize, n: usize, high: usize) -> bool
    ensures { result ≡ within low n high }
{
    (low <= n) & (n <= high)
}

// Whether a capacity is 1 to 7.
fn capacity_ok(c: Credit) -> bool
    ensures { result ≡ within 1 c.0 7 }
{
    is_within(1, usize::from(c.0), CAPACITY_MOST)
}

// Whether the counts and the slot count are in range.
pub fn counts_ok(h: Head) -> bool
    ensures { result ≡ counts_ok h }
{
    is_within(1, h.routers, COUNT_MOST)
        & is_within(1, h.actives, COUNT_MOST)
        & is_within(1, h.passives, COUNT_MOST)
        & is_within(2, usize::from(h.slots), SLOTS_MOST)
}

// Whether each capacity is in range.
pub fn capacities_ok(h: Head) -> bool
    ensures { result ≡ capacities_ok h }
{
    capacity_ok(h.aout)
        & capacity_ok(h.ain)
        & capacity_ok(h.u)
        & capacity_ok(h.q)
        & capacity_ok(h.f)
        & capacity_ok(h.k)
        & capacity_ok(h.pin)
        & capacity_ok(h.pout)
}

// Whether no number of the head is outside its range: refusal 2.
pub fn head_ok(h: Head) -> bool
    ensures { result ≡ head_ok h }
{
    counts_ok(h) & capacities_ok(h)
}

// The bits of a plan with these counts.
pub fn bit_count(h: Head) -> usize
    requires { (h.routers ≤ 16) × (h.actives ≤ 16) × (h.passives ≤ 16) }
    ensures { result ≡ bit_count h }
{
    JOINTS_AT + ROUTER_BITS * h.routers + ROUTE_BITS * (h.routers * (h.actives + h.passives))
}

// Whether each bit from a position in the last byte on is zero: refusal 3.
pub fn fill_ok(plan: &[u8], from: usize) -> bool
    requires { (1 ≤ length plan.now) × (length plan.now ≤ 4096) × (from ≤ 8 * length plan.now)
        × (8 * length plan.now < from + 8) }
    ensures { result ≡ fill_ok plan.now from }
{
    let n = 8 * plan.len() - from;
    let last = plan[plan.len() - 1];
    both(u32::from(last), below(n)) == 0
}
