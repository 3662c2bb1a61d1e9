// Refusal 7's check of the accepted connections: 'a mark for an unserved pair, one lacking any of its entries, or two
// that share an entry'. They are looked at one after another; each claims its entries.
#![tactic(auto)]

ghost use Rattle.std.specs.Prelude.{◌≡◌, List, ℕ, ◌+◌, ◌*◌, ◌/◌, ◌%◌, ◌≤◌, ◌<◌, eqb, length};
ghost use Rattle.sets.specs.Sets.{below, less};
ghost use Rattle.plan.specs.Plan.{route_to};
ghost use Rattle.plan.specs.Lent.{plan_by};
ghost use Rattle.plan.specs.Tables.{table_plan, interface_at};
ghost use Rattle.bytes_layout.specs.Decode.{decode, four_at};
ghost use Rattle.bytes_steps.specs.Counts.{connections_from, state_size};
ghost use Rattle.check_rule.specs.Check.{connections_part};
ghost use Rattle.check_connections.specs.Claims.{Claimed, slot_from, Claims, Tied, Starts, StartsTied};
ghost use Rattle.check_connections.specs.Claims.{PairChecked};
ghost use Rattle.check_connections.specs.Given.{GivenOf, CourseOf};

use check_places::Trip;
use kinds::{Hub, Slot};
use plan::Head;
use plan::tables::PlanTables;
use sets::each::Members;
use sets::{below, has, less, with};

// The slot of a connection's entry at its n-th router, t its start slot.
fn slot_at(t: usize, n: usize, slots: u8) -> usize
    requires { (t < slots) × (slots ≤ 32) × (n ≤ 16) }
    ensures { (result ≡ slot_from t n slots) × (result < slots) }
{
    let start = Slot(t as u8);
    let hub = Hub(n as u8);
    let after = packets::slot_after(start, hub, slots);
    usize::from(after.0)
}

// The router's side, 4 * router + side, by which the walk to a column's interface leaves the router of a port.
fn leaves(routes: &[[u8; 32]; 16], d: usize, at: usize) -> usize
    requires { (d < 32) × (at < 64) }
    ensures { (h : Head) (joints : List ℕ)
        → result ≡ 4 * (at / 4) + route_to (table_plan h routes.now joints) (interface_at h d) (at / 4) }
{
    let r = at / 4;
    4 * r + usize::from(plan_walks::side_out(routes, d, r))
}

// Whether the entry at i is booked with a side, and slot t of the k-th router's side is not claimed yet; it is claimed.
fn claim(s: &[u8], i: usize, side: usize, k: usize, t: usize, claimed: &mut [u32; 64]) -> bool
    requires { (i < length s.now) × (side < 4) × (k < 64) × (t < 32) }
    ensures { Claimed s.now i side k t result claimed.old claimed.new }
{
    if usize::from(s[i]) != side + 1 {
        return false;
    }
    let c = claimed[k];
    if has(c, t) {
        return false;
    }
    claimed[k] = with(c, t);
    true
}

// Whether connection m has all its entries and shares none with those before it; they are claimed. `walk` is that of
// its pair.
fn tie_ok(h: Head, t: &PlanTables, s: &[u8], walk: Trip, m: usize, claimed: &mut [u32; 64]) -> bool
    requires { CourseOf h t.now (m / 512) (m / 32 % 16) walk × (m % 32 < h.slots)
        × (state_size h ≤ length s.now)
        × Claims (plan_by h t.now) (decode (plan_by h t.now) s.now) m
        claimed.old }
    ensures { Tied (plan_by h t.now)
        (decode (plan_by h t.now) s.now) m result
        claimed.new }
{
    let table = bytes_steps::table_row(h);
    let first = m % 32;
    let mut at = walk.home;
    for n in 0..walk.length {
        let k = leaves(&t.routes, walk.column, at);
        let x = slot_at(first, n, h.slots);
        if !claim(s, table + 64 * k + 2 * x, at % 4, k, x, claimed) {
            return false;
        }
        at = usize::from(t.joints[k]) % 64;
    }
    true
}

// The same of all connections of pair n, `word` the set of their start slots.
fn starts_ok(
    h: Head,
    t: &PlanTables,
    s: &[u8],
    walk: Trip,
    n: usize,
    word: u32,
    claimed: &mut [u32; 64],
) -> bool
    requires { CourseOf h t.now (n / 16) (n % 16) walk × (n < 256)
        × (state_size h ≤ length s.now)
        × Starts (decode (plan_by h t.now) s.now) h.slots n word
        × Claims (plan_by h t.now) (decode (plan_by h t.now) s.now)
        (32 * n) claimed.old }
    ensures { StartsTied (plan_by h t.now)
        (decode (plan_by h t.now) s.now) n result
        claimed.new }
{
    for start in Members::of(word) {
        if !tie_ok(h, t, s, walk, 32 * n + start, claimed) {
            return false;
        }
    }
    true
}

// Whether all members of a set are slots.
fn are_slots(word: u32, slots: u8) -> bool
    requires { slots ≤ 32 }
    ensures { result ≡ eqb (less word (below slots)) 0 }
{
    less(word, below(usize::from(slots))) == 0
}

// Whether the accepted connections of pair n are right, `word` the set of their start slots; they claim their entries.
fn pair_ok(h: Head, t: &PlanTables, s: &[u8], n: usize, word: u32, claimed: &mut [u32; 64]) -> bool
    requires { GivenOf h t.now s.now × (n < 16 * h.actives)
        × (word ≡ four_at (connections_from h + 4 * n) s.now)
        × Claims (plan_by h t.now) (decode (plan_by h t.now) s.now)
        (32 * n) claimed.old }
    ensures { PairChecked (plan_by h t.now) s.now n result
        claimed.new }
{
    if word == 0 {
        return true;
    }
    let a = n / 16;
    let p = n % 16;
    if h.passives <= p {
        return false;
    }
    if !are_slots(word, h.slots) {
        return false;
    }
    let length = usize::from(t.lengths[a][p]);
    if length == 0 {
        return false;
    }
    let walk = Trip {
        home: usize::from(t.homes[a]),
        column: h.actives + p,
        length: length,
    };
    starts_ok(h, t, s, walk, n, word, claimed)
}

// The same of all pairs, whose sets begin at i.
fn pairs_ok(h: Head, t: &PlanTables, s: &[u8], i: usize) -> bool
    requires { GivenOf h t.now s.now × (i ≡ connections_from h) }
    ensures { result ≡ connections_part (plan_by h t.now) s.now }
{
    let pairs = 16 * h.actives;
    let mut claimed = [0u32; 64];
    for n in 0..pairs {
        let word = check_idle::four(s, i + 4 * n);
        if !pair_ok(h, t, s, n, word, &mut claimed) {
            return false;
        }
    }
    true
}

// Whether the accepted connections are right; there are none where all their bytes are zero.
pub fn ties_ok(h: Head, t: &PlanTables, s: &[u8]) -> bool
    requires { GivenOf h t.now s.now }
    ensures { result ≡ connections_part (plan_by h t.now) s.now }
{
    let i = bytes_steps::connections_row(h);
    if check_idle::zeros(s, i, 64 * h.actives) {
        return true;
    }
    pairs_ok(h, t, s, i)
}
