// EXECUTE 2: each output picks the next of its senders that is a candidate, from the one behind the last served on.
#![tactic(auto)]

ghost use Rattle.std.specs.Prelude.{◌≡◌, true, false, ℕ, ◌+◌, ◌*◌, ◌≤◌, ◌<◌, length};
ghost use Rattle.std.proofs.Math.Option.{some};
ghost use Rattle.basis.specs.Fold.{up_to};
ghost use Rattle.plan.specs.Head.{Counts, destinations};
ghost use Rattle.plan.specs.Lent.{plan_by};
ghost use Rattle.plan_queues.specs.Queue.{queue_at};
ghost use Rattle.plan_queues.specs.Role.{is_unit};
ghost use Rattle.plan_queues.specs.Feeds.{output_of};
ghost use Rattle.rules.specs.Outputs.{output_at};
ghost use Rattle.theory.specs.Invariant.{Core};
ghost use Rattle.bytes_layout.specs.Decode.{length_at};
ghost use Rattle.bytes_steps.specs.Acts.{Holds, Steps};
ghost use Rattle.bytes_steps.specs.Counts.{queue_count, output_count};
ghost use Rattle.next_queue.specs.Wiring.{WiringOf};
ghost use Rattle.phase_pick.specs.Moments.{Tells, Picks, Open, Leaves, chooses, chooses_from, chooses_at};
ghost use Rattle.phase_pick.specs.Moments.{first_code, turn_code, is_candidate};
ghost use Rattle.phase_pick.specs.Senders.{Sends};

use bytes_steps::{CHOICE_BYTE, FIRST_PLACE, LENGTH_BYTE, MARK_BYTE, SLOT_BYTE};
use plan::Head;
use plan::tables::PlanTables;

// Whether the next queue of the head of queue n, which may leave by output m, has credit. To a unit the head of U[i]
// goes to Q[i], which stands four queues behind.
fn may_go(h: Head, t: &PlanTables, m: usize, n: usize, s: &[u8]) -> bool
    requires { WiringOf h t.now × (m < output_count h) × (n < queue_count h)
        × (output_of (queue_at (plan_by h t.now) n)
        ≡ some (output_at (plan_by h t.now) m))
        × Holds (plan_by h t.now) (Leaves (plan_by h t.now) n) s.now }
    ensures { Tells (plan_by h t.now)
        (Leaves (plan_by h t.now) n)
        (is_candidate (plan_by h t.now) m n) s.now result }
{
    let at = bytes_steps::queue_row(n);
    let x = bytes_rows::packet_at(s, at + FIRST_PLACE);
    let Some(y) = next_queue::next(h, t, m, Some(n + 4), x) else {
        unreachable!()
    };
    s[bytes_steps::queue_row(y)] != 0
}

// Whether queue n, a sender of output m, is a candidate: it has a head (at a unit a handled one) whose next queue has
// credit.
fn ready(h: Head, t: &PlanTables, m: usize, n: usize, unit: bool, s: &[u8]) -> bool
    requires { WiringOf h t.now × (m < output_count h) × (n < queue_count h)
        × (output_of (queue_at (plan_by h t.now) n)
        ≡ some (output_at (plan_by h t.now) m))
        × (is_unit (queue_at (plan_by h t.now) n) ≡ unit)
        × Holds (plan_by h t.now) (Core (plan_by h t.now)) s.now }
    ensures { Tells (plan_by h t.now)
        (Core (plan_by h t.now))
        (is_candidate (plan_by h t.now) m n) s.now result }
{
    let at = bytes_steps::queue_row(n);
    if s[at + LENGTH_BYTE] == 0 {
        return false;
    }
    if unit {
        if s[at + MARK_BYTE] == 0 {
            return false;
        }
        return may_go(h, t, m, n, s);
    }
    may_go(h, t, m, n, s)
}

// An output by number and whom it picks from: so many queues from the first one's number on, all of them at a unit or
// none.
#[derive(Clone, Copy, PartialEq, Eq)]
struct Output {
    number: usize,
    from: usize,
    count: usize,
    unit: bool,
}

// Of an output's senders the first candidate of rank i or more: its rank and one more, or 0.
fn first(h: Head, t: &PlanTables, of: Output, i: usize, s: &[u8]) -> u8
    requires { WiringOf h t.now × (of.count ≤ 5) × (i ≤ 256)
        × Sends (plan_by h t.now) of.number of.from of.count of.unit
        × Holds (plan_by h t.now) (Core (plan_by h t.now)) s.now }
    ensures { Tells (plan_by h t.now)
        (Core (plan_by h t.now))
        (first_code (plan_by h t.now) of.number i) s.now result }
{
    let count = of.count;
    for k in i..count {
        if ready(h, t, of.number, of.from + k, of.unit, s) {
            return (k + 1) as u8;
        }
    }
    0
}

// What an output picks if it is open: it looks from behind the last sender served on, and then from the first on.
fn turn(h: Head, t: &PlanTables, of: Output, s: &[u8]) -> u8
    requires { WiringOf h t.now × (of.count ≤ 5)
        × Sends (plan_by h t.now) of.number of.from of.count of.unit
        × Holds (plan_by h t.now) (Core (plan_by h t.now)) s.now }
    ensures { Tells (plan_by h t.now)
        (Core (plan_by h t.now))
        (turn_code (plan_by h t.now) of.number) s.now result }
{
    let last = usize::from(s[bytes_steps::turn_row(h, of.number)]);
    let v = first(h, t, of, last + 1, s);
    if v != 0 {
        return v;
    }
    first(h, t, of, 0, s)
}

// An output that is open picks.
fn pick(h: Head, t: &PlanTables, of: Output, s: &mut [u8])
    requires { WiringOf h t.now × (of.count ≤ 5)
        × Sends (plan_by h t.now) of.number of.from of.count of.unit
        × Holds (plan_by h t.now) (Open (plan_by h t.now) of.number) s.old }
    ensures { Steps (plan_by h t.now)
        (Open (plan_by h t.now) of.number)
        (chooses (plan_by h t.now) of.number) s.old s.new }
{
    let v = turn(h, t, of, s);
    let at = bytes_steps::output_row(h, of.number);
    s[at + CHOICE_BYTE] = v;
}

// The first of a router's outputs.
fn first_of(h: Head, r: usize) -> usize
    requires { Counts h × (r ≤ 256) }
    ensures { (result ≡ destinations h + 6 * r) × (result < 6000) }
{
    h.actives + h.passives + 6 * r
}

// Whether none of four queues, whose rows begin at an offset, has a packet.
fn idle(s: &[u8], at: usize) -> bool
    requires { (at + 156 ≤ length s.now) × (at < 65536) }
    ensures { result ≡ true → (k : ℕ) → k < 4 → length_at (at + 39 * k) s.now ≡ 0 }
{
    if s[at + 3] != 0 {
        return false;
    }
    if s[at + 42] != 0 {
        return false;
    }
    if s[at + 81] != 0 {
        return false;
    }
    s[at + 120] == 0
}

// Whether none of a side's five senders, whose rows begin at an offset, has a packet.
fn side_idle(s: &[u8], at: usize) -> bool
    requires { (at + 195 ≤ length s.now) × (at < 65536) }
    ensures { result ≡ true → (k : ℕ) → k < 5 → length_at (at + 39 * k) s.now ≡ 0 }
{
    if s[at + 159] != 0 {
        return false;
    }
    idle(s, at)
}

// Side o of router r picks, unless its entry for the current slot is booked.
fn side(h: Head, t: &PlanTables, r: usize, o: usize, s: &mut [u8])
    requires { WiringOf h t.now × (r < h.routers) × (o < 4)
        × Holds (plan_by h t.now)
        (Picks (plan_by h t.now) (destinations h + 6 * r + o)) s.old }
    ensures { Steps (plan_by h t.now)
        (Picks (plan_by h t.now) (destinations h + 6 * r + o))
        (chooses (plan_by h t.now) (destinations h + 6 * r + o))
        s.old s.new }
{
    let n = next_queue::base_of(h, r) + 8 + 5 * o;
    if side_idle(s, bytes_steps::queue_row(n)) {
        return;
    }
    let slot = usize::from(s[SLOT_BYTE]);
    if s[bytes_steps::entry_row(h, r, o, slot)] != 0 {
        return;
    }
    let of = Output {
        number: first_of(h, r) + o,
        from: n,
        count: 5,
        unit: false,
    };
    pick(h, t, of, s);
}

// The way from router r to its unit picks.
fn up(h: Head, t: &PlanTables, r: usize, s: &mut [u8])
    requires { WiringOf h t.now × (r < h.routers)
        × Holds (plan_by h t.now)
        (Picks (plan_by h t.now) (destinations h + 6 * r + 4)) s.old }
    ensures { Steps (plan_by h t.now)
        (Picks (plan_by h t.now) (destinations h + 6 * r + 4))
        (chooses (plan_by h t.now) (destinations h + 6 * r + 4))
        s.old s.new }
{
    let n = next_queue::base_of(h, r);
    if idle(s, bytes_steps::queue_row(n)) {
        return;
    }
    let of = Output {
        number: first_of(h, r) + 4,
        from: n,
        count: 4,
        unit: false,
    };
    pick(h, t, of, s);
}

// The way back from its unit picks.
fn down(h: Head, t: &PlanTables, r: usize, s: &mut [u8])
    requires { WiringOf h t.now × (r < h.routers)
        × Holds (plan_by h t.now)
        (Picks (plan_by h t.now) (destinations h + 6 * r + 5)) s.old }
    ensures { Steps (plan_by h t.now)
        (Picks (plan_by h t.now) (destinations h + 6 * r + 5))
        (chooses (plan_by h t.now) (destinations h + 6 * r + 5))
        s.old s.new }
{
    let n = next_queue::base_of(h, r) + 4;
    if idle(s, bytes_steps::queue_row(n)) {
        return;
    }
    let of = Output {
        number: first_of(h, r) + 5,
        from: n,
        count: 4,
        unit: true,
    };
    pick(h, t, of, s);
}

// The output of an interface picks: its one sender has the output's number.
fn interface(h: Head, t: &PlanTables, m: usize, s: &mut [u8])
    requires { WiringOf h t.now × (m < destinations h)
        × Holds (plan_by h t.now) (Picks (plan_by h t.now) m) s.old }
    ensures { Steps (plan_by h t.now)
        (Picks (plan_by h t.now) m)
        (chooses (plan_by h t.now) m) s.old s.new }
{
    let at = bytes_steps::queue_row(m);
    if s[at + LENGTH_BYTE] == 0 {
        return;
    }
    let of = Output {
        number: m,
        from: m,
        count: 1,
        unit: false,
    };
    pick(h, t, of, s);
}

// The four sides of router r.
fn sides(h: Head, t: &PlanTables, r: usize, s: &mut [u8])
    requires { WiringOf h t.now × (r < h.routers)
        × Holds (plan_by h t.now)
        (Picks (plan_by h t.now) (destinations h + 6 * r)) s.old }
    ensures { Steps (plan_by h t.now)
        (Picks (plan_by h t.now) (destinations h + 6 * r))
        (chooses_from (plan_by h t.now) (destinations h + 6 * r) 4)
        s.old s.new }
{
    for o in 0..4 {
        side(h, t, r, o, s);
    }
}

// The six outputs of router r.
fn router(h: Head, t: &PlanTables, r: usize, s: &mut [u8])
    requires { WiringOf h t.now × (r < h.routers)
        × Holds (plan_by h t.now)
        (Picks (plan_by h t.now) (destinations h + 6 * r)) s.old }
    ensures { Steps (plan_by h t.now)
        (Picks (plan_by h t.now) (destinations h + 6 * r))
        (chooses_at (plan_by h t.now) (destinations h) r)
        s.old s.new }
{
    sides(h, t, r, s);
    up(h, t, r, s);
    down(h, t, r, s);
}

// Every router in turn.
fn routers(h: Head, t: &PlanTables, s: &mut [u8])
    requires { WiringOf h t.now
        × Holds (plan_by h t.now)
        (Picks (plan_by h t.now) (destinations h)) s.old }
    ensures { Steps (plan_by h t.now)
        (Picks (plan_by h t.now) (destinations h))
        (up_to (chooses_at (plan_by h t.now) (destinations h)) h.routers)
        s.old s.new }
{
    for r in 0..h.routers {
        router(h, t, r, s);
    }
}

// Every interface in turn.
fn interfaces(h: Head, t: &PlanTables, s: &mut [u8])
    requires { WiringOf h t.now
        × Holds (plan_by h t.now) (Picks (plan_by h t.now) 0) s.old }
    ensures { Steps (plan_by h t.now)
        (Picks (plan_by h t.now) 0)
        (up_to (chooses (plan_by h t.now)) (destinations h))
        s.old s.new }
{
    let n = h.actives + h.passives;
    for m in 0..n {
        interface(h, t, m, s);
    }
}

// Every output in turn: interfaces first, then router by router.
pub fn picks(h: Head, t: &PlanTables, s: &mut [u8])
    requires { WiringOf h t.now
        × Holds (plan_by h t.now) (Picks (plan_by h t.now) 0) s.old }
    ensures { Steps (plan_by h t.now)
        (Picks (plan_by h t.now) 0)
        (up_to (chooses (plan_by h t.now)) (output_count h))
        s.old s.new }
{
    interfaces(h, t, s);
    routers(h, t, s);
}
