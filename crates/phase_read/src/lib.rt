// READ in place on a state's bytes: each wire's packet joins its queue, and each raised flag becomes a credit.
#![tactic(auto)]

ghost use Rattle.std.specs.Prelude.{◌≡◌, true, not, ℕ, ◌+◌, ◌*◌, ◌≤◌, ◌<◌, eqb, get_or, length};
ghost use Rattle.std.specs.Option.{unwrap_or};
ghost use Rattle.basis.specs.Fold.{up_to};
ghost use Rattle.packets.specs.declared.Phase.TheVariants.{Read};
ghost use Rattle.plan.specs.Head.{Counts, destinations};
ghost use Rattle.plan.specs.Lent.{plan_by};
ghost use Rattle.rules.specs.Read.{do_read};
ghost use Rattle.theory.specs.Invariant.{Core};
ghost use Rattle.bytes_steps.specs.Acts.{Holds, Steps, In};
ghost use Rattle.bytes_steps.specs.Counts.{queue_count, output_count};
ghost use Rattle.next_queue.specs.Wiring.{WiringOf};
ghost use Rattle.next_queue.specs.Next.{no_queue, base_of};
ghost use Rattle.phase_read.specs.Awaiting.{lacks_at, Only};
ghost use Rattle.phase_read.specs.Reading.{delivery, Arriving, Flagged, Settles, Whole, SettlesTo, Down};

use bytes_rows::{push, put_wire, wire_at};
use bytes_steps::{
    FLAG_BYTE, LENGTH_BYTE, OUTPUT_WIDTH, PHASE_BYTE, output_count, output_row, queue_count,
    queue_row,
};
use kinds::Credit;
use next_queue::{base_of, next};
use packets::{Phase, Wire, credit_up};
use plan::Head;
use plan::tables::PlanTables;

// The byte of the first queue's flag.
const FIRST_FLAG: usize = 3;

// Whether queue n lacks a credit: with its packets and a raised flag its credits are not its capacity.
fn lacks(s: &[u8], n: usize, cap: u8) -> bool
    requires { (n ≤ 65535) × (41 + 39 * n ≤ length s.now) }
    ensures { result ≡ lacks_at n cap s.now }
{
    let at = queue_row(n);
    let held = usize::from(s[at]) + usize::from(s[at + LENGTH_BYTE]);
    if s[at + FLAG_BYTE] == 0 {
        return held != usize::from(cap);
    }
    held + 1 != usize::from(cap)
}

// Of the four queues from number n on, the one that lacks a credit.
fn awaiting(s: &[u8], n: usize, cap: u8) -> usize
    requires { (n ≤ 65000) × (2 + 39 * (n + 4) ≤ length s.now) }
    ensures { (c : ℕ) → Only n c cap s.now → result ≡ n + c }
{
    for i in 0..3 {
        if lacks(s, n + i, cap) {
            return n + i;
        }
    }
    n + 3
}

// The queue at a unit that a packet on the wire of output m joins, if that leads to a unit. The wire does not say which
// of the four it is, but a credit of that one was spent for the packet: it is the one that lacks a credit.
fn at_unit(h: Head, s: &[u8], m: usize) -> Option<usize>
    requires { Counts h × (m < output_count h) × (2 + 39 * queue_count h ≤ length s.now) }
    ensures { (r c : ℕ) → m ≡ destinations h + 6 * r + 4 → Only (base_of h r + 4) c h.q.0 s.now
        → unwrap_or result no_queue ≡ base_of h r + 4 + c }
{
    let d = h.actives + h.passives;
    if m < d {
        return None;
    }
    if (m - d) % 6 != 4 {
        return None;
    }
    Some(awaiting(s, base_of(h, (m - d) / 6) + 4, h.q.0))
}

// The wire of output m: a packet on it joins its next queue, and the wire empties.
fn deliver(h: Head, t: &PlanTables, s: &mut [u8], m: usize)
    requires { WiringOf h t.now × (m < output_count h)
        × Holds (plan_by h t.now) (Arriving (plan_by h t.now) m)
        s.old }
    ensures { Steps (plan_by h t.now)
        (Arriving (plan_by h t.now) m)
        (delivery (plan_by h t.now) m) s.old s.new }
{
    let i = output_row(h, m);
    let w = wire_at(s, i);
    let Wire::Full(x) = w else {
        return;
    };
    let q = at_unit(h, s, m);
    let Some(n) = next(h, t, m, q, x) else {
        unreachable!()
    };
    put_wire(s, i, Wire::Empty);
    push(s, queue_row(n), x);
}

// Whether a packet is on the wire of output m; the outputs' rows begin at `from`.
fn full(s: &[u8], from: usize, m: usize) -> bool
    requires { from + 7 * m < length s.now }
    ensures { result ≡ not (eqb (get_or s.now (from + 7 * m) 0) 0) }
{
    s[from + OUTPUT_WIDTH * m] != 0
}

// Every wire's packet joins its queue.
fn deliver_all(h: Head, t: &PlanTables, s: &mut [u8])
    requires { WiringOf h t.now
        × Holds (plan_by h t.now) (Core (plan_by h t.now)) s.old }
    ensures { Steps (plan_by h t.now)
        (Core (plan_by h t.now))
        (up_to (delivery (plan_by h t.now)) (output_count h))
        s.old s.new }
{
    let count = output_count(h);
    let from = output_row(h, 0);
    for m in 0..count {
        if full(s, from, m) {
            deliver(h, t, s, m);
        }
    }
}

// The flag of queue n: if it is raised, the queue has one credit more, and it is lowered.
fn settle(s: &mut [u8], n: usize)
    requires { (n ≤ 65535) × Flagged n s.old }
    ensures { Settles n s.old s.new }
{
    let i = queue_row(n);
    if s[i + FLAG_BYTE] == 0 {
        return;
    }
    let c = credit_up(Credit(s[i]));
    s[i] = c.0;
    s[i + FLAG_BYTE] = 0;
}

// Whether no flag of the four queues from number n on is up.
fn four_down(s: &[u8], n: usize) -> bool
    requires { (n ≤ 512) × (2 + 39 * (n + 4) ≤ length s.now) }
    ensures { result ≡ true → (k : ℕ) → k < 4 → get_or s.now (39 * (n + k) + 3) 0 ≡ 0 }
{
    let at = 39 * n + FIRST_FLAG;
    let near = check_idle::join(s[at], s[at + 39]);
    let far = check_idle::join(s[at + 78], s[at + 117]);
    check_idle::join(near, far) == 0
}

// Whether no flag of the first n queues is up, four at a time and then the last four; of fewer than four it is not
// told.
fn all_down(s: &[u8], n: usize) -> bool
    requires { (n ≤ 512) × (2 + 39 * n ≤ length s.now) }
    ensures { result ≡ true → Down n s.now }
{
    if n < 4 {
        return false;
    }
    let m = n / 4;
    for g in 0..m {
        if !four_down(s, 4 * g) {
            return false;
        }
    }
    four_down(s, n - 4)
}

// Every raised flag becomes a credit.
fn settle_all(h: Head, s: &mut [u8])
    requires { Counts h × Whole (queue_count h) s.old }
    ensures { SettlesTo (queue_count h) s.old s.new }
{
    let count = queue_count(h);
    if all_down(s, count) {
        return;
    }
    for n in 0..count {
        settle(s, n);
    }
}

// READ.
pub fn read(h: Head, t: &PlanTables, s: &mut [u8])
    requires { WiringOf h t.now
        × Holds (plan_by h t.now) (In (plan_by h t.now) Read) s.old }
    ensures { Steps (plan_by h t.now)
        (In (plan_by h t.now) Read)
        (do_read (plan_by h t.now)) s.old s.new }
{
    deliver_all(h, t, s);
    settle_all(h, s);
    s[PHASE_BYTE] = u8::from(Phase::Execute);
}
