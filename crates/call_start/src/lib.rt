// Start: the bytes of a new state. All is zero but the credits, the allowances and what routers' outputs remember.
#![tactic(auto)]

ghost use Rattle.std.specs.Prelude.{◌≡◌, ◌+◌, ◌*◌, ◌≤◌, min, length};
ghost use Rattle.plan.specs.Head.{InRange, Counts, destinations};
ghost use Rattle.bytes_steps.specs.Counts.{queue_count, allowances_from, table_from, turns_from, state_size};
ghost use Rattle.call_start.specs.Starting.{Started, copies, filled, laid, credits, inner_turns, turned};
ghost use Rattle.call_start.specs.Starting.{router_credits, inner_credits, credited, allowance_of};

use kinds::Credit;
use plan::Head;

// A free entry's byte.
const FREE: u8 = 0;

// Up to so many routers the smaller arrays are long enough.
const FEW: usize = 4;

// One value in n bytes, from an offset on.
fn fill(s: &mut [u8], at: usize, n: usize, v: u8)
    requires { at + n ≤ length s.old }
    ensures { s.new ≡ filled at n v s.old }
{
    s[at..at + n].fill(v);
}

// The first n bytes of an array, from an offset on.
fn lay(s: &mut [u8], at: usize, t: &[u8], n: usize)
    requires { (at + n ≤ length s.old) × (n ≤ length t.now) }
    ensures { s.new ≡ laid at t.now n s.old }
{
    s[at..at + n].copy_from_slice(&t[..n]);
}

// The first n bytes of an array, as credits of the queues from a number on.
fn lay_credits(s: &mut [u8], from: usize, t: &[u8], n: usize)
    requires { (2 + 39 * (from + n) ≤ length s.old) × (n ≤ length t.now) × (from + n ≤ 512) }
    ensures { s.new ≡ credits from t.now n s.old }
{
    for i in 0..n {
        s[2 + 39 * (from + i)] = t[i];
    }
}

// 'table empty': the entries of all routers, by an array of N that is long enough.
fn lay_table<const N: usize>(h: Head, s: &mut [u8])
    requires { Counts h × (state_size h ≤ length s.old) × (256 * h.routers ≤ N) × (N ≤ 4096) }
    ensures { s.new ≡ filled (table_from h) (256 * h.routers) 0 s.old }
{
    let t = [FREE; N];
    lay(s, bytes_steps::table_row(h), &t, 256 * h.routers);
}

// The same by an array for four routers or for sixteen.
fn free_table(h: Head, s: &mut [u8])
    requires { Counts h × (state_size h ≤ length s.old) }
    ensures { s.new ≡ filled (table_from h) (256 * h.routers) 0 s.old }
{
    if h.routers <= FEW {
        lay_table::<1024>(h, s);
    } else {
        lay_table::<4096>(h, s);
    }
}

// What the routers' outputs remember, by rank: of five senders on each side, of four to the unit and on the way back.
fn inner_turns(h: Head, s: &mut [u8])
    requires { Counts h × (state_size h ≤ length s.old) }
    ensures { s.new ≡ inner_turns (turns_from h + destinations h) h.routers s.old }
{
    let at = bytes_steps::turn_row(h, h.actives + h.passives);
    let n = h.routers;
    for r in 0..n {
        let from = at + 6 * r;
        fill(s, from, 4, 4);
        fill(s, from + 4, 2, 3);
    }
}

// Each output remembers 'the last in order'; an interface's has one sender.
fn last_turns(h: Head, s: &mut [u8])
    requires { Counts h × (state_size h ≤ length s.old) }
    ensures { s.new ≡ turned h s.old }
{
    fill(s, bytes_steps::turn_row(h, 0), h.actives + h.passives, 0);
    inner_turns(h, s);
}

// 'credit of each queue fed by a wire = its capacity': U's, Q's and each side's F's, from a router's first queue on.
fn router_credits(h: Head, t: &mut [u8], at: usize)
    requires { at + 28 ≤ length t.old }
    ensures { t.new ≡ router_credits h at t.old }
{
    fill(t, at, 4, h.u.0);
    fill(t, at + 4, 4, h.q.0);
    fill(t, at + 8, 2, h.f.0);
    fill(t, at + 13, 2, h.f.0);
    fill(t, at + 18, 2, h.f.0);
    fill(t, at + 23, 2, h.f.0);
}

// The same of all routers, in an array that has K's credit everywhere.
fn inner_credits(h: Head, t: &mut [u8])
    requires { (28 * h.routers ≤ length t.old) × (h.routers ≤ 16) }
    ensures { t.new ≡ inner_credits h h.routers t.old }
{
    let n = h.routers;
    for r in 0..n {
        router_credits(h, t, 28 * r);
    }
}

// The credits of all routers' queues, by an array of N that is long enough and has K's credit everywhere, stored in the
// state from the routers' first queue on.
fn lay_inner<const N: usize>(h: Head, s: &mut [u8])
    requires { Counts h × (state_size h ≤ length s.old) × (28 * h.routers ≤ N) × (N ≤ 448) }
    ensures { s.new ≡ credited h (destinations h) (28 * h.routers) s.old }
{
    let mut t = [h.k.0; N];
    let n = 28 * h.routers;
    inner_credits(h, &mut t);
    lay_credits(s, h.actives + h.passives, &t, n);
}

// The same by an array for four routers or for sixteen.
fn lay_routers(h: Head, s: &mut [u8])
    requires { Counts h × (state_size h ≤ length s.old) }
    ensures { s.new ≡ credited h (destinations h) (28 * h.routers) s.old }
{
    if h.routers <= FEW {
        lay_inner::<112>(h, s);
    } else {
        lay_inner::<448>(h, s);
    }
}

// One credit for n interfaces' queues from a number on.
fn lay_same(s: &mut [u8], from: usize, n: usize, v: u8)
    requires { (2 + 39 * (from + n) ≤ length s.old) × (n ≤ 16) × (from + n ≤ 512) }
    ensures { s.new ≡ credits from (copies 16 v) n s.old }
{
    let t = [v; 16];
    lay_credits(s, from, &t, n);
}

// 'credit of each queue fed by a wire = its capacity': out-queues, routers' queues, in-queues.
fn all_credits(h: Head, s: &mut [u8])
    requires { Counts h × (state_size h ≤ length s.old) }
    ensures { s.new ≡ credited h 0 (queue_count h) s.old }
{
    let m = h.actives + h.passives + 28 * h.routers;
    lay_same(s, 0, h.actives, h.aout.0);
    lay_same(s, h.actives, h.passives, h.pout.0);
    lay_routers(h, s);
    lay_same(s, m, h.actives, h.ain.0);
    lay_same(s, m + h.actives, h.passives, h.pin.0);
}

// The smaller of two capacities.
fn smaller(c: Credit, d: Credit) -> u8
    ensures { result ≡ min c.0 d.0 }
{
    c.0.min(d.0)
}

// 'each active's allowance = the smaller of its two capacities'
fn allow(h: Head, s: &mut [u8])
    requires { Counts h × (state_size h ≤ length s.old) }
    ensures { s.new ≡ filled (allowances_from h) h.actives (allowance_of h) s.old }
{
    let v = smaller(h.aout, h.ain);
    fill(s, bytes_steps::allowance_row(h, 0), h.actives, v);
}

// '*Start*: READ, queues, wires and table empty, flags down, no choices, credit of each queue fed by a wire = its
// capacity, each active's allowance = the smaller of its two capacities.' No connection is accepted; each output
// remembers the last in order.
pub fn start(h: Head, s: &mut [u8])
    requires { InRange h × (state_size h ≤ length s.old) }
    ensures { Started h s.old s.new }
{
    fill(s, 0, bytes_steps::table_row(h), 0);
    free_table(h, s);
    fill(s, bytes_steps::connections_row(h), 64 * h.actives, 0);
    last_turns(h, s);
    all_credits(h, s);
    allow(h, s);
}
