// Where packets go next, by the tables that Load lends: the number of the queue that a packet joins as it leaves by
// an output, if there is one.
#![tactic(auto)]

ghost use Rattle.std.specs.Prelude.{◌≡◌, Bool, List, [], ℕ, ◌+◌, ◌*◌, ◌≤◌, ◌<◌, get_or, length, IfSome};
ghost use Rattle.std.specs.Option.{unwrap_or};
ghost use Rattle.plan.specs.Head.{Counts, destinations};
ghost use Rattle.plan.specs.Plan.{no_side};
ghost use Rattle.plan.specs.Lent.{plan_by};
ghost use Rattle.rules.specs.Outputs.{next_by, output_at};
ghost use Rattle.next_queue.specs.Wiring.{WiringOf};
ghost use Rattle.next_queue.specs.Next.{no_queue, number_or, base_of, outputs_of, crossed_of, leaves_of};
ghost use Rattle.next_queue.specs.Next.{entered_of, across_of, column_of};
ghost use Rattle.next_queue.specs.Next.{routed_of, next_of, AtUnit};

use packets::Packet;
use plan::Head;
use plan::tables::PlanTables;

// The first of a router's queues.
pub fn base_of(h: Head, r: usize) -> usize
    requires { Counts h × (r ≤ 256) }
    ensures { (result ≡ base_of h r) × (result < 8000) }
{
    h.actives + h.passives + 28 * r
}

// The side that a router's row gives for a column.
fn side_of(row: &[u8], d: usize) -> usize
    requires { d < length row.now }
    ensures { (result ≡ get_or row.now d no_side) × (result < 256) }
{
    usize::from(row[d])
}

// The side that a router gives for a column.
pub fn side_out(routes: &[[u8; 32]; 16], r: usize, d: usize) -> usize
    requires { (r < 16) × (d < 32) }
    ensures { (result ≡ get_or (get_or routes.now r []) d no_side) × (result < 256) }
{
    side_of(&routes[r], d)
}

// K[i,o] of a router whose queues begin at base, if there is one.
fn crossed(base: usize, i: usize, o: usize) -> Option<usize>
    requires { (base < 8000) × (i < 4) }
    ensures queue { unwrap_or result no_queue ≡ crossed_of base i o }
    ensures below { IfSome result (λ n. n < no_queue) }
{
    if o < 4 {
        if i == o {
            return None;
        }
        if i < o {
            return Some(base + 8 + 5 * o + (i + 2));
        }
        return Some(base + 8 + 5 * o + (i + 1));
    }
    None
}

// F[o] of a router whose queues begin at base, if there is one: of answers, or of set-ups and tear-downs.
fn leaves(base: usize, back: bool, o: usize) -> Option<usize>
    requires { base < 8000 }
    ensures queue { unwrap_or result no_queue ≡ leaves_of base back o }
    ensures below { IfSome result (λ n. n < no_queue) }
{
    if o < 4 {
        if back {
            return Some(base + 8 + 5 * o + 1);
        }
        return Some(base + 8 + 5 * o);
    }
    None
}

// The queue of a packet that enters by a port, if there is one.
fn entered(h: Head, routes: &[[u8; 32]; 16], port: usize, back: bool, a: usize) -> Option<usize>
    requires { Counts h × (port < 64) × (a < 32) }
    ensures queue { unwrap_or result no_queue ≡ entered_of h routes.now port back a }
    ensures below { IfSome result (λ n. n < no_queue) }
{
    let base = base_of(h, port / 4);
    if back {
        let o = side_out(routes, port / 4, a);
        return crossed(base, port % 4, o);
    }
    Some(base + port % 4)
}

// The queue of a packet that leaves by a joint, if there is one.
fn across(h: Head, routes: &[[u8; 32]; 16], v: u8, back: bool, a: usize) -> Option<usize>
    requires { Counts h × (a < 32) }
    ensures queue { unwrap_or result no_queue ≡ across_of h routes.now v back a }
    ensures below { IfSome result (λ n. n < no_queue) }
{
    if v / 64 == 1 {
        return entered(h, routes, usize::from(v % 64), back, a);
    }
    if v / 64 == 2 {
        return Some(base_of(h, h.routers) + usize::from(v / 4 % 16));
    }
    if v / 64 == 3 {
        return Some(base_of(h, h.routers) + h.actives + usize::from(v / 4 % 16));
    }
    None
}

// The column of a packet's destination.
pub fn column_of(h: Head, back: bool, a: usize, p: usize) -> usize
    requires { Counts h × (a < 16) × (p < 16) }
    ensures { (result ≡ column_of h back a p) × (result < 32) }
{
    if back { a } else { h.actives + p }
}

// The queue of a packet that leaves by the k-th output of router r, if there is one; by that to the unit it is q.
fn routed(
    h: Head,
    t: &PlanTables,
    r: usize,
    k: usize,
    q: Option<usize>,
    back: bool,
    a: usize,
    p: usize,
) -> Option<usize>
    requires { Counts h × (r < 16) × (k < 6) × (a < 16) × (p < 16) }
    ensures queue { unwrap_or result no_queue
        ≡ routed_of h t.now.routes t.now.joints r k (unwrap_or q no_queue) back a p }
    ensures below { IfSome q (λ n. n < no_queue) → IfSome result (λ n. n < no_queue) }
{
    if k < 4 {
        return across(h, &t.routes, t.joints[4 * r + k], back, a);
    }
    if k == 4 {
        return q;
    }
    let base = base_of(h, r);
    let d = column_of(h, back, a, p);
    let o = side_out(&t.routes, r, d);
    leaves(base, back, o)
}

// The queue of a packet that leaves by output m, if there is one; by an output to a unit it is q.
fn next_of(
    h: Head,
    t: &PlanTables,
    m: usize,
    q: Option<usize>,
    back: bool,
    a: usize,
    p: usize,
) -> Option<usize>
    requires { Counts h × (m < outputs_of h) × (a < 16) × (p < 16)
        × ((d : ℕ) → d < destinations h → get_or t.now.homes d 0 < 64) }
    ensures queue { unwrap_or result no_queue
        ≡ next_of h t.now.routes t.now.joints t.now.homes m (unwrap_or q no_queue) back a p }
    ensures below { IfSome q (λ n. n < no_queue) → IfSome result (λ n. n < no_queue) }
{
    let n = h.actives + h.passives;
    if m < n {
        return entered(h, &t.routes, usize::from(t.homes[m]), back, a);
    }
    routed(h, t, (m - n) / 6, (m - n) % 6, q, back, a, p)
}

// The number of the queue that a packet joins as it leaves by output m, if there is one. Where that leads to a unit,
// the caller knows the queue there, q: who sends from U[i] sends to Q[i], and who has only the wire looks it up.
pub fn next(h: Head, t: &PlanTables, m: usize, q: Option<usize>, x: Packet) -> Option<usize>
    requires { WiringOf h t.now × (m < outputs_of h)
        × (x.active < h.actives) × (x.passive < h.passives)
        × AtUnit (plan_by h t.now) (output_at (plan_by h t.now) m) x (unwrap_or q no_queue) }
    ensures queue { unwrap_or result no_queue
        ≡ number_or (plan_by h t.now) (next_by (plan_by h t.now) (output_at (plan_by h t.now) m) x) }
    ensures below { IfSome q (λ n. n < no_queue) → IfSome result (λ n. n < no_queue) }
{
    next_of(
        h,
        t,
        m,
        q,
        x.kind.goes_back(),
        usize::from(x.active),
        usize::from(x.passive),
    )
}
