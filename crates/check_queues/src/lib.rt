// The queues' rows of a state: whether credit, flag, mark and length fit and every packet belongs where it is, and
// what each active has spent.
#![tactic(auto)]

ghost use Rattle.std.specs.Prelude.{◌≡◌, Bool, true, List, [], ℕ, ◌+◌, ◌*◌, ◌≤◌, ◌<◌, get_or, length, eqb, IfSome};
ghost use Rattle.std.specs.Option.{unwrap_or};
ghost use Rattle.basis.specs.Choice.{also};
ghost use Rattle.plan.specs.Head.{Counts, InRange, destinations};
ghost use Rattle.plan.specs.Tables.{table_plan};
ghost use Rattle.plan.specs.Lent.{plan_by};
ghost use Rattle.plan_walks.specs.Served.{served};
ghost use Rattle.plan_queues.specs.Queue.{queue_at, queues};
ghost use Rattle.rules.specs.Capacity.{capacity};
ghost use Rattle.rules.specs.Valid.{on_wires};
ghost use Rattle.valid.specs.Test.{packet_test};
ghost use Rattle.bytes_layout.specs.Decode.{decode};
ghost use Rattle.bytes_steps.specs.Counts.{state_size, queue_count};
ghost use Rattle.next_queue.specs.Lent.{Lent};
ghost use Rattle.check_queues.specs.Ready.{ReadyOf};
ghost use Rattle.check_frames.specs.Tally.{tallied, Tallied};
ghost use Rattle.check_frames.specs.Frame.{frame_of, fed_in_router, fed_of, unit_of};
ghost use Rattle.check_queues.specs.Lines.{PlaceChecked, PlacesChecked, RowChecked, RowsChecked, Coming, LinesChecked};
ghost use Rattle.check_queues.specs.Lines.{cap_in, router_caps, Rests, Skipped};

use bytes_steps::PHASE_BYTE;
use packets::{Kind, Packet, Phase};
use plan::Head;
use plan::tables::PlanTables;

// Counts a packet for its active.
pub fn tally(spent: &mut [u8; 16], x: Packet)
    requires { x.active < 16 }
    ensures { spent.new ≡ tallied x spent.old }
{
    let a = usize::from(x.active);
    spent[a] = check_frames::counted(spent[a], check_frames::spends(x.kind));
}

// Whether a packet's numbers are the plan's and its pair is served.
pub fn packet_ok(h: Head, lengths: &[[u8; 16]; 16], x: Packet) -> bool
    requires { InRange h }
    ensures { (routes : List (List ℕ)) (joints homes : List ℕ) (by : List (List ℕ))
        → Lent h routes joints homes lengths.now by
        → result ≡ also (packet_test (table_plan h routes joints) x)
        (served (table_plan h routes joints) x.active x.passive) }
{
    let a = usize::from(x.active);
    let p = usize::from(x.passive);
    if h.actives <= a {
        return false;
    }
    if h.passives <= p {
        return false;
    }
    if h.slots <= x.slot.0 {
        return false;
    }
    if 16 < x.hub.0 {
        return false;
    }
    lengths[a][p] != 0
}

// Whether the packet at place k of queue n, whose places begin at i, belongs there; it is counted.
fn place_ok(
    h: Head,
    t: &PlanTables,
    up: &[[u32; 32]; 17],
    s: &[u8],
    n: usize,
    done: bool,
    i: usize,
    k: usize,
    spent: &mut [u8; 16],
) -> bool
    requires { ReadyOf h t.now up.now × (n < queue_count h)
        × (k < 7)
        × (i + 5 * k + 5 ≤ length s.now) }
    ensures { PlaceChecked (plan_by h t.now)
        (queue_at (plan_by h t.now) n) done i s.now k result
        spent.old spent.new }
{
    let at = i + 5 * k;
    if u8::from(Kind::Nack) < s[at] {
        return false;
    }
    let x = bytes_rows::packet_at(s, at);
    if !packet_ok(h, &t.lengths, x) {
        return false;
    }
    let first = check_frames::of_head(done, k);
    if !check_places::fits(
        h.actives,
        h.actives + h.passives,
        28 * h.routers,
        t,
        up,
        n,
        first,
        x.kind,
        x.active,
        x.passive,
        x.hub.0,
    ) {
        return false;
    }
    tally(spent, x);
    true
}

// The same of the first m places.
fn places_ok(
    h: Head,
    t: &PlanTables,
    up: &[[u32; 32]; 17],
    s: &[u8],
    n: usize,
    done: bool,
    m: usize,
    i: usize,
    spent: &mut [u8; 16],
) -> bool
    requires { ReadyOf h t.now up.now × (n < queue_count h)
        × (m ≤ 7)
        × (i + 35 ≤ length s.now) }
    ensures { PlacesChecked (plan_by h t.now)
        (queue_at (plan_by h t.now) n) done m i s.now result
        spent.old spent.new }
{
    for k in 0..m {
        if !place_ok(h, t, up, s, n, done, i, k, spent) {
            return false;
        }
    }
    true
}

// Whether the first four bytes of the row of queue n, which stands at i, fit, w packets being on the way to it.
fn row_frame(h: Head, joints: &[u8; 64], s: &[u8], n: usize, i: usize, cap: u8, w: u8) -> bool
    requires { Counts h × (i + 39 ≤ length s.now) }
    ensures { result ≡ frame_of cap (fed_of h joints.now n) (unit_of h n) (eqb (get_or s.now 0 0) 1)
        (get_or s.now i 0) (get_or s.now (i + 1) 0) (get_or s.now (i + 2) 0)
        (get_or s.now (i + 3) 0) w }
{
    let fed = check_frames::fed_at(h, joints, n);
    let unit = check_frames::unit_at(h, n);
    let executes = s[PHASE_BYTE] == u8::from(Phase::Execute);
    check_frames::frame_ok(
        cap,
        fed,
        unit,
        executes,
        s[i],
        s[i + 1],
        s[i + 2],
        s[i + 3],
        w,
    )
}

// Whether the row of queue n fits, w packets being on the way to it; its packets are counted.
fn row_busy(
    h: Head,
    t: &PlanTables,
    up: &[[u32; 32]; 17],
    s: &[u8],
    n: usize,
    cap: u8,
    w: u8,
    spent: &mut [u8; 16],
) -> bool
    requires { ReadyOf h t.now up.now × (n < queue_count h)
        × (state_size h ≤ length s.now)
        × (cap ≡ capacity h (queue_at (plan_by h t.now) n))
        × (w ≡ on_wires (plan_by h t.now) (queue_at (plan_by h t.now) n)
        (decode (plan_by h t.now) s.now)) }
    ensures { RowChecked (plan_by h t.now) s.now n result
        spent.old spent.new }
{
    let i = bytes_steps::queue_row(n);
    if !row_frame(h, &t.joints, s, n, i, cap, w) {
        return false;
    }
    let m = usize::from(s[i + 3]);
    if !check_idle::zeros(s, i + 4 + 5 * m, 35 - 5 * m) {
        return false;
    }
    let done = s[i + 2] != 0;
    places_ok(h, t, up, s, n, done, m, i + 4, spent)
}

// Whether the row of queue n is idle and nothing is on the way to it.
fn rests(s: &[u8], n: usize, cap: u8, w: u8) -> bool
    requires { (n < 512) × (41 + 39 * n ≤ length s.now) }
    ensures { result ≡ true → Rests s.now n cap w }
{
    if w != 0 {
        return false;
    }
    check_idle::idle(s, bytes_steps::queue_row(n), cap)
}

// The first row from k on that does not rest.
fn busy_from(
    s: &[u8],
    coming: &[u8; 512],
    caps: &[u8; 28],
    from: usize,
    k: usize,
    m: usize,
) -> Option<usize>
    requires { (k ≤ m) × (m ≤ 28) × (from + m ≤ 512) × (2 + 39 * (from + m) ≤ length s.now) }
    ensures { Skipped s.now coming.now caps.now from k m (unwrap_or result m) × IfSome result (λ j. j < m) }
{
    (k..m).find(|&j| !rests(s, from + j, caps[j], coming[from + j]))
}

// The rows of m queues from `from` on, their capacities in caps; coming says of each queue how many packets are on the
// way. It goes from one row that does not rest to the next.
fn rows_ok(
    h: Head,
    t: &PlanTables,
    up: &[[u32; 32]; 17],
    s: &[u8],
    coming: &[u8; 512],
    from: usize,
    m: usize,
    caps: &[u8; 28],
    spent: &mut [u8; 16],
) -> bool
    requires { ReadyOf h t.now up.now
        × (from + m ≤ queue_count h)
        × (m ≤ 28) × (state_size h ≤ length s.now)
        × ((k : ℕ) → k < m → get_or caps.now k 0 ≡ capacity h
        (queue_at (plan_by h t.now) (from + k)))
        × Coming (plan_by h t.now) s.now coming.now }
    ensures { RowsChecked (plan_by h t.now) s.now from m result
        spent.old spent.new }
{
    let mut k = 0;
    while let Some(j) = busy_from(s, coming, caps, from, k, m) {
        if !row_busy(h, t, up, s, from + j, caps[j], coming[from + j], spent) {
            return false;
        }
        k = j + 1;
    }
    true
}

// The capacity of the k-th queue of a router: U, Q, and for each side F and three K.
fn cap_in(h: Head, k: usize) -> u8
    ensures { result ≡ cap_in h k }
{
    if k < 4 {
        return h.u.0;
    }
    if k < 8 {
        return h.q.0;
    }
    if (k - 8) % 5 < 2 {
        return h.f.0;
    }
    h.k.0
}

// The capacities of a router's queues.
fn router_caps(h: Head) -> [u8; 28]
    ensures { result ≡ router_caps h }
{
    let mut t = [0u8; 28];
    for (k, cap) in t.iter_mut().enumerate() {
        *cap = cap_in(h, k);
    }
    t
}

// The rows of all routers.
fn routers_ok(
    h: Head,
    t: &PlanTables,
    up: &[[u32; 32]; 17],
    s: &[u8],
    coming: &[u8; 512],
    spent: &mut [u8; 16],
) -> bool
    requires { ReadyOf h t.now up.now
        × (state_size h ≤ length s.now) × Coming (plan_by h t.now) s.now coming.now }
    ensures { RowsChecked (plan_by h t.now) s.now
        (destinations h) (28 * h.routers) result spent.old spent.new }
{
    let n = h.routers;
    let d = h.actives + h.passives;
    let caps = router_caps(h);
    for r in 0..n {
        if !rows_ok(h, t, up, s, coming, d + 28 * r, 28, &caps, spent) {
            return false;
        }
    }
    true
}

// The rows of the interfaces' queues that begin at queue `from`, actives first.
fn interfaces_ok(
    h: Head,
    t: &PlanTables,
    up: &[[u32; 32]; 17],
    s: &[u8],
    coming: &[u8; 512],
    from: usize,
    cap: u8,
    more: u8,
    spent: &mut [u8; 16],
) -> bool
    requires { ReadyOf h t.now up.now
        × (from + destinations h ≤ queue_count h)
        × (state_size h ≤ length s.now) × Coming (plan_by h t.now) s.now coming.now
        × ((k : ℕ) → k < h.actives → cap ≡ capacity h (queue_at (plan_by h t.now) (from + k)))
        × ((k : ℕ) → k < h.passives
        → more ≡ capacity h (queue_at (plan_by h t.now) (from + h.actives + k))) }
    ensures { RowsChecked (plan_by h t.now) s.now from
        (destinations h) result
        spent.old spent.new }
{
    let caps = [cap; 28];
    if !rows_ok(h, t, up, s, coming, from, h.actives, &caps, spent) {
        return false;
    }
    let others = [more; 28];
    rows_ok(
        h,
        t,
        up,
        s,
        coming,
        from + h.actives,
        h.passives,
        &others,
        spent,
    )
}

// All rows.
pub fn lines_ok(
    h: Head,
    t: &PlanTables,
    up: &[[u32; 32]; 17],
    s: &[u8],
    coming: &[u8; 512],
    spent: &mut [u8; 16],
) -> bool
    requires { ReadyOf h t.now up.now
        × (state_size h ≤ length s.now) × Coming (plan_by h t.now) s.now coming.now }
    ensures { LinesChecked (plan_by h t.now) s.now result
        spent.old spent.new }
{
    if !interfaces_ok(h, t, up, s, coming, 0, h.aout.0, h.pout.0, spent) {
        return false;
    }
    if !routers_ok(h, t, up, s, coming, spent) {
        return false;
    }
    let from = h.actives + h.passives + 28 * h.routers;
    interfaces_ok(h, t, up, s, coming, from, h.ain.0, h.pin.0, spent)
}
