// May a packet stand in a queue? Looked up in tables: which routers each walk meets and how many, what joins each
// port.
#![tactic(auto)]

ghost use Rattle.std.specs.Prelude.{◌≡◌, true, List, [], ℕ, ◌+◌, ◌*◌, ◌/◌, ◌≤◌, ◌<◌, get_or, IfSome};
ghost use Rattle.std.specs.Option.{unwrap_or};
ghost use Rattle.sets.specs.Sets.{has};
ghost use Rattle.plan.specs.declared.Head.{Head};
ghost use Rattle.plan.specs.Tables.{table_plan};
ghost use Rattle.plan.specs.Lent.{plan_by};
ghost use Rattle.plan.specs.Plan.{no_side};
ghost use Rattle.plan_queues.specs.Queue.{queue_at};
ghost use Rattle.plan_queues.specs.Feeds.{came_in, head_place};
ghost use Rattle.valid.specs.Test.{fits_test};
ghost use Rattle.check_places.specs.Asked.{Asked, AskedOf};
ghost use Rattle.check_places.specs.Look.{trip_of, standing_of, onward_of, nth_of, frees_up_to, coming};
ghost use Rattle.check_places.specs.Look.{leaving, unit_by, next_by, comes_by, SideIn, side_by};
ghost use Rattle.check_places.specs.Look.{column_of, out_by, nack_by, answer_by, cross_by, Marked};
ghost use Rattle.check_places.specs.Look.{Led, active_out_as, passive_out_as, active_in_as};
ghost use Rattle.check_places.specs.Look.{passive_in_as, sent_by, received_by, sender_by, router_by, fits_by};

use kinds::{Hub, Slot};
use packets::{Kind, Packet};
use plan::tables::PlanTables;
use sets::has;

// A pair's walk: the active's port, the passive's column, and how many routers it has.
#[derive(Clone, Copy, PartialEq, Eq)]
pub struct Trip {
    pub home: usize,
    pub column: usize,
    pub length: usize,
}

// A router on a walk: how many routers come before it, and how many from it on; none from it on where it is off
// the walk.
#[derive(Clone, Copy, PartialEq, Eq)]
pub struct Standing {
    pub behind: usize,
    pub ahead: usize,
}

// The walk of a packet's pair.
fn trip_of(actives: usize, tables: &PlanTables, x: Packet) -> Trip
    requires { (actives ≤ 16) × (x.active < 16) × (x.passive < 16) }
    ensures { result ≡ trip_of actives tables.now.homes tables.now.lengths x }
{
    let a = usize::from(x.active);
    let p = usize::from(x.passive);
    let home = usize::from(tables.homes[a]);
    let length = usize::from(tables.lengths[a][p]);
    Trip {
        home,
        column: actives + p,
        length,
    }
}

// How many routers a track has.
fn size_of(track: u32) -> usize
    ensures { result ≡ track / 65536 }
{
    (track / 65536) as usize
}

// Where a router stands on a pair's walk.
fn spot(up: &[[u32; 32]; 17], t: Trip, r: usize) -> Standing
    requires { Marked up.now t × (r < 16) }
    ensures { result ≡ standing_of up.now t r }
{
    let y = t.home / 4;
    let d = t.column;
    if !has(up[y][d], r) {
        return Standing {
            behind: 0,
            ahead: 0,
        };
    }
    let ahead = size_of(up[r][d]);
    Standing {
        behind: t.length - ahead,
        ahead,
    }
}

// A tear-down's hub: 1 to the routers still ahead.
fn frees(hub: usize, ahead: usize) -> bool
    ensures { result ≡ frees_up_to hub ahead }
{
    if hub == 0 {
        return false;
    }
    hub <= ahead
}

// May a packet come to a unit?
fn comes(v: Standing, x: Packet) -> bool
    ensures { result ≡ coming v x.kind x.hub.0 }
{
    if v.ahead == 0 {
        return false;
    }
    let hub = usize::from(x.hub.0);
    match x.kind {
        Kind::Setup => hub == v.behind,
        Kind::Tdown => frees(hub, v.ahead),
        Kind::Ack => false,
        Kind::Nack => false,
    }
}

// May a packet leave a unit, handled?
fn leaves(v: Standing, x: Packet) -> bool
    requires { v.behind < 256 }
    ensures { result ≡ leaving v x.kind x.hub.0 }
{
    if v.ahead == 0 {
        return false;
    }
    let hub = usize::from(x.hub.0);
    match x.kind {
        Kind::Setup => hub == v.behind + 1,
        Kind::Tdown => frees(hub, v.ahead - 1),
        Kind::Ack => false,
        Kind::Nack => hub == v.behind,
    }
}

// Does the joint of a port lead to a router of a track, and back for a column?
fn next_by(tables: &PlanTables, track: u32, d: usize, port: usize) -> bool
    requires { (d < 32) × (port < 64) }
    ensures { result ≡ next_by tables.now.joints tables.now.by track d port }
{
    let v = usize::from(tables.joints[port]);
    if v / 64 != 1 {
        return false;
    }
    let c = v / 4 % 16;
    if !has(track, c) {
        return false;
    }
    has(tables.by[c][v % 4], d)
}

// Does the walk to a column's interface from a port come in by another?
fn comes_by(tables: &PlanTables, up: &[[u32; 32]; 17], from: usize, d: usize, port: usize) -> bool
    requires { (from < 64) × (d < 32) × (port < 64) }
    ensures { result ≡ comes_by tables.now.joints tables.now.by up.now from d port }
{
    if from == port {
        return true;
    }
    next_by(tables, up[from / 4][d], d, port)
}

// The side by which the walk to a column's interface from a port comes in to router r, if it meets r.
fn side_in(
    tables: &PlanTables,
    up: &[[u32; 32]; 17],
    from: usize,
    d: usize,
    r: usize,
) -> Option<usize>
    requires { (from < 64) × (d < 32) × (r < 16) }
    ensures side { SideIn tables.now.joints tables.now.by up.now from d r (unwrap_or result no_side) }
    ensures below { IfSome result (λ i. i < 4) }
{
    if from / 4 == r {
        return Some(from % 4);
    }
    (0..4).find(|&i| next_by(tables, up[from / 4][d], d, 4 * r + i))
}

// The side by which the walk of a served pair comes in to router r, if it meets r: looked up among the routers that
// each walk meets.
pub fn came_in(
    actives: usize,
    tables: &PlanTables,
    up: &[[u32; 32]; 17],
    x: Packet,
    r: usize,
) -> Option<usize>
    requires { (actives ≤ 16) × (x.active < 16) × (x.passive < 16) × (get_or tables.now.homes x.active 0 < 64)
        × (r < 16) }
    ensures side { (h : Head) (outs inner : ℕ) (routes lengths : List (List ℕ))
        → Asked h actives outs inner routes tables.now.joints tables.now.homes lengths tables.now.by
        up.now x.active x.passive
        → unwrap_or result no_side ≡ came_in (table_plan h routes tables.now.joints) x.active x.passive r }
    ensures below { IfSome result (λ i. i < 4) }
{
    let from = usize::from(tables.homes[usize::from(x.active)]);
    side_in(tables, up, from, actives + usize::from(x.passive), r)
}

// At a unit, from a side: handled or not.
fn at_unit(
    tables: &PlanTables,
    up: &[[u32; 32]; 17],
    t: Trip,
    port: usize,
    done: bool,
    x: Packet,
) -> bool
    requires { Marked up.now t × (port < 64) }
    ensures { result ≡ unit_by tables.now.joints tables.now.by up.now t port done x.kind
        x.hub.0 }
{
    if !comes_by(tables, up, t.home, t.column, port) {
        return false;
    }
    let v = spot(up, t, port / 4);
    if done {
        return leaves(v, x);
    }
    comes(v, x)
}

// From a side to the unit.
fn at_side(tables: &PlanTables, up: &[[u32; 32]; 17], t: Trip, port: usize, x: Packet) -> bool
    requires { Marked up.now t × (port < 64) }
    ensures { result ≡ side_by tables.now.joints tables.now.by
        up.now t port x.kind x.hub.0 }
{
    let v = spot(up, t, port / 4);
    if !comes(v, x) {
        return false;
    }
    comes_by(tables, up, t.home, t.column, port)
}

// The column of a packet's destination.
fn column_of(t: Trip, x: Packet) -> usize
    requires { (t.column < 32) × (x.active < 16) }
    ensures { (result ≡ column_of t x.active x.kind) × (result < 32) }
{
    let a = usize::from(x.active);
    match x.kind {
        Kind::Setup => t.column,
        Kind::Tdown => t.column,
        Kind::Ack => a,
        Kind::Nack => a,
    }
}

// From a unit to a side.
fn at_out(
    routes: &[[u8; 32]; 16],
    up: &[[u32; 32]; 17],
    t: Trip,
    r: usize,
    o: usize,
    x: Packet,
) -> bool
    requires { Marked up.now t × (r < 16) × (x.active < 16) }
    ensures { result ≡ out_by routes.now up.now t r o x.active x.kind x.hub.0 }
{
    let d = column_of(t, x);
    if usize::from(routes[r][d]) != o {
        return false;
    }
    let v = spot(up, t, r);
    leaves(v, x)
}

// The router that a walk goes to from a router.
fn onward(tables: &PlanTables, d: usize, r: usize) -> usize
    requires { (d < 32) × (r < 16) × (get_or (get_or tables.now.routes r []) d 0 < 4) }
    ensures { (result ≡ onward_of tables.now.routes tables.now.joints d r) × (result < 16) }
{
    let side = usize::from(tables.routes[r][d]);
    let v = usize::from(tables.joints[4 * r + side]);
    v / 4 % 16
}

// The n-th router of a pair's walk.
fn nth(tables: &PlanTables, t: Trip, n: usize) -> usize
    requires { (t.home < 64) × (t.column < 32) × (n < t.length) × Led tables.now.routes tables.now.joints t }
    ensures { (result ≡ nth_of tables.now.routes tables.now.joints t n) × (result < 16) }
{
    let d = t.column;
    let mut r = t.home / 4;
    for _ in 0..n {
        r = onward(tables, d, r);
    }
    r
}

// A NACK of a router of the walk comes in by a port.
fn nack_by(tables: &PlanTables, up: &[[u32; 32]; 17], t: Trip, port: usize, x: Packet) -> bool
    requires { Marked up.now t × Led tables.now.routes tables.now.joints t × (port < 64) × (x.active < 16) }
    ensures { result ≡ nack_by tables.now.routes tables.now.joints tables.now.by
        up.now t x.active port x.hub.0 }
{
    let hub = usize::from(x.hub.0);
    if t.length <= hub {
        return false;
    }
    let a = usize::from(x.active);
    let r = nth(tables, t, hub);
    next_by(tables, up[r][a], a, port)
}

// An answer of the passive comes in by a port.
fn far_by(tables: &PlanTables, up: &[[u32; 32]; 17], t: Trip, port: usize, x: Packet) -> bool
    requires { (t.column < 32) × (get_or tables.now.homes t.column 0 < 64) × (port < 64) × (x.active < 16) }
    ensures { result ≡ comes_by tables.now.joints tables.now.by up.now (get_or
        tables.now.homes t.column 0) x.active port }
{
    let d = t.column;
    let from = usize::from(tables.homes[d]);
    let a = usize::from(x.active);
    comes_by(tables, up, from, a, port)
}

// An answer comes in by a port: with the walk's length as its hub from the passive, or else a NACK from a router.
fn answer_by(tables: &PlanTables, up: &[[u32; 32]; 17], t: Trip, port: usize, x: Packet) -> bool
    requires { Marked up.now t × Led tables.now.routes tables.now.joints t × (get_or tables.now.homes t.column 0 < 64)
        × (port < 64) × (x.active < 16) }
    ensures { result ≡ answer_by tables.now.routes tables.now.joints tables.now.homes
        tables.now.by up.now t x.active port x.kind x.hub.0 }
{
    let hub = usize::from(x.hub.0);
    match x.kind {
        Kind::Setup => false,
        Kind::Tdown => false,
        Kind::Ack => {
            if hub != t.length {
                return false;
            }
            far_by(tables, up, t, port, x)
        }
        Kind::Nack => {
            if hub == t.length {
                return far_by(tables, up, t, port, x);
            }
            nack_by(tables, up, t, port, x)
        }
    }
}

// An answer that crosses a router, from a port to a side.
fn at_cross(
    tables: &PlanTables,
    up: &[[u32; 32]; 17],
    t: Trip,
    port: usize,
    o: usize,
    x: Packet,
) -> bool
    requires { Marked up.now t × Led tables.now.routes tables.now.joints t × (get_or tables.now.homes t.column 0 < 64)
        × (port < 64) × (x.active < 16) }
    ensures { result ≡ cross_by tables.now.routes tables.now.joints tables.now.homes
        tables.now.by up.now t x.active port o x.kind x.hub.0 }
{
    let a = usize::from(x.active);
    if usize::from(tables.routes[port / 4][a]) != o {
        return false;
    }
    answer_by(tables, up, t, port, x)
}

// A sender of a router's side: its unit, or another side, by rank.
fn at_sender(
    tables: &PlanTables,
    up: &[[u32; 32]; 17],
    t: Trip,
    r: usize,
    o: usize,
    j: usize,
    x: Packet,
) -> bool
    requires { Marked up.now t × Led tables.now.routes tables.now.joints t × (get_or tables.now.homes t.column 0 < 64)
        × (r < 16) × (j < 5) × (x.active < 16) }
    ensures { result ≡ sender_by tables.now.routes tables.now.joints tables.now.homes
        tables.now.by up.now t x r o j }
{
    if j == 0 {
        if x.kind.goes_back() {
            return false;
        }
        return at_out(&tables.routes, up, t, r, o, x);
    }
    if j == 1 {
        if x.kind.goes_back() {
            return at_out(&tables.routes, up, t, r, o, x);
        }
        return false;
    }
    if j - 2 < o {
        return at_cross(tables, up, t, 4 * r + (j - 2), o, x);
    }
    at_cross(tables, up, t, 4 * r + (j - 1), o, x)
}

// A queue of a router, by its place among the router's.
fn at_router(
    tables: &PlanTables,
    up: &[[u32; 32]; 17],
    t: Trip,
    r: usize,
    k: usize,
    done: bool,
    x: Packet,
) -> bool
    requires { Marked up.now t × Led tables.now.routes tables.now.joints t × (get_or tables.now.homes t.column 0 < 64)
        × (r < 16) × (k < 28) × (x.active < 16) }
    ensures { result ≡ router_by tables.now.routes tables.now.joints tables.now.homes
        tables.now.by up.now t x r k done }
{
    if k < 4 {
        return at_side(tables, up, t, 4 * r + k, x);
    }
    if k < 8 {
        return at_unit(tables, up, t, 4 * r + (k - 4), done, x);
    }
    at_sender(tables, up, t, r, (k - 8) / 5, (k - 8) % 5, x)
}

// In an active's out-queue.
fn active_out(length: usize, x: Packet) -> bool
    ensures { result ≡ active_out_as length x.hub.0 x.kind }
{
    let hub = usize::from(x.hub.0);
    match x.kind {
        Kind::Setup => hub == 0,
        Kind::Tdown => frees(hub, length),
        Kind::Ack => false,
        Kind::Nack => false,
    }
}

// In a passive's out-queue.
fn passive_out(length: usize, x: Packet) -> bool
    ensures { result ≡ passive_out_as length x.hub.0 x.kind }
{
    let hub = usize::from(x.hub.0);
    match x.kind {
        Kind::Setup => false,
        Kind::Tdown => false,
        Kind::Ack => hub == length,
        Kind::Nack => hub == length,
    }
}

// In an active's in-queue.
fn active_in(length: usize, x: Packet) -> bool
    ensures { result ≡ active_in_as length x.hub.0 x.kind }
{
    let hub = usize::from(x.hub.0);
    match x.kind {
        Kind::Setup => false,
        Kind::Tdown => false,
        Kind::Ack => hub == length,
        Kind::Nack => hub <= length,
    }
}

// In a passive's in-queue.
fn passive_in(length: usize, x: Packet) -> bool
    ensures { result ≡ passive_in_as length x.hub.0 x.kind }
{
    let hub = usize::from(x.hub.0);
    match x.kind {
        Kind::Setup => hub == length,
        Kind::Tdown => false,
        Kind::Ack => false,
        Kind::Nack => false,
    }
}

// In the n-th out-queue, actives first.
fn sent(actives: usize, length: usize, n: usize, x: Packet) -> bool
    ensures { result ≡ sent_by actives length n x }
{
    if n < actives {
        if n != usize::from(x.active) {
            return false;
        }
        return active_out(length, x);
    }
    if n - actives != usize::from(x.passive) {
        return false;
    }
    passive_out(length, x)
}

// In the n-th in-queue, actives first.
fn received(actives: usize, length: usize, n: usize, x: Packet) -> bool
    ensures { result ≡ received_by actives length n x }
{
    if n < actives {
        if n != usize::from(x.active) {
            return false;
        }
        return active_in(length, x);
    }
    if n - actives != usize::from(x.passive) {
        return false;
    }
    passive_in(length, x)
}

// In the n-th queue: out-queues first, then inner ones of the routers, then the in-queues.
fn looked(
    actives: usize,
    outs: usize,
    inner: usize,
    tables: &PlanTables,
    up: &[[u32; 32]; 17],
    t: Trip,
    n: usize,
    done: bool,
    x: Packet,
) -> bool
    requires { (inner ≤ 448) × Marked up.now t × Led tables.now.routes tables.now.joints t
        × (get_or tables.now.homes t.column 0 < 64) × (x.active < 16) }
    ensures { result ≡ fits_by tables.now.routes tables.now.joints tables.now.homes tables.now.by
        up.now t x actives outs inner n done }
{
    if n < outs {
        return sent(actives, t.length, n, x);
    }
    let m = n - outs;
    if m < inner {
        return at_router(tables, up, t, m / 28, m % 28, done, x);
    }
    received(actives, t.length, m - inner, x)
}

// May a packet of a served pair stand in the n-th queue, or at its unit if the queue's head has been handled? Numbers
// in place of a head and a packet, which a call would have to store.
pub fn fits(
    actives: usize,
    outs: usize,
    inner: usize,
    tables: &PlanTables,
    up: &[[u32; 32]; 17],
    n: usize,
    done: bool,
    k: Kind,
    a: u8,
    p: u8,
    hub: u8,
) -> bool
    requires { (h : Head) × AskedOf h actives outs inner tables.now up.now a p }
    ensures { (h : Head) → AskedOf h actives outs inner tables.now up.now a p
        → result ≡ fits_test (plan_by h tables.now) k a p hub
        (head_place done (queue_at (plan_by h tables.now) n)) }
{
    let x = Packet {
        kind: k,
        active: a,
        passive: p,
        slot: Slot(0),
        hub: Hub(hub),
    };
    let t = trip_of(actives, tables, x);
    looked(actives, outs, inner, tables, up, t, n, done, x)
}
