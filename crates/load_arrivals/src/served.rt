// Which pairs are served: those whose walk arrives and meets no router without a way back to the active.
ghost use Rattle.std.specs.Prelude.{◌≡◌, true, false, List, [], ℕ, ◌+◌, ◌≤◌, ◌<◌, eqb, get_or, length};
ghost use Rattle.basis.specs.Choice.{pick};
ghost use Rattle.basis.specs.Bounded.{all_below};
ghost use Rattle.sets.specs.Sets.{has, single, either, less};
ghost use Rattle.graph_met.specs.Trails.{Blank};
ghost use Rattle.plan.specs.Head.{Counts};
ghost use Rattle.load_arrivals.specs.Tables.{PortsIn, OnlyBelow, Sweepable};
ghost use Rattle.load_arrivals.specs.Pairs.{at_home, at_homes, plain_of, Lacking, Sift, Chosen, Choices, Servings};

use crate::tracks::tracks_in;
use crate::{far_of, port};
use plan::Head;
use plan::tables::PlanTables;
use sets::each::Members;
use sets::{below, both, has, less, with, without};

// A plan of few routers has at most so many.
const FEW: usize = 4;

// The most routers.
const MOST: usize = 16;

// A set with router r, unless it has a way back.
fn lack(s: u32, r: usize, back: bool) -> u32
    requires { r < 32 }
    ensures { result ≡ pick back s (either s (single r)) }
{
    if back { s } else { with(s, r) }
}

// The routers that have no way back to an active.
fn missing(arrive: &[u32; 32], routers: usize, a: usize) -> u32
    requires { (routers ≤ 16) × (a < 32) }
    ensures { Lacking arrive.now a routers result }
{
    let mut s = 0u32;
    for (r, actives) in arrive[..routers].iter().enumerate() {
        s = lack(s, r, has(*actives, a));
    }
    s
}

// A set without destination d, unless its walk meets none.
fn kept(w: u32, d: usize, met: u32) -> u32
    requires { d < 32 }
    ensures { result ≡ pick (eqb met 0) w (less w (single d)) }
{
    if met == 0 { w } else { without(w, d) }
}

// The destinations of a set whose walk from router x meets none of the routers missing.
fn sift(up: &[[u32; 32]], x: usize, v: u32, missing: u32) -> u32
    requires { (x < 16) × ((d : ℕ) → has v d ≡ true → x < length up.now) }
    ensures { Sift up.now x v missing result }
{
    let mut w = v;
    for d in Members::of(v) {
        w = kept(w, d, both(up[x][d], missing));
    }
    w
}

// The passives at which an active's walk arrives.
fn at_home(arrive: &[u32; 32], homes: &[u8; 32], h: Head, a: usize) -> u32
    requires { Counts h × (a < h.actives) × PortsIn homes.now (h.actives + h.passives) }
    ensures { result ≡ at_home homes.now arrive.now h a }
{
    let x = port(homes, a, h.actives + h.passives) / 4;
    both(arrive[x], far_of(h))
}

// By active: the passives at which its walk arrives.
fn at_homes(arrive: &[u32; 32], homes: &[u8; 32], h: Head) -> [u32; 16]
    requires { Counts h × PortsIn homes.now (h.actives + h.passives) }
    ensures { result ≡ at_homes homes.now arrive.now h }
{
    let mut t = [0u32; 16];
    for (a, passives) in t[..h.actives].iter_mut().enumerate() {
        *passives = at_home(arrive, homes, h, a);
    }
    t
}

// An active is served with all at which its walk arrives: there is none, or all routers have a way back to it.
fn plain(all: u32, a: usize, v: u32) -> bool
    requires { a < 32 }
    ensures { result ≡ plain_of all a v }
{
    if v == 0 {
        return true;
    }
    has(all, a)
}

// So are all actives.
fn plains(all: u32, t: &[u32; 16], actives: usize) -> bool
    requires { actives ≤ 16 }
    ensures { result ≡ all_below actives (λ a. plain_of all a (get_or t.now a 0)) }
{
    (0..actives).all(|a| plain(all, a, t[a]))
}

// The passives that an active is served with, by the words of all walks.
fn serve(up: &[[u32; 32]], homes: &[u8; 32], arrive: &[u32; 32], h: Head, all: u32, a: usize) -> u32
    requires { Counts h × (a < h.actives) × PortsIn homes.now (h.actives + h.passives)
        × OnlyBelow h.routers arrive.now × (h.routers ≤ length up.now) }
    ensures { Chosen homes.now arrive.now h all up.now a result }
{
    let v = at_home(arrive, homes, h, a);
    if plain(all, a, v) {
        return v;
    }
    let x = port(homes, a, h.actives + h.passives) / 4;
    sift(up, x, v, missing(arrive, h.routers, a))
}

// By active: the passives that it is served with, by the words of all walks.
fn sifts(up: &[[u32; 32]], homes: &[u8; 32], arrive: &[u32; 32], h: Head, all: u32) -> [u32; 16]
    requires { Counts h × PortsIn homes.now (h.actives + h.passives)
        × OnlyBelow h.routers arrive.now × (h.routers ≤ length up.now) }
    ensures { Choices homes.now arrive.now h all up.now h.actives result }
{
    let mut t = [0u32; 16];
    for (a, passives) in t[..h.actives].iter_mut().enumerate() {
        *passives = serve(up, homes, arrive, h, all, a);
    }
    t
}

// The same where the words are still to be made, in a table that has a row for each router.
fn sifted_in(
    up: &mut [[u32; 32]],
    h: Head,
    t: &PlanTables,
    arrive: &[u32; 32],
    all: u32,
) -> [u32; 16]
    requires { Sweepable h t.now × OnlyBelow h.routers arrive.now × (h.routers ≤ length up.old) × Blank up.old }
    ensures { Servings t.now.by t.now.joints t.now.homes arrive.now h all h.actives result }
{
    tracks_in(h, &t.joints, &t.homes, &t.by, up);
    sifts(up, &t.homes, arrive, h, all)
}

// The same in a plan of at most N routers.
fn sifted_by<const N: usize>(h: Head, t: &PlanTables, arrive: &[u32; 32], all: u32) -> [u32; 16]
    requires { Sweepable h t.now × OnlyBelow h.routers arrive.now × (h.routers ≤ N) × (N ≤ 16) }
    ensures { Servings t.now.by t.now.joints t.now.homes arrive.now h all h.actives result }
{
    let mut up = [[0u32; 32]; N];
    sifted_in(&mut up, h, t, arrive, all)
}

// The same in any plan; the table of words is as large as the plan needs.
fn sifted(h: Head, t: &PlanTables, arrive: &[u32; 32], all: u32) -> [u32; 16]
    requires { Sweepable h t.now × OnlyBelow h.routers arrive.now }
    ensures { Servings t.now.by t.now.joints t.now.homes arrive.now h all h.actives result }
{
    if h.routers <= FEW {
        return sifted_by::<FEW>(h, t, arrive, all);
    }
    sifted_by::<MOST>(h, t, arrive, all)
}

// By active: the passives that it is served with. The words of the walks are made only where some active needs them.
fn needed(h: Head, t: &PlanTables, arrive: &[u32; 32], all: u32) -> [u32; 16]
    requires { Sweepable h t.now × OnlyBelow h.routers arrive.now }
    ensures { Servings t.now.by t.now.joints t.now.homes arrive.now h all h.actives result }
{
    let w = at_homes(arrive, &t.homes, h);
    if plains(all, &w, h.actives) {
        return w;
    }
    sifted(h, t, arrive, all)
}

// The same; where all routers have a way back to all actives nothing is left to be asked.
pub fn serves(h: Head, t: &PlanTables, arrive: &[u32; 32], all: u32) -> [u32; 16]
    requires { Sweepable h t.now × OnlyBelow h.routers arrive.now }
    ensures { Servings t.now.by t.now.joints t.now.homes arrive.now h all h.actives result }
{
    if less(below(h.actives), all) == 0 {
        return at_homes(arrive, &t.homes, h);
    }
    needed(h, t, arrive, all)
}
