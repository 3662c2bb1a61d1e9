// All walks of a plan: at which destinations the walk from each router arrives, which pairs are served, and how long
// their walks are.
#![tactic(auto)]

ghost use Rattle.std.specs.Prelude.{◌≡◌, List, [], ℕ, ◌+◌, ◌≤◌, ◌<◌, get_or, replicate};
ghost use Rattle.plan.specs.Head.{Counts};
ghost use Rattle.load_arrivals.specs.Pairs.{mask_of, length_of, lengths_by, Walks};
ghost use Rattle.load_arrivals.specs.Tables.{PortsIn, Sweepable, near_of, nears_of};

use graph_reach::Span;
use load_arrivals::served::serves;
use load_arrivals::{far_of, firsts, nexts, port};
use plan::Head;
use plan::tables::PlanTables;
use sets::{below, both, has};

// 1 where a destination is one step away, else 0.
fn near_of(s: u32, d: usize) -> u8
    requires { d < 32 }
    ensures { result ≡ near_of s d }
{
    u8::from(has(s, d))
}

// By router and passive: 1 where the passive is one step away.
fn nears(t: &[u32; 32], homes: &[u8; 32], actives: usize, passives: usize, z: &mut [[u8; 16]; 17])
    requires { (actives ≤ 16) × (passives ≤ 16) × PortsIn homes.now (actives + passives)
        × (z.old ≡ replicate 17 (replicate 16 0)) }
    ensures { z.new ≡ nears_of t.now homes.now actives passives }
{
    for p in 0..passives {
        let k = port(homes, actives + p, actives + passives);
        z[k / 4][p] = near_of(t[k / 4], actives + p);
    }
}

// A router's sizes for the passives of a set, else 0.
fn masked(sizes: &[u8; 16], w: u32, column: usize) -> [u8; 16]
    requires { column ≤ 16 }
    ensures { (z : List (List ℕ)) (x : ℕ) → sizes.now ≡ get_or z x [] → result ≡ mask_of z x w column }
{
    let mut t = [0u8; 16];
    for (p, size) in t.iter_mut().enumerate() {
        *size = if has(w, column + p) { sizes[p] } else { 0 };
    }
    t
}

// The lengths of the walks of an active at a router of these sizes that is served with w, where its walks arrive at v.
fn length_row(sizes: &[u8; 16], w: u32, v: u32, column: usize) -> [u8; 16]
    requires { column ≤ 16 }
    ensures { (z : List (List ℕ)) (x : ℕ) → sizes.now ≡ get_or z x [] → result ≡ length_of z x w v column }
{
    if w == v {
        return *sizes;
    }
    masked(sizes, w, column)
}

// By active and passive: the length of a served pair's walk, else 0.
fn lengths_of(
    z: &[[u8; 16]; 17],
    arrive: &[u32; 32],
    served: &[u32; 16],
    homes: &[u8; 32],
    h: Head,
    t: &mut [[u8; 16]; 16],
)
    requires { Counts h × PortsIn homes.now (h.actives + h.passives) × (t.old ≡ replicate 16 (replicate 16 0)) }
    ensures { t.new ≡ lengths_by z.now arrive.now served.now homes.now h }
{
    let n = h.actives + h.passives;
    let far = far_of(h);
    for (a, row) in t[..h.actives].iter_mut().enumerate() {
        let x = port(homes, a, n) / 4;
        *row = length_row(&z[x], served[a], both(arrive[x], far), h.actives);
    }
}

// All walks of a plan whose tables, but for the lengths, are filled: where they arrive, by router; how long those of
// served pairs are, by active and passive; and which pairs are served, by active. The lengths and the lent table of
// arrivals are filled in place.
pub fn walks(h: Head, t: &mut PlanTables, arrive: &mut [u32; 32]) -> [u32; 16]
    requires { Sweepable h t.old × (arrive.old ≡ replicate 32 0) × (t.old.lengths ≡ replicate 16 (replicate 16 0)) }
    ensures walks { Walks h t.old.routes t.old.joints t.old.homes t.old.by arrive.new t.new.lengths result }
    ensures kept { (t.new.routes ≡ t.old.routes) × (t.new.joints ≡ t.old.joints) × (t.new.homes ≡ t.old.homes)
        × (t.new.by ≡ t.old.by) }
{
    let n = h.actives + h.passives;
    let next = nexts(&t.joints, h.routers);
    firsts(&t.by, &t.homes, n, arrive);
    let mut z = [[0u8; 16]; 17];
    nears(arrive, &t.homes, h.actives, h.passives, &mut z);
    let s = Span {
        routers: h.routers,
        all: below(n),
        sized: far_of(h),
        column: h.actives,
    };
    let all = graph_reach::reach(&t.by, &next, &t.routes, s, arrive, &mut z);
    let served = serves(h, t, arrive, all);
    lengths_of(&z, arrive, &served, &t.homes, h, &mut t.lengths);
    served
}
