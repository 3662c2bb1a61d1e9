// What leaves by each side, and the cells that lead from crossing to crossing (crate graph_ring).
#![tactic(auto)]

// What is where at first, and what comes to each router.
pub mod starts;

ghost use Rattle.std.specs.Prelude.{◌≡◌, ◌+◌, ◌*◌, ◌≤◌, ◌<◌, eqb, get_or, length, replicate};
ghost use Rattle.basis.specs.Choice.{pick};
ghost use Rattle.sets.specs.Sets.{both, single};
ghost use Rattle.graph_links.specs.Cells.{leave_of, leaves_of, leaving_of, cross_of, CrossCells};

use graph_flow::partner;
use sets::{Word, both, either, single};

// What of a set leaves router x by side o.
fn leave(by: &[[u32; 4]; 16], t: &[u32; 32], limit: u32, x: usize, o: usize) -> u32
    requires { (x < 16) × (o < 4) }
    ensures { result ≡ leave_of by.now t.now limit (4 * x + o) }
{
    both(both(by[x][o], t[x]), limit)
}

// By port of n routers: what of the sets of its router leaves by it.
pub fn leaves(by: &[[u32; 4]; 16], t: &[u32; 32], limit: u32, n: usize, l: &mut [u32; 64])
    requires { (n ≤ 16) × (l.old ≡ replicate 64 0) }
    ensures { l.new ≡ leaves_of by.now t.now limit (4 * n) }
{
    for x in 0..n {
        l[4 * x] = leave(by, t, limit, x, 0);
        l[4 * x + 1] = leave(by, t, limit, x, 1);
        l[4 * x + 2] = leave(by, t, limit, x, 2);
        l[4 * x + 3] = leave(by, t, limit, x, 3);
    }
}

// The set of i alone, if some of m leave by port k; else the empty set.
fn leaving<W: Word>(l: &[u32; 64], m: u32, k: usize, i: usize) -> W
    requires { (k < 64) × (i < W.digits) }
    ensures { W.value result ≡ pick (eqb (both m (get_or l.now k 0)) 0) 0 (single i) }
{
    if both(m, l[k]) == 0 {
        return W::narrow(0);
    }
    single(i)
}

// The sides of router q that some of m leave by, as numbers from `from`.
pub fn leaving_by<W: Word>(l: &[u32; 64], m: u32, q: usize, from: usize) -> W
    requires { (q < 16) × (from + 4 ≤ W.digits) }
    ensures { W.value result ≡ leaving_of l.now m q from }
{
    let a = leaving(l, m, 4 * q, from);
    let b = leaving(l, m, 4 * q + 1, from + 1);
    let c = leaving(l, m, 4 * q + 2, from + 2);
    let d = leaving(l, m, 4 * q + 3, from + 3);
    either(either(a, b), either(c, d))
}

// A cell that leads to the nodes in m of group g.
fn cell(g: usize, m: u32) -> u32
    requires { (g < 64) × (m < 16) }
    ensures { result ≡ 16 * g + m }
{
    g as u32 * 16 + m
}

// The crossing x, from side x / 4 of a router to its side x % 4: to the crossings of the router beyond that some of the
// same answers, which came in by the first, go by.
fn cross(l: &[u32; 64], joints: &[u8; 64], x: usize) -> u32
    requires { x < 256 }
    ensures { result ≡ cross_of l.now joints.now x }
{
    let Some(i) = partner(joints, x / 4) else {
        return 0;
    };
    let o = 4 * (x / 16) + x % 4;
    let Some(q) = partner(joints, o) else {
        return 0;
    };
    let m = both(l[i], l[o]);
    if m == 0 {
        return 0;
    }
    cell(q, leaving_by(l, m, q / 4, 0))
}

// The first n crossings, into a table that has room for them.
pub fn cross_cells(l: &[u32; 64], joints: &[u8; 64], n: usize, cells: &mut [u32])
    requires { (n ≤ 256) × (n ≤ length cells.old) }
    ensures { CrossCells l.now joints.now n cells.new }
{
    for (x, cell) in cells[..n].iter_mut().enumerate() {
        *cell = cross(l, joints, x);
    }
}
