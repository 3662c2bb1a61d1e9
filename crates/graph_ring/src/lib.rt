// Whether a relation between nodes has a ring. The nodes stand in groups of four, node 4g + o in group g, and each
// leads to nodes of one group only: its cell is 16 times that group plus the set of them.
// Nodes that lead to none that is left are taken away, group by group, until none is left or none goes.
#![tactic(auto)]

// Relations between at most 64 nodes, each with the set of those that it leads to.
pub mod words;

ghost use Rattle.std.specs.Prelude.{◌≡◌, Bool, ◌+◌, ◌*◌, ◌≤◌, ◌<◌, length, get_or, replicate};
ghost use Rattle.basis.specs.Ring.{ring_test};
ghost use Rattle.graph_ring.specs.Cells.{edge, stays_of, keep_of, judge_of, up_of, down_of, rest_of, first_of};

use sets::{both, either, less, single};

// The most groups.
pub const GROUPS: usize = 64;

// Does node x lead to one that is left?
fn stays(cells: &[u32], left: &[u32; GROUPS], x: usize) -> bool
    requires { x < length cells.now }
    ensures { result ≡ stays_of cells.now left.now x }
{
    let c = cells[x];
    let g = (c / 16 % 64) as usize;
    both(c, left[g]) != 0
}

// The o-th node of a group, x, if it stays.
fn keep(cells: &[u32], left: &[u32; GROUPS], x: usize, o: usize) -> u32
    requires { (x < length cells.now) × (o < 4) }
    ensures { result ≡ keep_of cells.now left.now x o }
{
    if stays(cells, left, x) {
        return single(o);
    }
    0
}

// The nodes of group g that are left and stay.
fn judge(cells: &[u32], left: &[u32; GROUPS], g: usize) -> u32
    requires { (g < 64) × (4 * g + 3 < length cells.now) }
    ensures { result ≡ judge_of cells.now left.now g }
{
    if left[g] == 0 {
        return 0;
    }
    let a = keep(cells, left, 4 * g, 0);
    let b = keep(cells, left, 4 * g + 1, 1);
    let c = keep(cells, left, 4 * g + 2, 2);
    let d = keep(cells, left, 4 * g + 3, 3);
    both(left[g], either(either(a, b), either(c, d)))
}

// A sweep up the groups; answers 0 only where no node goes.
fn sweep_up(cells: &[u32], n: usize, left: &mut [u32; GROUPS]) -> u32
    requires { (n ≤ 64) × (4 * n ≤ length cells.now) }
    ensures { (left.new ≡ up_of cells.now n left.old)
        × (result ≡ 0 → left.new ≡ left.old) }
{
    let mut gone = 0u32;
    for g in 0..n {
        let v = judge(cells, left, g);
        gone = either(gone, less(left[g], v));
        left[g] = v;
    }
    gone
}

// A sweep down the groups.
fn sweep_down(cells: &[u32], n: usize, left: &mut [u32; GROUPS])
    requires { (n ≤ 64) × (4 * n ≤ length cells.now) }
    ensures { left.new ≡ down_of cells.now n left.old }
{
    for g in (0..n).rev() {
        left[g] = judge(cells, left, g);
    }
}

// The nodes that are left in any group.
fn rest(left: &[u32; GROUPS], n: usize) -> u32
    requires { n ≤ 64 }
    ensures { result ≡ rest_of n left.now }
{
    left[..n].iter().fold(0, |all, of| either(all, *of))
}

// All nodes of n groups.
fn first(n: usize, left: &mut [u32; GROUPS])
    requires { (n ≤ 64) × (left.old ≡ replicate 64 0) }
    ensures { left.new ≡ first_of n }
{
    left[..n].fill(15);
}

// Whether the nodes of n groups have a ring.
pub fn has_ring(cells: &[u32], n: usize) -> bool
    requires { (n ≤ 64) × (4 * n ≤ length cells.now) }
    ensures { result ≡ ring_test (4 * n) (edge cells.now) }
{
    let mut left = [0u32; GROUPS];
    first(n, &mut left);
    for k in 0..4 * n {
        sweep_down(cells, n, &mut left);
        if rest(&left, n) == 0 {
            return false;
        }
        if sweep_up(cells, n, &mut left) == 0 {
            return true;
        }
    }
    rest(&left, n) != 0
}
