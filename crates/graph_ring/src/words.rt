// Whether a relation between at most 64 nodes has a ring: by node, the set of those that it leads to.
// Nodes that lead to none that is left are taken away until none is left or none goes.
ghost use Rattle.std.specs.Prelude.{◌≡◌, true, ℕ, ◌≤◌, ◌<◌, length};
ghost use Rattle.basis.specs.Ring.{ring_test};
ghost use Rattle.sets.specs.Sets.{has};
ghost use Rattle.graph_ring.specs.Words.{leads_to, lone_of, first_of, Swept};

use sets::each::Members;
use sets::{both, without};

// What is left, without node x if it leads to none of that.
fn lone(follow: &[u64], left: u64, x: usize) -> u64
    requires { (x < length follow.now) × (x < 64) }
    ensures { result ≡ lone_of follow.now x left }
{
    if both(follow[x], left) == 0 {
        return without(left, x);
    }
    left
}

// A sweep up the nodes that are left.
fn sweep_up(follow: &[u64], n: usize, left: u64) -> u64
    requires { (n ≤ 64) × (n ≤ length follow.now) × ((x : ℕ) → has left x ≡ true → x < n) }
    ensures { Swept follow.now n left result }
{
    let mut now = left;
    for x in Members::of(left) {
        now = lone(follow, now, x);
    }
    now
}

// A sweep down the nodes that are left.
fn sweep_down(follow: &[u64], n: usize, left: u64) -> u64
    requires { (n ≤ 64) × (n ≤ length follow.now) × ((x : ℕ) → has left x ≡ true → x < n) }
    ensures { Swept follow.now n left result }
{
    let mut now = left;
    for x in Members::of(left).rev() {
        now = lone(follow, now, x);
    }
    now
}

// Whether the n nodes have a ring, given those that lead to some.
pub fn has_ring(follow: &[u64], n: usize, first: u64) -> bool
    requires { (n ≤ 64) × (n ≤ length follow.now) × (first ≡ first_of follow.now n) }
    ensures { result ≡ ring_test n (leads_to follow.now) }
{
    let mut left = first;
    while left != 0 {
        let down = sweep_down(follow, n, left);
        if down == 0 {
            return false;
        }
        let up = sweep_up(follow, n, down);
        if up == left {
            return true;
        }
        left = up;
    }
    false
}
