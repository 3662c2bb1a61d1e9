// What goes on from router to router: by[r][o] is the set of what leaves router r by side o, and a table of sets by
// router, what is where at first, grows until it has all that comes to each router.
#![tactic(auto)]

ghost use Rattle.std.specs.Prelude.{◌≡◌, true, false, List, ℕ, ◌+◌, ◌*◌, ◌≤◌, ◌<◌, get_or, length};
ghost use Rattle.std.specs.Prelude.{MatchOption};
ghost use Rattle.sets.specs.Sets.{has};
ghost use Rattle.graph_flow.specs.Carried.{partner_of, beyond_of, Pushed, Passed, Stepped, Round, Spread};

use sets::{below, both, either, has, less, single, without};

// The row of what goes where no router is joined.
const NOWHERE: usize = 16;

// The port that port k is joined to, if a router is joined there.
pub fn partner(joints: &[u8; 64], k: usize) -> Option<usize>
    requires { k < 64 }
    ensures { MatchOption result (partner_of joints.now k ≡ 64) (λ i. (i ≡ partner_of joints.now k) × (i < 64)) }
{
    let v = usize::from(joints[k]);
    if v / 64 == 1 { Some(v % 64) } else { None }
}

// The router beyond port k, or the row of what goes to none.
fn beyond(joints: &[u8; 64], k: usize) -> usize
    requires { k < 64 }
    ensures { (result ≡ beyond_of joints.now k) × (result < 32) }
{
    partner(joints, k).map_or(NOWHERE, |i| i / 4)
}

// What router x has goes on by side o; answers the router where that is new, as a set.
fn push(by: &[[u32; 4]; 16], joints: &[u8; 64], t: &mut [u32; 32], x: usize, o: usize) -> u32
    requires { (x < 16) × (o < 4) × (length t.old ≡ 32) }
    ensures { Pushed by.now joints.now x o t.old result t.new }
{
    let m = both(by[x][o], t[x]);
    if m == 0 {
        return 0;
    }
    let n = beyond(joints, 4 * x + o);
    if less(m, t[n]) == 0 {
        return 0;
    }
    t[n] = either(t[n], m);
    single(n)
}

// What router x has goes on by its sides; answers the routers where that is new.
fn pass(by: &[[u32; 4]; 16], joints: &[u8; 64], t: &mut [u32; 32], x: usize) -> u32
    requires { (x < 16) × (length t.old ≡ 32) }
    ensures { Passed by.now joints.now x t.old result t.new }
{
    let a = push(by, joints, t, x, 0);
    let b = push(by, joints, t, x, 1);
    let c = push(by, joints, t, x, 2);
    let d = push(by, joints, t, x, 3);
    either(either(a, b), either(c, d))
}

// Router x's turn, if it is one of those with something new.
fn step(by: &[[u32; 4]; 16], joints: &[u8; 64], work: u32, t: &mut [u32; 32], x: usize) -> u32
    requires { (x < 16) × (length t.old ≡ 32) }
    ensures { Stepped by.now joints.now x work t.old result t.new }
{
    if has(work, x) {
        let new = pass(by, joints, t, x);
        return either(without(work, x), new);
    }
    work
}

// A sweep up the routers.
fn sweep_up(by: &[[u32; 4]; 16], joints: &[u8; 64], n: usize, work: u32, t: &mut [u32; 32]) -> u32
    requires { (n ≤ 16) × (length t.old ≡ 32) }
    ensures { (first : List ℕ) (k : ℕ)
        → Round by.now joints.now n first k work t.old
        → Round by.now joints.now n first (k + 1) result t.new }
{
    let mut left = work;
    for x in 0..n {
        left = step(by, joints, left, t, x);
    }
    left
}

// A sweep down the routers.
fn sweep_down(by: &[[u32; 4]; 16], joints: &[u8; 64], n: usize, work: u32, t: &mut [u32; 32]) -> u32
    requires { (n ≤ 16) × (length t.old ≡ 32) }
    ensures { (first : List ℕ) (k : ℕ)
        → Round by.now joints.now n first k work t.old
        → Round by.now joints.now n first k result t.new }
{
    let mut left = work;
    for x in (0..n).rev() {
        left = step(by, joints, left, t, x);
    }
    left
}

// All that comes to each of n routers, from what is there at first, which is nothing at the routers that are not in
// `from`.
pub fn spread(by: &[[u32; 4]; 16], joints: &[u8; 64], n: usize, from: u32, t: &mut [u32; 32])
    requires { (n ≤ 16) × (length t.old ≡ 32)
        × ((x : ℕ) → x < n → has from x ≡ false → get_or t.old x 0 ≡ 0) }
    ensures { Spread by.now joints.now n t.old t.new }
{
    let all = below(n);
    let mut work = from;
    for k in 0..n {
        work = sweep_up(by, joints, n, work, t);
        if both(work, all) == 0 {
            return;
        }
        work = sweep_down(by, joints, n, work, t);
    }
}
