// All walks at once, from their ends: which destinations are reached from each router, and in how many routers.
// by[r][o] is the set of destinations whose side at router r is o; next[4r+o] is the router beyond that side, or 16;
// a table of sets by router starts as the destinations one step away.
#![tactic(auto)]

ghost use Rattle.std.specs.Prelude.{◌≡◌, List, [], ℕ, ◌+◌, ◌*◌, ◌≤◌, ◌<◌, get_or, length};
ghost use Rattle.graph_reach.specs.Reach.{through_of, pull_of, sweep_at, change_of, up_of, down_of, common_of, Closed};
ghost use Rattle.graph_reach.specs.Reach.{Reached, Inside, Idle};
ghost use Rattle.graph_reach.specs.Sizes.{Grows};

use sets::{both, either, less};

pub mod sizes;

// What is swept: so many routers, all destinations, and those whose walks are sized: from the column on.
#[derive(Clone, Copy, PartialEq, Eq)]
pub struct Span {
    pub routers: usize,
    pub all: u32,
    pub sized: u32,
    pub column: usize,
}

// What router x reaches through side o.
pub fn through(by: &[[u32; 4]; 16], next: &[u8; 64], t: &[u32; 32], x: usize, o: usize) -> u32
    requires { (x < 16) × (o < 4) × Inside next.now }
    ensures { result ≡ through_of by.now next.now t.now x o }
{
    let n = usize::from(next[4 * x + o]);
    both(by[x][o], t[n])
}

// What router x reaches in one step more.
pub fn pull(by: &[[u32; 4]; 16], next: &[u8; 64], t: &[u32; 32], x: usize) -> u32
    requires { (x < 16) × Inside next.now }
    ensures { result ≡ pull_of by.now next.now t.now x }
{
    let a = through(by, next, t, x, 0);
    let b = through(by, next, t, x, 1);
    let c = through(by, next, t, x, 2);
    let d = through(by, next, t, x, 3);
    either(either(t[x], either(a, b)), either(c, d))
}

// Router x of a sweep: its set grows by what it reaches in one step more, and with it the sizes of its walks. Answers
// what is new.
fn step(
    by: &[[u32; 4]; 16],
    next: &[u8; 64],
    routes: &[[u8; 32]; 16],
    s: Span,
    x: usize,
    t: &mut [u32; 32],
    z: &mut [[u8; 16]; 17],
) -> u32
    requires { (x < 16) × (s.column ≤ 16) × Inside next.now }
    ensures { (t.new ≡ sweep_at by.now next.now x t.old)
        × (result ≡ change_of by.now next.now t.old x)
        × Grows by.now next.now routes.now s
        t.old z.old t.new z.new }
{
    let v = pull(by, next, t, x);
    let new = less(v, t[x]);
    t[x] = v;
    if both(new, s.sized) == 0 {
        return new;
    }
    z[x] = sizes::row(&routes[x], s.column, next, z, x);
    new
}

// A sweep up the routers; answers 0 only where nothing is new.
fn sweep_up(
    by: &[[u32; 4]; 16],
    next: &[u8; 64],
    routes: &[[u8; 32]; 16],
    s: Span,
    t: &mut [u32; 32],
    z: &mut [[u8; 16]; 17],
) -> u32
    requires { (s.routers ≤ 16) × (s.column ≤ 16) × Inside next.now }
    ensures { (t.new ≡ up_of by.now next.now s.routers t.old)
        × (result ≡ 0 → Closed by.now next.now s.routers t.new)
        × Grows by.now next.now routes.now s
        t.old z.old t.new z.new }
{
    let n = s.routers;
    let mut new = 0u32;
    for x in 0..n {
        new = either(new, step(by, next, routes, s, x, t, z));
    }
    new
}

// A sweep down the routers.
fn sweep_down(
    by: &[[u32; 4]; 16],
    next: &[u8; 64],
    routes: &[[u8; 32]; 16],
    s: Span,
    t: &mut [u32; 32],
    z: &mut [[u8; 16]; 17],
)
    requires { (s.routers ≤ 16) × (s.column ≤ 16) × Inside next.now }
    ensures { (t.new ≡ down_of by.now next.now s.routers t.old)
        × Grows by.now next.now routes.now s
        t.old z.old t.new z.new }
{
    let n = s.routers;
    for x in (0..n).rev() {
        step(by, next, routes, s, x, t, z);
    }
}

// The members of full that each of the first n sets has.
pub fn common(t: &[u32; 32], n: usize, full: u32) -> u32
    requires { n ≤ 16 }
    ensures { result ≡ common_of t.now full n }
{
    t[..n].iter().fold(full, |all, at| both(all, *at))
}

// What each router reaches, from what it has at hand, and the sizes of the walks; answers what all reach.
pub fn reach(
    by: &[[u32; 4]; 16],
    next: &[u8; 64],
    routes: &[[u8; 32]; 16],
    s: Span,
    t: &mut [u32; 32],
    z: &mut [[u8; 16]; 17],
) -> u32
    requires { (s.routers ≤ 16) × (s.column ≤ 16) × Inside next.now
        × Idle by.now next.now s.routers t.old × (length t.old ≡ 32) }
    ensures { Reached by.now next.now s.routers s.all t.old
        t.new
        × (result ≡ common_of t.new s.all s.routers)
        × Grows by.now next.now routes.now s
        t.old z.old t.new z.new }
{
    let n = s.routers;
    for k in 0..n {
        let new = sweep_up(by, next, routes, s, t, z);
        if new == 0 {
            return common(t, n, s.all);
        }
        sweep_down(by, next, routes, s, t, z);
        let all = common(t, n, s.all);
        if all == s.all {
            return all;
        }
    }
    common(t, n, s.all)
}
