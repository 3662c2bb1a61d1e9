// What leads on, as sets in words (crate graph_ring): by router the routers that what it has goes on to, by side the
// sides that some of the same leave by next. `nexts` and `links` answer which lead to some.
#![tactic(auto)]

ghost use Rattle.std.specs.Prelude.{◌≡◌, ◌+◌, ◌*◌, ◌≤◌, ◌<◌, replicate};
ghost use Rattle.graph_ring.specs.Words.{first_of};
ghost use Rattle.graph_next.specs.Words.{toward_of, next_of, nexts_of, link_of, links_of};

use graph_flow::partner;
use graph_links::leaving_by;
use graph_links::starts::noted;
use sets::{both, either, single};

// The router beyond side o of router x, if some of what x has goes on by it.
fn toward(by: &[[u32; 4]; 16], joints: &[u8; 64], t: &[u32; 32], x: usize, o: usize) -> u64
    requires { (x < 16) × (o < 4) }
    ensures { result ≡ toward_of by.now joints.now t.now x o }
{
    if both(by[x][o], t[x]) == 0 {
        return 0;
    }
    let Some(q) = partner(joints, 4 * x + o) else {
        return 0;
    };
    single(q / 4)
}

// The routers that what router x has goes on to.
fn next(by: &[[u32; 4]; 16], joints: &[u8; 64], t: &[u32; 32], x: usize) -> u64
    requires { x < 16 }
    ensures { result ≡ next_of by.now joints.now t.now x }
{
    let a = toward(by, joints, t, x, 0);
    let b = toward(by, joints, t, x, 1);
    let c = toward(by, joints, t, x, 2);
    let d = toward(by, joints, t, x, 3);
    either(either(a, b), either(c, d))
}

// By router of the first n: the routers that what it has goes on to; and the routers that lead to some.
pub fn nexts(
    by: &[[u32; 4]; 16],
    joints: &[u8; 64],
    t: &[u32; 32],
    n: usize,
    to: &mut [u64; 16],
) -> u64
    requires { (n ≤ 16) × (to.old ≡ replicate 16 0) }
    ensures { (to.new ≡ nexts_of by.now joints.now t.now n)
        × (result ≡ first_of to.new n) }
{
    let mut s = 0u64;
    for (x, onward) in to[..n].iter_mut().enumerate() {
        let v = next(by, joints, t, x);
        *onward = v;
        s = noted(v, s, x);
    }
    s
}

// Side k, to the sides of the router beyond it that some of the same leave by.
fn link(l: &[u32; 64], joints: &[u8; 64], k: usize) -> u64
    requires { k < 64 }
    ensures { result ≡ link_of l.now joints.now k }
{
    let m = l[k];
    if m == 0 {
        return 0;
    }
    let Some(q) = partner(joints, k) else {
        return 0;
    };
    let r = q / 4;
    leaving_by(l, m, r, 4 * r)
}

// By side of the first n: the sides that some of the same leave by next; and the sides that lead to some.
pub fn links(l: &[u32; 64], joints: &[u8; 64], n: usize, to: &mut [u64; 64]) -> u64
    requires { (n ≤ 64) × (to.old ≡ replicate 64 0) }
    ensures { (to.new ≡ links_of l.now joints.now n)
        × (result ≡ first_of to.new n) }
{
    let mut s = 0u64;
    for (k, onward) in to[..n].iter_mut().enumerate() {
        let v = link(l, joints, k);
        *onward = v;
        s = noted(v, s, k);
    }
    s
}
