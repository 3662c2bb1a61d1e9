// What is where at first, and what comes to each router: passives by served walks, actives by answers.
ghost use Rattle.std.specs.Prelude.{◌≡◌, List, ℕ, ◌≤◌, ◌<◌, replicate};
ghost use Rattle.graph_flow.specs.Carried.{Spread};
ghost use Rattle.graph_links.specs.Starts.{home_row, starts_of, alone_of, live_of, lives_of, note_of, notes_of};
ghost use Rattle.graph_links.specs.Starts.{Answering};
ghost use Rattle.graph_links.specs.Starts.{Answers};

use graph_flow::spread;
use sets::{Word, below, either, single, with};

// The router that active a is joined to.
fn home(homes: &[u8; 32], a: usize) -> usize
    requires { a < 32 }
    ensures { (result ≡ home_row homes.now a) × (result < 32) }
{
    usize::from(homes[a] / 4 % 32)
}

// By router: the passives that its actives are served with.
fn starts(homes: &[u8; 32], served: &[u32; 16], n: usize, t: &mut [u32; 32])
    requires { (n ≤ 16) × (t.old ≡ replicate 32 0) }
    ensures { t.new ≡ starts_of homes.now served.now n }
{
    for a in 0..n {
        let x = home(homes, a);
        t[x] = either(t[x], served[a]);
    }
}

// By router: the passives whose served walks, of any of the actives, come to it.
pub fn carried(
    by: &[[u32; 4]; 16],
    joints: &[u8; 64],
    homes: &[u8; 32],
    served: &[u32; 16],
    n: usize,
    actives: usize,
    t: &mut [u32; 32],
)
    requires { (n ≤ 16) × (actives ≤ 16) × (t.old ≡ replicate 32 0) }
    ensures { Spread by.now joints.now n
        (starts_of homes.now served.now actives) t.new }
{
    starts(homes, served, actives, t);
    spread(by, joints, n, below(n), t);
}

// By router: the passives whose served walks, of active a, come to it.
fn met(
    by: &[[u32; 4]; 16],
    joints: &[u8; 64],
    homes: &[u8; 32],
    served: &[u32; 16],
    n: usize,
    a: usize,
    t: &mut [u32; 32],
)
    requires { (n ≤ 16) × (a < 16) × (t.old ≡ replicate 32 0) }
    ensures { Spread by.now joints.now n
        (alone_of homes.now served.now a) t.new }
{
    let x = home(homes, a);
    t[x] = served[a];
    spread(by, joints, n, single(x), t);
}

// A set, with a if m is not empty.
pub fn noted<W: Word>(m: W, set: W, a: usize) -> W
    requires { a < W.digits }
    ensures { W.value result ≡ note_of a (W.value m) (W.value set) }
{
    if m.wide() == 0 {
        return set;
    }
    with(set, a)
}

// The actives that are served with some passive.
pub fn live(served: &[u32; 16], n: usize) -> u32
    requires { n ≤ 16 }
    ensures { result ≡ lives_of served.now n }
{
    let mut all = 0u32;
    for (a, passives) in served[..n].iter().enumerate() {
        all = noted(*passives, all, a);
    }
    all
}

// Active a joins the sets of the routers that its walks meet.
fn note(m: &[u32; 32], a: usize, n: usize, t: &mut [u32; 32])
    requires { (a < 32) × (n ≤ 16) }
    ensures { t.new ≡ notes_of a m.now n t.old }
{
    for (x, set) in t[..n].iter_mut().enumerate() {
        *set = noted(m[x], *set, a);
    }
}

// By router: the actives whose served walks come to it.
fn answering(
    by: &[[u32; 4]; 16],
    joints: &[u8; 64],
    homes: &[u8; 32],
    served: &[u32; 16],
    n: usize,
    actives: usize,
    t: &mut [u32; 32],
)
    requires { (n ≤ 16) × (actives ≤ 16) × (t.old ≡ replicate 32 0) }
    ensures { Answering by.now joints.now homes.now
        served.now n actives
        t.new }
{
    for a in 0..actives {
        let mut m = [0u32; 32];
        met(by, joints, homes, served, n, a, &mut m);
        note(&m, a, n, t);
    }
}

// By router: the actives whose answers come to it, or set out there.
pub fn answers(
    by: &[[u32; 4]; 16],
    joints: &[u8; 64],
    homes: &[u8; 32],
    served: &[u32; 16],
    n: usize,
    actives: usize,
    t: &mut [u32; 32],
)
    requires { (n ≤ 16) × (actives ≤ 16) × (t.old ≡ replicate 32 0) }
    ensures { Answers by.now joints.now homes.now
        served.now n actives
        t.new }
{
    answering(by, joints, homes, served, n, actives, t);
    spread(by, joints, n, below(n), t);
}
