// The routers that walks meet, by router and destination: their set in the low 16 digits, and 65536 times their number.
// The words are made as the walks are found, from their ends, in a table that has a row for each router.
#![tactic(auto)]

ghost use Rattle.std.specs.Prelude.{◌≡◌, true, List, [], ℕ, ◌+◌, ◌*◌, ◌≤◌, ◌<◌, get_or, length};
ghost use Rattle.sets.specs.Sets.{has};
ghost use Rattle.graph_reach.specs.Reach.{sweep_at, change_of, up_of, down_of, Closed, Reached, Inside, Idle};
ghost use Rattle.graph_met.specs.Trails.{Shaped, Blank, Readable, Led, Started, Trailed, Lengthens, Room};
ghost use Rattle.graph_met.specs.Trails.{Turns, Turning};

use graph_reach::{common, pull, through};
use sets::each::Members;
use sets::{both, either, less, single};

// What one router more adds to a word, beside the router itself.
const ONE_MORE: u32 = 65536;

// Router x's words for the destinations of a set: those of router n, and x itself.
fn lead(up: &mut [[u32; 32]], x: usize, n: usize, k: u32)
    requires { (x < 16) × (n < 17) × (x < length up.old) × Shaped up.old × Readable up.old n k }
    ensures { Led x n k up.old up.new }
{
    let own: u32 = single(x);
    for d in Members::of(k) {
        up[x][d] = up[n][d] + own + ONE_MORE;
    }
}

// Router x's words for the new destinations that it reaches through side o.
fn side(
    by: &[[u32; 4]; 16],
    next: &[u8; 64],
    t: &[u32; 32],
    up: &mut [[u32; 32]],
    x: usize,
    o: usize,
    new: u32,
)
    requires { (x < 16) × (o < 4) × Inside next.now × (x < length up.old)
        × Turning by.now next.now t.now x new o up.old }
    ensures { Turns by.now next.now t.now x new
        o up.old (o + 1) up.new }
{
    let n = usize::from(next[4 * x + o]);
    let k = both(through(by, next, t, x, o), new);
    lead(up, x, n, k);
}

// Router x's words for all new destinations.
fn sides(
    by: &[[u32; 4]; 16],
    next: &[u8; 64],
    t: &[u32; 32],
    up: &mut [[u32; 32]],
    x: usize,
    new: u32,
)
    requires { (x < 16) × Inside next.now × (x < length up.old)
        × Turning by.now next.now t.now x new 0 up.old }
    ensures { Turns by.now next.now t.now x new
        0 up.old 4 up.new }
{
    for o in 0..4 {
        side(by, next, t, up, x, o, new);
    }
}

// Router x of a sweep: its set grows by what it reaches in one step more, and with it its words. Answers what is new.
fn step(
    by: &[[u32; 4]; 16],
    next: &[u8; 64],
    x: usize,
    t: &mut [u32; 32],
    up: &mut [[u32; 32]],
) -> u32
    requires { (x < 16) × Inside next.now × (x < length up.old) × Room by.now next.now 1 t.old up.old }
    ensures { (t.new ≡ sweep_at by.now next.now x t.old)
        × (result ≡ change_of by.now next.now t.old x)
        × Lengthens by.now next.now 1
        t.old up.old t.new up.new }
{
    let v = pull(by, next, t, x);
    let new = less(v, t[x]);
    if new == 0 {
        return new;
    }
    sides(by, next, t, up, x, new);
    t[x] = v;
    new
}

// A sweep up the routers; answers 0 only where nothing is new.
fn sweep_up(
    by: &[[u32; 4]; 16],
    next: &[u8; 64],
    n: usize,
    t: &mut [u32; 32],
    up: &mut [[u32; 32]],
) -> u32
    requires { (n ≤ 16) × Inside next.now × (n ≤ length up.old) × Room by.now next.now n t.old up.old }
    ensures { (t.new ≡ up_of by.now next.now n t.old)
        × (result ≡ 0 → Closed by.now next.now n t.new)
        × Lengthens by.now next.now n
        t.old up.old t.new up.new }
{
    let mut new = 0u32;
    for x in 0..n {
        new = either(new, step(by, next, x, t, up));
    }
    new
}

// A sweep down the routers.
fn sweep_down(
    by: &[[u32; 4]; 16],
    next: &[u8; 64],
    n: usize,
    t: &mut [u32; 32],
    up: &mut [[u32; 32]],
)
    requires { (n ≤ 16) × Inside next.now × (n ≤ length up.old) × Room by.now next.now n t.old up.old }
    ensures { (t.new ≡ down_of by.now next.now n t.old)
        × Lengthens by.now next.now n
        t.old up.old t.new up.new }
{
    for x in (0..n).rev() {
        step(by, next, x, t, up);
    }
}

// The words of the walks of one router: the router itself, its word being 0 so far.
fn starts(t: &[u32; 32], n: usize, up: &mut [[u32; 32]])
    requires { (n ≤ 16) × (n ≤ length up.old) × Blank up.old }
    ensures { Started n t.now up.new }
{
    for (x, at_hand) in t[..n].iter().enumerate() {
        lead(up, x, x, *at_hand);
    }
}

// Sweeps up and down, until nothing is new or all reach all.
fn rounds(
    by: &[[u32; 4]; 16],
    next: &[u8; 64],
    n: usize,
    full: u32,
    t: &mut [u32; 32],
    up: &mut [[u32; 32]],
)
    requires { (n ≤ 16) × Inside next.now × Idle by.now next.now n t.old × (n ≤ length up.old)
        × Trailed by.now next.now t.old 1 t.old up.old }
    ensures { Reached by.now next.now n full t.old t.new
        × ((b : ℕ) × Trailed by.now next.now t.old b
        t.new up.new) }
{
    for k in 0..n {
        let new = sweep_up(by, next, n, t, up);
        if new == 0 {
            return;
        }
        sweep_down(by, next, n, t, up);
        if common(t, n, full) == full {
            return;
        }
    }
}

// What each router reaches, from what it has at hand, and the words of the walks.
pub fn trails(
    by: &[[u32; 4]; 16],
    next: &[u8; 64],
    n: usize,
    full: u32,
    t: &mut [u32; 32],
    up: &mut [[u32; 32]],
)
    requires { (n ≤ 16) × Inside next.now × Idle by.now next.now n t.old
        × (length t.old ≡ 32) × (n ≤ length up.old) × Blank up.old }
    ensures { Reached by.now next.now n full t.old t.new
        × ((b : ℕ) × Trailed by.now next.now t.old b
        t.new up.new) }
{
    starts(t, n, up);
    rounds(by, next, n, full, t, up);
}
