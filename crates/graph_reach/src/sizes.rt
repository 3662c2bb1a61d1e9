// How many routers the walks have, by router and passive: 0 where none is known.
ghost use Rattle.std.specs.Prelude.{◌≡◌, ℕ, ◌+◌, ◌*◌, ◌≤◌, ◌<◌, eqb, get_or};
ghost use Rattle.basis.specs.Choice.{pick};
ghost use Rattle.graph_reach.specs.Reach.{Inside};
ghost use Rattle.graph_reach.specs.Sizes.{longer, far_by, size_of, merged_of, row_of};

// The most routers.
const MOST: u8 = 16;

// One router more, at most 16.
fn longer(far: u8) -> u8
    ensures { result ≡ longer far }
{
    if far < MOST { far + 1 } else { far }
}

// What the router beyond side o adds: its size where the route is that side, else 0.
fn through(side: u8, o: u8, far: u8) -> u8
    ensures { result ≡ pick (eqb side o) far 0 }
{
    if side == o { far } else { 0 }
}

// The size from the router beyond the route's side: at most one of the four is not 0.
fn far_by(side: u8, a: u8, b: u8, c: u8, d: u8) -> u8
    ensures { result ≡ far_by side a b c d }
{
    through(side, 0, a) | through(side, 1, b) | through(side, 2, c) | through(side, 3, d)
}

// A walk's size: one router more than from the router beyond, if that is known; else as it was.
fn size_of(far: u8, own: u8) -> u8
    ensures { result ≡ size_of far own }
{
    if far == 0 { own } else { longer(far) }
}

// The sizes of a router's walks, from those of the routers beyond its four sides, in one pass.
fn merged(
    sides: &[u8; 32],
    column: usize,
    a: [u8; 16],
    b: [u8; 16],
    c: [u8; 16],
    d: [u8; 16],
    own: [u8; 16],
) -> [u8; 16]
    requires { column ≤ 16 }
    ensures { result ≡ merged_of sides.now column a b c d own }
{
    let mut t = [0u8; 16];
    for (p, size) in t.iter_mut().enumerate() {
        let far = far_by(sides[column + p], a[p], b[p], c[p], d[p]);
        *size = size_of(far, own[p]);
    }
    t
}

// The router beyond a port, or 16.
fn beyond(next: &[u8; 64], port: usize) -> usize
    requires { (port < 64) × Inside next.now }
    ensures { (result ≡ get_or next.now port 0) × (result < 17) }
{
    usize::from(next[port])
}

// The sizes of router x's walks, from those of its neighbours.
pub fn row(
    sides: &[u8; 32],
    column: usize,
    next: &[u8; 64],
    z: &[[u8; 16]; 17],
    x: usize,
) -> [u8; 16]
    requires { (x < 16) × (column ≤ 16) × Inside next.now }
    ensures { result ≡ row_of sides.now column next.now z.now x }
{
    let a = beyond(next, 4 * x);
    let b = beyond(next, 4 * x + 1);
    let c = beyond(next, 4 * x + 2);
    let d = beyond(next, 4 * x + 3);
    merged(sides, column, z[a], z[b], z[c], z[d], z[x])
}
