// The routes: 3 bits for each router and destination, kept as a table of bytes, router by destination, with 7 where
// the plan gives no side; and as sets of destinations by router and side.
#![tactic(auto)]

ghost use Rattle.std.specs.Prelude.{◌≡◌, ◌≤◌, ◌<◌, ◌+◌, ◌*◌, ◌%◌, length, replicate};
ghost use Rattle.fields.specs.Bits.{field_of};
ghost use Rattle.sets.specs.Sets.{either};
ghost use Rattle.plan.specs.Head.{Counts, bit_count};
ghost use Rattle.plan_routes.specs.Marks.{side_at, fits_of, lane_of, Put, PutIf, Group, Laid, Row, NoRoutes};
ghost use Rattle.plan_routes.specs.Marks.{Routes};

use fields::field;
use plan::Head;
use plan::counts::{JOINTS_AT, ROUTE_BITS, ROUTER_BITS};
use sets::{either, with};

// How many columns a word holds: column d + k of side v is member 8 * v + k, so each side has a lane of eight members.
const GROUP: usize = 8;

// What a lane, and a set of columns, is below as a number.
const LANE: u64 = 256;

const COLUMNS: u64 = 4294967296;

// Where the lanes of 4, 5 and 6, which are no sides, begin, and what the three are below as one number.
const UNFIT_AT: usize = 32;

const UNFIT: u64 = 16777216;

// The side of column d + k is put into the row, and the column into the side's lane of the word.
fn put(row: &mut [u8; 32], s: u64, d: usize, k: usize, side: u8) -> u64
    requires { (k < 8) × (d + k < 32) × (side < 8) }
    ensures { Put side d k row.old row.new s result }
{
    row[d + k] = side;
    with(s, GROUP * usize::from(side) + k)
}

// The route of column d + k, which begins 3 * k bits after the first bit of byte i, is put into the row and the word.
fn one(plan: &[u8], i: usize, d: usize, k: usize, row: &mut [u8; 32], s: u64) -> u64
    requires { (i < 20000) × (k < 8) × (d + k < 32) × (8 * i + 3 * k + 3 ≤ 8 * length plan.now) }
    ensures { Put (field_of plan.now (8 * i + 3 * k) 3) d k row.old row.new
        s result }
{
    let side = field(plan, 8 * i + ROUTE_BITS * k, ROUTE_BITS);
    put(row, s, d, k, side)
}

// The routes of the eight columns from d on, the first of which begins at a byte's first bit.
fn eight(plan: &[u8], at: usize, d: usize, row: &mut [u8; 32]) -> u64
    requires { (d + 8 ≤ 32) × (at < 100000) × (at + 3 * (d + 8) ≤ 8 * length plan.now)
        × ((at + 3 * d) % 8 ≡ 0) }
    ensures { Group (side_at plan.now at) d 8 row.old row.new result }
{
    let i = (at + ROUTE_BITS * d) / 8;
    let s0 = one(plan, i, d, 0, row, 0);
    let s1 = one(plan, i, d, 1, row, s0);
    let s2 = one(plan, i, d, 2, row, s1);
    let s3 = one(plan, i, d, 3, row, s2);
    let s4 = one(plan, i, d, 4, row, s3);
    let s5 = one(plan, i, d, 5, row, s4);
    let s6 = one(plan, i, d, 6, row, s5);
    one(plan, i, d, 7, row, s6)
}

// The same as `one`, where there is a column k among the m columns; else nothing.
fn one_if(plan: &[u8], i: usize, d: usize, k: usize, m: usize, row: &mut [u8; 32], s: u64) -> u64
    requires { (i < 20000) × (k < 8) × (d + m ≤ 32) × (8 * i + 3 * m ≤ 8 * length plan.now) }
    ensures { PutIf (field_of plan.now (8 * i + 3 * k) 3) d k m row.old row.new
        s result }
{
    if k < m {
        return one(plan, i, d, k, row, s);
    }
    s
}

// The routes of the m columns from d on, fewer than eight, the first of which begins at a byte's first bit.
fn tail(plan: &[u8], m: usize, at: usize, d: usize, row: &mut [u8; 32]) -> u64
    requires { (m < 8) × (d + m ≤ 32) × (at < 100000) × (at + 3 * (d + m) ≤ 8 * length plan.now)
        × (0 < m → (at + 3 * d) % 8 ≡ 0) }
    ensures { Group (side_at plan.now at) d m row.old row.new result }
{
    let i = (at + ROUTE_BITS * d) / 8;
    let s0 = one_if(plan, i, d, 0, m, row, 0);
    let s1 = one_if(plan, i, d, 1, m, row, s0);
    let s2 = one_if(plan, i, d, 2, m, row, s1);
    let s3 = one_if(plan, i, d, 3, m, row, s2);
    let s4 = one_if(plan, i, d, 4, m, row, s3);
    let s5 = one_if(plan, i, d, 5, m, row, s4);
    one_if(plan, i, d, 6, m, row, s5)
}

// The routes of the m columns from d on, at most eight, wherever they begin.
fn some(plan: &[u8], m: usize, at: usize, d: usize, row: &mut [u8; 32]) -> u64
    requires { (m ≤ 8) × (d + m ≤ 32) × (at < 100000) × (at + 3 * (d + m) ≤ 8 * length plan.now) }
    ensures { Group (side_at plan.now at) d m row.old row.new result }
{
    let mut s = 0u64;
    for k in 0..m {
        let side = field(plan, at + ROUTE_BITS * (d + k), ROUTE_BITS);
        s = put(row, s, d, k, side);
    }
    s
}

// Lane o of a word, as a set of columns from d on.
fn lane(s: u64, o: usize, d: usize) -> u32
    requires { (o < 8) × (d ≤ 32) }
    ensures { result ≡ lane_of s o d }
{
    ((((s >> (GROUP * o)) % LANE) << d) % COLUMNS) as u32
}

// A word's columns from d on are put into the sets of the four sides.
fn lay(sides: &mut [u32; 4], s: u64, d: usize)
    requires { (d ≤ 32) × (length sides.old ≡ 4) }
    ensures { Laid s d sides.old sides.new }
{
    sides[0] = either(sides[0], lane(s, 0, d));
    sides[1] = either(sides[1], lane(s, 1, d));
    sides[2] = either(sides[2], lane(s, 2, d));
    sides[3] = either(sides[3], lane(s, 3, d));
}

// How many of n columns come before the first that begins at a byte's first bit.
fn lead(at: usize, n: usize) -> usize
    requires { (at < 100000) × (n ≤ 32) }
    ensures { (result ≤ n) × (result < 8) × (result < n → (at + 3 * result) % 8 ≡ 0) }
{
    let k = 5 * (at % 8) % 8;
    if k < n { k } else { n }
}

// Whether the lanes of 4, 5 and 6 are empty.
fn fits(s: u64) -> bool
    ensures { result ≡ fits_of s }
{
    (s >> UNFIT_AT) % UNFIT == 0
}

// A row of any number of columns, eight at a time where they begin at a byte's first bit.
fn long_row(plan: &[u8], n: usize, at: usize, row: &mut [u8; 32], sides: &mut [u32; 4]) -> bool
    requires { (n ≤ 32) × (at < 100000) × (at + 3 * n ≤ 8 * length plan.now) × (sides.old ≡ replicate 4 0) }
    ensures { Row (side_at plan.now at) n row.old row.new sides.new
        result }
{
    let f = lead(at, n);
    let mut all = some(plan, f, at, 0, row);
    lay(sides, all, 0);
    let g = (n - f) / GROUP;
    for j in 0..g {
        let s = eight(plan, at, f + GROUP * j, row);
        lay(sides, s, f + GROUP * j);
        all = either(all, s);
    }
    let d = f + GROUP * g;
    let s = tail(plan, n - d, at, d, row);
    lay(sides, s, d);
    fits(either(all, s))
}

// A row of at most eight columns.
fn short_row(plan: &[u8], n: usize, at: usize, row: &mut [u8; 32], sides: &mut [u32; 4]) -> bool
    requires { (n ≤ 8) × (at < 100000) × (at + 3 * n ≤ 8 * length plan.now) × (sides.old ≡ replicate 4 0) }
    ensures { Row (side_at plan.now at) n row.old row.new
        sides.new result }
{
    let s = some(plan, n, at, 0, row);
    lay(sides, s, 0);
    fits(s)
}

// The routes of one router, n of them, whose bits start at a position, into its row and into sets of columns by side,
// which are empty before; answers whether each is a side or none.
fn read_row(plan: &[u8], n: usize, at: usize, row: &mut [u8; 32], sides: &mut [u32; 4]) -> bool
    requires { (n ≤ 32) × (at < 100000) × (at + 3 * n ≤ 8 * length plan.now) × (sides.old ≡ replicate 4 0) }
    ensures { Row (side_at plan.now at) n row.old row.new
        sides.new result }
{
    if n <= GROUP {
        return short_row(plan, n, at, row, sides);
    }
    long_row(plan, n, at, row, sides)
}

// The routes of all routers, into the table and into sets of destinations by router and side; answers whether each is
// a side or none: refusal 4.
pub fn routes(plan: &[u8], h: Head, t: &mut [[u8; 32]; 16], by: &mut [[u32; 4]; 16]) -> bool
    requires { Counts h × (bit_count h ≤ 8 * length plan.now) × NoRoutes t.old by.old }
    ensures { Routes plan.now h t.new by.new result }
{
    let n = h.actives + h.passives;
    let at = JOINTS_AT + ROUTER_BITS * h.routers;
    let routers = h.routers;
    let mut ok = true;
    for r in 0..routers {
        ok = ok & read_row(plan, n, at + ROUTE_BITS * (n * r), &mut t[r], &mut by[r]);
    }
    ok
}
