// Tests of stretches of a state's bytes: rows without a packet, a table's sides, allowances.
#![tactic(auto)]

ghost use Rattle.std.specs.Prelude.{◌≡◌, true, ◌+◌, ◌*◌, ◌≤◌, ◌<◌, leb, eqb, length};
ghost use Rattle.basis.specs.Choice.{also};
ghost use Rattle.plan.specs.Head.{InRange, destinations};
ghost use Rattle.bytes_steps.specs.Counts.{state_size};
ghost use Rattle.check_rule.specs.Forms.{zeros};
ghost use Rattle.bytes_layout.specs.Decode.{four_at};
ghost use Rattle.check_idle.specs.Bytes.{word_at, IdleRow, IdleRows, IdleSide, IdleRouter, QuietBytes};

use plan::Head;

// The digits of two bytes together: zero where both are.
pub fn join(a: u8, b: u8) -> u8
    ensures { eqb result 0 ≡ also (eqb a 0) (eqb b 0) }
{
    a | b
}

// Not zero where a byte is greater than its limit.
pub fn over(x: u8, m: u8) -> u8
    ensures { eqb result 0 ≡ leb x m }
{
    u8::from(x > m)
}

// Whether n bytes from i on are zero.
pub fn zeros(s: &[u8], i: usize, n: usize) -> bool
    requires { (i + n ≤ length s.now) × (n ≤ 1024) }
    ensures { result ≡ zeros i n s.now }
{
    let mut any = 0u8;
    for k in 0..n {
        any = join(any, s[i + k]);
    }
    any == 0
}

// Four bytes as a number, the first the lowest.
pub fn four(s: &[u8], i: usize) -> u32
    requires { i + 4 ≤ length s.now }
    ensures { result ≡ four_at i s.now }
{
    bytes_rows::starts::word(s, i)
}

// Eight bytes as a word, four and four.
fn word(s: &[u8], i: usize) -> u64
    requires { i + 8 ≤ length s.now }
    ensures { result ≡ word_at i s.now }
{
    u64::from(four(s, i)) + 4294967296 * u64::from(four(s, i + 4))
}

// Whether a queue's row is idle: all its credit, and else zero bytes.
pub fn idle(s: &[u8], i: usize, cap: u8) -> bool
    requires { i + 39 ≤ length s.now }
    ensures { result ≡ true → IdleRow s.now i cap }
{
    word(s, i) == u64::from(cap)
        && (word(s, i + 8) | word(s, i + 16) | word(s, i + 24) | word(s, i + 31)) == 0
}

// Whether n rows from i on are idle.
fn rows_idle(s: &[u8], i: usize, n: usize, cap: u8) -> bool
    requires { (i + 39 * n ≤ length s.now) × (n ≤ 16) }
    ensures { result ≡ true → IdleRows s.now i n cap }
{
    (0..n).all(|k| idle(s, i + 39 * k, cap))
}

// Whether the two F and the three K of a side are idle.
fn side_idle(s: &[u8], h: Head, i: usize) -> bool
    requires { (i + 195 ≤ length s.now) × InRange h }
    ensures { result ≡ true → IdleSide h s.now i }
{
    rows_idle(s, i, 2, h.f.0) && rows_idle(s, i + 78, 3, h.k.0)
}

// Whether the four sides of a router are idle.
fn sides_idle(s: &[u8], h: Head, i: usize) -> bool
    requires { (i + 780 ≤ length s.now) × InRange h }
    ensures { result ≡ true → ((o : _) → o < 4 → IdleSide h s.now (i + 195 * o)) }
{
    for o in 0..4 {
        if !side_idle(s, h, i + 195 * o) {
            return false;
        }
    }
    true
}

// Whether a router's queues are idle.
fn router_idle(s: &[u8], h: Head, i: usize) -> bool
    requires { (i + 1092 ≤ length s.now) × InRange h }
    ensures { result ≡ true → IdleRouter h s.now i }
{
    rows_idle(s, i, 4, h.u.0) && rows_idle(s, i + 156, 4, h.q.0) && sides_idle(s, h, i + 312)
}

// Whether all routers' queues are idle.
fn routers_idle(s: &[u8], h: Head, i: usize) -> bool
    requires { (i + 1092 * h.routers ≤ length s.now) × InRange h }
    ensures { result ≡ true → ((k : _) → k < h.routers → IdleRouter h s.now (i + 1092 * k)) }
{
    let n = h.routers;
    for k in 0..n {
        if !router_idle(s, h, i + 1092 * k) {
            return false;
        }
    }
    true
}

// Whether the interfaces' queues are idle, out and in.
fn interfaces_idle(s: &[u8], h: Head, i: usize, j: usize) -> bool
    requires { (i + 39 * destinations h ≤ length s.now) × (j + 39 * destinations h ≤ length s.now)
        × InRange h }
    ensures { result ≡ true → IdleRows s.now i h.actives h.aout.0
        × IdleRows s.now (i + 39 * h.actives) h.passives h.pout.0
        × IdleRows s.now j h.actives h.ain.0
        × IdleRows s.now (j + 39 * h.actives) h.passives h.pin.0 }
{
    rows_idle(s, i, h.actives, h.aout.0)
        && rows_idle(s, i + 39 * h.actives, h.passives, h.pout.0)
        && rows_idle(s, j, h.actives, h.ain.0)
        && rows_idle(s, j + 39 * h.actives, h.passives, h.pin.0)
}

// Whether nothing is on the way anywhere.
pub fn quiet(s: &[u8], h: Head) -> bool
    requires { (state_size h ≤ length s.now) × InRange h }
    ensures { result ≡ true → QuietBytes h s.now }
{
    let n = h.actives + h.passives;
    zeros(
        s,
        2 + 39 * (2 * n + 28 * h.routers),
        7 * (n + 6 * h.routers),
    ) && interfaces_idle(s, h, 2, 2 + 39 * (n + 28 * h.routers))
        && routers_idle(s, h, 2 + 39 * n)
}
