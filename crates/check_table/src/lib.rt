// A table's sides and the allowances.
#![tactic(auto)]

ghost use Rattle.std.specs.Prelude.{◌≡◌, true, not, ◌+◌, ◌*◌, ◌≤◌, ◌<◌, ltb, eqb, length};
ghost use Rattle.basis.specs.Choice.{pick, also};
ghost use Rattle.check_rule.specs.Forms.{zeros};
ghost use Rattle.check_idle.specs.Bytes.{side_fits, sides_fit, Limits, bytes_within, byte_open, sides_zero};
ghost use Rattle.check_idle.specs.Bytes.{allowances_fit};

// Not zero where a zero byte has a limit that is not.
fn vacant(x: u8, m: u8) -> u8
    ensures { eqb result 0 ≡ not (also (ltb x m) (eqb x 0)) }
{
    let below = x < m;
    let none = x == 0;
    u8::from(below & none)
}

// The greatest byte of the entry of a slot: four sides and none, and zero past the plan's slots.
fn limit(t: usize, slots: usize) -> u8
    ensures { result ≡ pick (ltb t slots) 4 0 }
{
    if t < slots { 4 } else { 0 }
}

// The greatest value of each byte of a side's entries.
fn limits(slots: usize) -> [u8; 64]
    ensures { Limits slots result }
{
    let mut l = [0u8; 64];
    for t in 0..32 {
        l[2 * t] = limit(t, slots);
    }
    l
}

// Whether the 64 bytes of a side's entries are zero.
fn side_zero(s: &[u8], i: usize) -> bool
    requires { i + 64 ≤ length s.now }
    ensures { result ≡ zeros i 64 s.now }
{
    check_idle::zeros(s, i, 64)
}

// How many sides there are in front of the first that is used.
fn unused(s: &[u8], i: usize, n: usize) -> usize
    requires { (i + 64 * n ≤ length s.now) × (n ≤ 64) }
    ensures { (result ≤ n) × (sides_zero i result s.now ≡ true) }
{
    for k in 0..n {
        if !side_zero(s, i + 64 * k) {
            return k;
        }
    }
    n
}

// Whether 64 bytes are within their limits, and one of them is open.
fn bytes_ok(s: &[u8], i: usize, l: &[u8; 64]) -> bool
    requires { i + 64 ≤ length s.now }
    ensures { result ≡ also (bytes_within i 64 l.now s.now)
        (byte_open i 64 l.now s.now) }
{
    let mut bad = 0u8;
    let mut free = 0u8;
    for k in 0..64 {
        let x = s[i + k];
        let m = l[k];
        bad = check_idle::join(bad, check_idle::over(x, m));
        free = check_idle::join(free, vacant(x, m));
    }
    (bad == 0) & (free != 0)
}

// Whether a side's entries are in range, one of them free.
fn side_ok(s: &[u8], i: usize, slots: usize, l: &[u8; 64]) -> bool
    requires { (i + 64 ≤ length s.now) × (0 < slots) × Limits slots l.now }
    ensures { result ≡ side_fits i slots s.now }
{
    side_zero(s, i) || bytes_ok(s, i, l)
}

// The same of the sides from the m-th on, those in front of it being unused.
fn sides_from(s: &[u8], i: usize, m: usize, n: usize, slots: usize) -> bool
    requires { (i + 64 * n ≤ length s.now) × (n ≤ 64) × (m ≤ n) × (0 < slots) × (sides_zero i m s.now ≡ true) }
    ensures { result ≡ sides_fit i slots n s.now }
{
    let l = limits(slots);
    (m..n).all(|k| side_ok(s, i + 64 * k, slots, &l))
}

// The same of n sides.
pub fn sides_ok(s: &[u8], i: usize, n: usize, slots: usize) -> bool
    requires { (i + 64 * n ≤ length s.now) × (n ≤ 64) × (0 < slots) }
    ensures { result ≡ sides_fit i slots n s.now }
{
    let m = unused(s, i, n);
    m == n || sides_from(s, i, m, n, slots)
}

// Whether each active's allowance and what it has spent make the whole.
pub fn allowances_ok(s: &[u8], i: usize, n: usize, full: u8, spent: &[u8; 16]) -> bool
    requires { (i + n ≤ length s.now) × (n ≤ 16) }
    ensures { result ≡ allowances_fit i n full spent.now s.now }
{
    (0..n).all(|a| u32::from(s[i + a]) + u32::from(spent[a]) == u32::from(full))
}
