// What outputs remember: the rank of the last sender that each served.
#![tactic(auto)]

ghost use Rattle.std.specs.Prelude.{◌≡◌, ◌+◌, ◌*◌, ◌≤◌, ◌<◌, eqb, length};
ghost use Rattle.basis.specs.Choice.{pick};
ghost use Rattle.plan.specs.Head.{InRange};
ghost use Rattle.plan.specs.Tables.{joint_of_byte};
ghost use Rattle.rules.specs.Valid.{is_joined};
ghost use Rattle.bytes_steps.specs.Counts.{state_size};
ghost use Rattle.check_last_senders.specs.Turns.{side_rank, side_ranks, router_ranks, routers_ranks, turns_fit};

use plan::Head;

// The least rank that a side may remember, by its joint's byte: the last of five where it is not joined.
fn least(j: u8) -> u8
    ensures { result ≡ pick (is_joined (joint_of_byte j)) 0 4 }
{
    if j < 64 { 4 } else { 0 }
}

// Not zero where a side may not remember rank x, by its joint's byte.
fn unfit(x: u8, j: u8) -> u8
    ensures { eqb result 0 ≡ side_rank j x }
{
    check_idle::join(check_idle::over(x, 4), check_idle::over(least(j), x))
}

// Not zero where one of a router's four sides may not remember its rank.
fn sides_unfit(s: &[u8], i: usize, joints: &[u8; 64], k: usize) -> u8
    requires { (i + 4 ≤ length s.now) × (k + 4 ≤ 64) }
    ensures { eqb result 0 ≡ side_ranks i k 4 joints.now s.now }
{
    let mut bad = 0u8;
    for o in 0..4 {
        bad = check_idle::join(bad, unfit(s[i + o], joints[k + o]));
    }
    bad
}

// Whether a router's six outputs may remember their ranks: four sides, the way to the unit, the way back.
fn router_fits(s: &[u8], i: usize, joints: &[u8; 64], k: usize) -> bool
    requires { (i + 6 ≤ length s.now) × (k + 4 ≤ 64) }
    ensures { result ≡ router_ranks i k joints.now s.now }
{
    let sides = sides_unfit(s, i, joints, k);
    let unit = check_idle::join(check_idle::over(s[i + 4], 3), check_idle::over(s[i + 5], 3));
    check_idle::join(sides, unit) == 0
}

// The same of n routers.
fn routers_fit(s: &[u8], i: usize, joints: &[u8; 64], n: usize) -> bool
    requires { (i + 6 * n ≤ length s.now) × (n ≤ 16) }
    ensures { result ≡ routers_ranks i n joints.now s.now }
{
    (0..n).all(|r| router_fits(s, i + 6 * r, joints, 4 * r))
}

// Whether every output may remember its rank.
pub fn turns_ok(h: Head, joints: &[u8; 64], s: &[u8]) -> bool
    requires { InRange h × (state_size h ≤ length s.now) }
    ensures { result ≡ turns_fit h joints.now s.now }
{
    let n = h.actives + h.passives;
    let i = bytes_steps::turn_row(h, 0);
    check_idle::zeros(s, i, n) && routers_fit(s, i + n, joints, h.routers)
}
