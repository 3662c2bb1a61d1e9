// The joints: 8 bits for each side of each router, kept as a byte (kind times 64, number times 4, partner's side) by
// port number.
ghost use Rattle.std.specs.Prelude.{◌≡◌, ◌≤◌, ◌<◌, ◌+◌, ◌*◌, length, replicate};
ghost use Rattle.plan.specs.declared.Head.{Head};
ghost use Rattle.plan.specs.Head.{Counts};
ghost use Rattle.plan.specs.Plan.{joint_of};
ghost use Rattle.plan.specs.Found.{numbers_of};
ghost use Rattle.plan.specs.Tables.{joint_byte, joints_of, joint_byte_ok, joint_bytes_ok, joint_of_byte, interface_at};

use crate::counts::JOINTS_AT;
use crate::{Head, Joint};

// The bits of a joint, of its kind, its number and its partner's side, and where the latter two stand in it.
const JOINT_BITS: usize = 8;

const KIND_BITS: usize = 2;

const NUMBER_BITS: usize = 4;

const SIDE_BITS: usize = 2;

const NUMBER_AT: usize = 2;

const SIDE_AT: usize = 6;

// A joint's byte is the kind times 64, plus the number, below 16, times 4, plus the partner's side.
pub const KIND: u8 = 64;

pub const NUMBER: u8 = 4;

pub const NUMBERS: u8 = 16;

// The kinds of a joint, but for 0, which is to nothing.
pub const TO_ROUTER: u8 = 1;

pub const TO_ACTIVE: u8 = 2;

pub const TO_PASSIVE: u8 = 3;

// The sides of a router.
pub const SIDES: usize = 4;

// The i-th joint's kind, number and side, each read by itself, as a byte.
fn joint_byte(plan: &[u8], i: usize) -> u8
    requires { (i < 64) × (6 + i < length plan.now) }
    ensures { result ≡ joint_byte plan.now i }
{
    let at = JOINTS_AT + JOINT_BITS * i;
    let kind = fields::field(plan, at, KIND_BITS);
    let number = fields::field(plan, at + NUMBER_AT, NUMBER_BITS);
    let side = fields::field(plan, at + SIDE_AT, SIDE_BITS);
    kind * KIND + number * NUMBER + side
}

// How many numbers the joints of a kind may have: choices between numbers, so that no joint's test is a branch.
#[tactic(auto, unfolding(crate::specs::Found::numbers_of))]
fn numbers(routers: u8, actives: u8, passives: u8, kind: u8) -> u8
    ensures { result ≡ numbers_of routers actives passives kind }
{
    let other = if kind == TO_PASSIVE { passives } else { 1 };
    let interfaces = if kind == TO_ACTIVE { actives } else { other };
    if kind == TO_ROUTER {
        routers
    } else {
        interfaces
    }
}

// Whether kind, number and side are in range.
fn joint_byte_ok(routers: u8, actives: u8, passives: u8, v: u8) -> bool
    ensures { (h : Head) → routers ≡ h.routers → actives ≡ h.actives → passives ≡ h.passives
        → result ≡ joint_byte_ok h v }
{
    let kind = v / KIND;
    let most = numbers(routers, actives, passives, kind);
    (v / NUMBER % NUMBERS < most) & ((kind == TO_ROUTER) | (v % NUMBER == 0))
}

// The joints of the plan's routers, and nothing at the ports behind them; answers whether each joint's kind, number
// and side are in range: refusal 4.
pub fn joints(plan: &[u8], h: Head, t: &mut [u8; 64]) -> bool
    requires { Counts h × (6 + 4 * h.routers ≤ length plan.now) × (t.old ≡ replicate 64 0) }
    ensures { (t.new ≡ joints_of plan.now h) × (result ≡ joint_bytes_ok h t.new) }
{
    let n = SIDES * h.routers;
    let routers = h.routers as u8;
    let actives = h.actives as u8;
    let passives = h.passives as u8;
    let mut ok = true;
    for i in 0..n {
        let v = joint_byte(plan, i);
        t[i] = v;
        ok = ok & joint_byte_ok(routers, actives, passives, v);
    }
    ok
}

// What a joint's byte says.
pub fn joint_of(v: u8) -> Joint
    ensures { result ≡ joint_of_byte v }
{
    let number = usize::from(v / NUMBER % NUMBERS);
    match v / KIND {
        TO_ROUTER => Joint::Router(number, usize::from(v % NUMBER)),
        TO_ACTIVE => Joint::Active(number),
        TO_PASSIVE => Joint::Passive(number),
        _ => Joint::Nothing,
    }
}

// The joint that leads to the interface of a column.
pub fn leading_to(h: Head, d: usize) -> Joint
    ensures { result ≡ joint_of (interface_at h d) }
{
    if d < h.actives {
        Joint::Active(d)
    } else {
        Joint::Passive(d - h.actives)
    }
}
