// Walks: the way from a router to an interface by the routes, step by step.
// A plan is two tables and a head: the side by router and destination column, and what each port is joined to, as a
// byte (kind times 64, number times 4, partner's side). A port is a number, router times four plus side.
#![tactic(auto)]

ghost use Rattle.std.specs.Prelude.{◌≡◌, List, [], ℕ, ◌+◌, ◌≤◌, ◌<◌, length, get_or};
ghost use Rattle.plan.specs.Plan.{no_side, route_to};
ghost use Rattle.plan.specs.Rules.{port_of};
ghost use Rattle.plan.specs.Tables.{table_plan, interface_at};
ghost use Rattle.plan_walks.specs.Walk.{walked};
ghost use Rattle.plan_walks.specs.Steps.{step_of, Stepped};

use plan::joints::{joint_of, leading_to};
use plan::{Head, Joint};

// Where a walk stands: on a router, entered by a side (router times four plus side), at its interface, or nowhere.
#[derive(Clone, Copy, PartialEq, Eq)]
pub enum Step {
    On(usize),
    End,
    Lost,
}

// The side that a router's row gives for a column.
fn side_of(row: &[u8], d: usize) -> u8
    requires { d < length row.now }
    ensures { result ≡ get_or row.now d no_side }
{
    row[d]
}

// The side that a router gives for the interface of a column.
pub fn side_out(routes: &[[u8; 32]; 16], d: usize, r: usize) -> u8
    requires { (d < 32) × (r < 16) }
    ensures { (h : Head) (joints : List ℕ) → result ≡ route_to (table_plan h routes.now joints)
        (interface_at h d) r }
{
    side_of(&routes[r], d)
}

// One step of a walk from a port: through the side given for the column, to the joint that is wanted or to the next
// router.
fn step_to(routes: &[[u8; 32]; 16], joints: &[u8; 64], d: usize, want: Joint, at: usize) -> Step
    requires { (d < 32) × (at < 64) }
    ensures { Stepped routes.now joints.now d want at result }
{
    let r = at / 4;
    let side = usize::from(side_out(routes, d, r));
    if 3 < side {
        return Step::Lost;
    }
    let joint = joint_of(joints[4 * r + side]);
    if joint == want {
        return Step::End;
    }
    match joint {
        Joint::Router(next, side_in) => Step::On(4 * next + side_in),
        _ => Step::Lost,
    }
}

// Where the walk to the interface of a column stands after k routers.
pub fn stands(
    routes: &[[u8; 32]; 16],
    joints: &[u8; 64],
    h: Head,
    d: usize,
    from: usize,
    k: usize,
) -> Step
    requires { (h.actives ≤ 16) × (d < 32) × (from < 64) }
    ensures { result ≡ step_of (walked (table_plan h routes.now joints.now) (interface_at h d) k
        (port_of from)) }
{
    let want = leading_to(h, d);
    let mut at = from;
    for i in 0..k {
        let s = step_to(routes, joints, d, want, at);
        let Step::On(next) = s else {
            return s;
        };
        at = next;
    }
    Step::On(at)
}
