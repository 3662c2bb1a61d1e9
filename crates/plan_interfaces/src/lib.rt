// What the joints join: routers by a joint at each end, each interface by exactly one.
#![tactic(auto)]

ghost use Rattle.std.specs.Prelude.{◌≡◌, true, ◌&&◌, [], ℕ, ◌≤◌, ◌<◌, Some, None, length, get_or, replicate};
ghost use Rattle.plan.specs.declared.Head.{Head};
ghost use Rattle.plan.specs.Head.{destinations, Counts};
ghost use Rattle.plan.specs.Rules.{back_ok, joint_of_port, named_ok, meet, ports_of, interfaces_ok};
ghost use Rattle.plan.specs.Tables.{table_plan, interface_at, homes_of, joint_byte_ok, joint_bytes_ok};
ghost use Rattle.plan.specs.Found.{column_of, mark_of, found_step, found_of, port_of_cell};

use plan::joints::{SIDES, joint_of, leading_to};
use plan::{Head, Joint, Ports};

// A cell of a column that no port was found for, and of one with several.
const NONE_FOUND: u8 = 64;

const MORE_FOUND: u8 = 65;

// The byte of a joint to port 0.
const ROUTER_FROM: usize = 64;

// Whether the i-th port, if it is joined to a router, is joined to another router, whose joint names it back.
pub fn back_ok(joints: &[u8; 64], i: usize) -> bool
    requires { i < 64 }
    ensures { (h : Head) → result ≡ back_ok (table_plan h [] joints.now) i
        (joint_of_port (table_plan h [] joints.now) i) }
{
    let Joint::Router(r, side) = joint_of(joints[i]) else {
        return true;
    };
    let w = joints[SIDES * r + side];
    (r != i / SIDES) & (w == (ROUTER_FROM + i) as u8)
}

// What was found once one more port, number i, is.
fn met(found: Ports, i: usize) -> Ports
    ensures { result ≡ meet true i found }
{
    match found {
        Ports::Missing => Ports::One(i),
        _ => Ports::Several,
    }
}

// The ports joined to the interface of column d.
pub fn ports(h: Head, joints: &[u8; 64], d: usize) -> Ports
    requires { (h.routers ≤ 16) × (h.actives ≤ 16) × (h.passives ≤ 16) × (d < destinations h) }
    ensures { result ≡ ports_of (table_plan h [] joints.now) (interface_at h d) }
{
    let wanted = leading_to(h, d);
    let mut found = Ports::Missing;
    for (i, v) in joints[..SIDES * h.routers].iter().enumerate() {
        if joint_of(*v) == wanted {
            found = met(found, i);
        }
    }
    found
}

// The column of the interface that a joint's byte names, if it names one.
fn column(h: Head, v: u8) -> Option<usize>
    requires { Counts h × (joint_byte_ok h v ≡ true) }
    ensures { ((d : ℕ) → result ≡ Some d → (d ≡ column_of h.actives h.passives v) × (d < 32) × (128 ≤ v))
        × (result ≡ None → v < 128) }
{
    match joint_of(v) {
        Joint::Active(a) => Some(a),
        Joint::Passive(p) => Some(h.actives + p),
        _ => None,
    }
}

// A column's cell after one more port.
fn mark(cell: u8, i: u8) -> u8
    ensures { result ≡ mark_of cell i }
{
    if cell == NONE_FOUND { i } else { MORE_FOUND }
}

// One more port: that of an interface is marked; answers false for a router joint that is not named back.
fn visit(h: Head, joints: &[u8; 64], t: &mut [u8; 32], i: usize) -> bool
    requires { Counts h × (i < 64) × (joint_byte_ok h (get_or joints.now i 0) ≡ true) }
    ensures { (t.new ≡ found_step h.actives h.passives joints.now i t.old)
        × (result ≡ back_ok (table_plan h [] joints.now) i
        (joint_of_port (table_plan h [] joints.now) i)) }
{
    let Some(d) = column(h, joints[i]) else {
        return back_ok(joints, i);
    };
    t[d] = mark(t[d], i as u8);
    true
}

// The port of each interface, by column; answers whether each router joint is named back by another router: refusal 5.
fn found(h: Head, joints: &[u8; 64], t: &mut [u8; 32]) -> bool
    requires { Counts h × (joint_bytes_ok h joints.now ≡ true) × (t.old ≡ replicate 32 64) }
    ensures { (t.new ≡ found_of h joints.now)
        × (result ≡ named_ok (table_plan h [] joints.now)) }
{
    let n = SIDES * h.routers;
    let mut ok = true;
    for i in 0..n {
        ok = ok & visit(h, joints, t, i);
    }
    ok
}

// The port of a cell, and 0 where it has none.
fn port_or_0(cell: u8) -> u8
    ensures { result ≡ port_of_cell cell }
{
    if cell < NONE_FOUND { cell } else { 0 }
}

// The port number of every interface, by column; answers whether router joints are named back by another router, and
// each interface has exactly one joint: refusal 5.
pub fn homes(h: Head, joints: &[u8; 64], r: &mut [u8; 32]) -> bool
    requires { Counts h × (joint_bytes_ok h joints.now ≡ true) × (r.old ≡ replicate 32 0) }
    ensures { (r.new ≡ homes_of (table_plan h [] joints.now))
        × (result ≡ (named_ok (table_plan h [] joints.now) && interfaces_ok
        (table_plan h [] joints.now))) }
{
    let mut t = [NONE_FOUND; 32];
    let named = found(h, joints, &mut t);
    let n = h.actives + h.passives;
    let mut ok = true;
    for d in 0..n {
        ok = ok & (t[d] < NONE_FOUND);
        r[d] = port_or_0(t[d]);
    }
    named & ok
}
