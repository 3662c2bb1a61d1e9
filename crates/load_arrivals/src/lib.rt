// All walks of a plan at once: which routers they meet, and which pairs are served. How long they are: see
// load_lengths.
#![tactic(auto)]

ghost use Rattle.std.specs.Prelude.{◌≡◌, ◌+◌, ◌*◌, ◌/◌, ◌%◌, ◌≤◌, ◌<◌, get_or, replicate};
ghost use Rattle.plan.specs.Head.{Counts};
ghost use Rattle.load_arrivals.specs.Tables.{next_of, nexts_of, PortsIn, first_of, firsts_of, far_of};

use plan::joints::joint_of;
use plan::{Head, Joint};
use sets::{below, both, either, less, single};

// Which pairs are served.
pub mod served;
// Which routers the walks meet.
pub mod tracks;

// No router beyond a side.
const NO_ROUTER: u8 = 16;

// The router that a joint's byte leads to, or 16.
fn next_of(v: u8) -> u8
    ensures { result ≡ next_of v }
{
    match joint_of(v) {
        Joint::Router(r, _) => r as u8,
        _ => NO_ROUTER,
    }
}

// The router beyond each port, or 16.
pub fn nexts(joints: &[u8; 64], routers: usize) -> [u8; 64]
    requires { routers ≤ 16 }
    ensures { result ≡ nexts_of joints.now routers }
{
    let mut t = [NO_ROUTER; 64];
    for (k, beyond) in t[..4 * routers].iter_mut().enumerate() {
        *beyond = next_of(joints[k]);
    }
    t
}

// The port of a destination.
pub fn port(homes: &[u8; 32], d: usize, n: usize) -> usize
    requires { (d < n) × (n ≤ 32) × PortsIn homes.now n }
    ensures { (result ≡ get_or homes.now d 0) × (result < 64) }
{
    usize::from(homes[d])
}

// A router's set with the destination of one of its ports, where its side for the destination is that port's.
fn first_of(by: &[[u32; 4]; 16], t: u32, k: usize, d: usize) -> u32
    requires { (k < 64) × (d < 32) }
    ensures { result ≡ first_of by.now t k d }
{
    either(t, both(by[k / 4][k % 4], single(d)))
}

// By router: the destinations that are one step away.
pub fn firsts(by: &[[u32; 4]; 16], homes: &[u8; 32], n: usize, t: &mut [u32; 32])
    requires { (n ≤ 32) × PortsIn homes.now n × (t.old ≡ replicate 32 0) }
    ensures { t.new ≡ firsts_of by.now homes.now n }
{
    for d in 0..n {
        let k = port(homes, d, n);
        t[k / 4] = first_of(by, t[k / 4], k, d);
    }
}

// The destinations that are passives.
pub fn far_of(h: Head) -> u32
    requires { Counts h }
    ensures { result ≡ far_of h }
{
    less(below(h.actives + h.passives), below(h.actives))
}
