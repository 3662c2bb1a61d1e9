// Load: a plan is accepted exactly if it obeys every plan rule of document 01. Walk: how long a served pair's walk is.
#![tactic(auto)]

ghost use Rattle.std.specs.Prelude.{◌≡◌, [], ◌<◌, get_or, replicate};
ghost use Rattle.plan.specs.Head.{head_of, InRange};
ghost use Rattle.load.specs.Load.{length_ok, load_of, load_number, load_routes, load_joints, load_homes, load_lengths};
ghost use Rattle.load.specs.Load.{load_sides, Blank, FilledIn, no_routes, no_walks, no_destinations};
ghost use Rattle.load.specs.Walk.{walk_of};

use kinds::{Hub, Refusal};
use plan::tables::PlanTables;
use plan::{Head, blank_tables};

// The fewest bytes in which counts and capacities fit.
const HEAD_BYTES: usize = 6;

// Whether the length is the one that the counts give, and no fill bit is set: refusal 3.
fn length_ok(plan: &[u8], h: Head) -> bool
    requires { (h ≡ head_of plan.now) × InRange h }
    ensures { result ≡ length_ok plan.now }
{
    let bits = plan::counts::bit_count(h);
    if plan.len() != (bits + 7) / 8 {
        return false;
    }
    plan::counts::fill_ok(plan, bits)
}

// Load into blank tables: the first refusal that applies, in document 01's order, or the plan's head. The tables are
// filled as the plan is read, each once: an accepted plan's routes, joints, homes, lengths of walks and sets of
// destinations are in them. After a refusal they hold what was read so far, and nothing is said of them.
pub fn fill(plan: &[u8], t: &mut PlanTables) -> Result<Head, Refusal>
    requires { Blank t.old }
    ensures { FilledIn plan.now result t.new }
{
    if plan.len() < HEAD_BYTES {
        return Err(Refusal::TooShort);
    }
    let h = plan::counts::read_head(plan);
    if !plan::counts::head_ok(h) {
        return Err(Refusal::OutOfRange);
    }
    if !length_ok(plan, h) {
        return Err(Refusal::WrongLength);
    }
    let joined = plan::joints::joints(plan, h, &mut t.joints);
    let fit = plan_routes::routes(plan, h, &mut t.routes, &mut t.by);
    if !(joined & fit) {
        return Err(Refusal::BadField);
    }
    if !plan_interfaces::homes(h, &t.joints, &mut t.homes) {
        return Err(Refusal::BadJoint);
    }
    let mut arrive = [0u32; 32];
    let served = load_lengths::walks(h, t, &mut arrive);
    if load_rings::ring_found(h, t, &arrive, &served) {
        return Err(Refusal::HasRing);
    }
    Ok(h)
}

// Load: the first refusal that applies, in document 01's order, or the plan's head. An accepted plan's routes, joints,
// homes and lengths of walks are then in the lent tables, and its destinations by router and side, whatever the tables
// held; a refusal leaves them blank.
pub fn load(plan: &[u8], t: &mut PlanTables) -> Result<Head, Refusal>
    ensures { (result ≡ load_of plan.now)
        × (t.new.routes ≡ load_routes plan.now no_routes (load_of plan.now))
        × (t.new.joints ≡ load_joints plan.now (replicate 64 0) (load_of plan.now))
        × (t.new.homes ≡ load_homes plan.now (replicate 32 0) (load_of plan.now))
        × (t.new.lengths ≡ load_lengths plan.now no_walks (load_of plan.now))
        × (t.new.by ≡ load_sides plan.now no_destinations (load_of plan.now)) }
{
    *t = PlanTables::blank();
    let l = fill(plan, t);
    if l.is_err() {
        *t = PlanTables::blank();
    }
    l
}

// The number of Load's answer, 0 for an accepted plan.
pub fn load_number(l: Result<Head, Refusal>) -> u8
    ensures { result ≡ load_number l }
{
    match l {
        Ok(_) => 0,
        Err(w) => u8::from(w),
    }
}

// The number of routers on a pair's walk, or 0 where the pair is not served.
pub fn pair_walk(lengths: &[[u8; 16]; 16], a: usize, p: usize) -> Hub
    requires { (a < 16) × (p < 16) }
    ensures { result.0 ≡ get_or (get_or lengths.now a []) p 0 }
{
    Hub(lengths[a][p])
}

// The number of routers on a served pair's walk; 0 where the plan does not load, a number is out of range or the pair
// is not served.
pub fn walk(plan: &[u8], active: usize, passive: usize) -> Hub
    ensures { result.0 ≡ walk_of plan.now active passive }
{
    let mut t = blank_tables!();
    let l = fill(plan, &mut t);
    let Ok(h) = l else {
        return Hub(0);
    };
    if h.actives <= active {
        return Hub(0);
    }
    if h.passives <= passive {
        return Hub(0);
    }
    pair_walk(&t.lengths, active, passive)
}
