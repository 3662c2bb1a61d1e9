// Refusal 6 by links and answers: a ring of feeding queues is a ring of links that the walks of served pairs go by, or
// one of crossings that answers go by. Sets of destinations are words: active d, or passive d - A.
#![tactic(auto)]

ghost use Rattle.std.specs.Prelude.{◌≡◌, false, List, ℕ, ◌*◌, ◌≤◌, length};
ghost use Rattle.basis.specs.Ring.{ring_test};
ghost use Rattle.plan.specs.Plan.{Plan, R};
ghost use Rattle.plan.specs.Head.{Counts};
ghost use Rattle.sets.specs.Sets.{below};
ghost use Rattle.graph_ring.specs.Words.{leads_to};
ghost use Rattle.graph_links.specs.Cells.{leaves_of};
ghost use Rattle.graph_next.specs.Words.{nexts_of, links_of};
ghost use Rattle.load_rings.specs.RingTest.{trail_edge, hand_edge, has_ring};
ghost use Rattle.load_rings.specs.Told.{Told};

use plan::Head;
use plan::tables::PlanTables;

// A plan of few routers has at most so many.
const FEW: usize = 4;

// How many crossings of a link with the next such a plan has at most, and any plan: sixteen to a router.
const FEW_CROSSINGS: usize = 64;

const CROSSINGS: usize = 256;

// Whether what routers have might go round, by the routers that it goes on to: a quick look.
fn routers_ring(by: &[[u32; 4]; 16], joints: &[u8; 64], used: &[u32; 32], n: usize) -> bool
    requires { n ≤ 16 }
    ensures { result ≡ ring_test n (leads_to (nexts_of by.now joints.now used.now n)) }
{
    let mut to = [0u64; 16];
    let some = graph_next::nexts(by, joints, used, n, &mut to);
    graph_ring::words::has_ring(&to, n, some)
}

// Whether it goes round, by the sides that it leaves by.
fn trails_ring(by: &[[u32; 4]; 16], joints: &[u8; 64], used: &[u32; 32], n: usize) -> bool
    requires { n ≤ 16 }
    ensures { result ≡ ring_test (4 * n) (leads_to (links_of
        (leaves_of by.now used.now (below 32) (4 * n)) joints.now (4 * n))) }
{
    let mut gone = [0u32; 64];
    graph_links::leaves(by, used, sets::below(32), n, &mut gone);
    let mut to = [0u64; 64];
    let some = graph_next::links(&gone, joints, 4 * n, &mut to);
    graph_ring::words::has_ring(&to, 4 * n, some)
}

// Whether walks of served pairs go round.
fn walks_ring(h: Head, t: &PlanTables, served: &[u32; 16]) -> bool
    requires { Counts h }
    ensures { (pl : Plan) (arrive : List ℕ)
        → Told pl h t.now.by t.now.joints t.now.homes arrive served.now
        → result ≡ ring_test (4 * R pl) (trail_edge pl) }
{
    let n = h.routers;
    let mut used = [0u32; 32];
    graph_links::starts::carried(&t.by, &t.joints, &t.homes, served, n, h.actives, &mut used);
    if !routers_ring(&t.by, &t.joints, &used, n) {
        return false;
    }
    trails_ring(&t.by, &t.joints, &used, n)
}

// Whether answers might go round, if every router sent some to each served active that it reaches: a quick look.
fn links_ring(h: Head, t: &PlanTables, arrive: &[u32; 32], served: &[u32; 16]) -> bool
    requires { Counts h }
    ensures { (pl : Plan) (homes : List ℕ)
        → Told pl h t.now.by t.now.joints homes arrive.now served.now
        → result ≡ false → ring_test (16 * R pl) (hand_edge pl) ≡ false }
{
    let n = h.routers;
    let live = graph_links::starts::live(served, h.actives);
    let mut gone = [0u32; 64];
    graph_links::leaves(&t.by, arrive, live, n, &mut gone);
    let mut to = [0u64; 64];
    let some = graph_next::links(&gone, &t.joints, 4 * n, &mut to);
    graph_ring::words::has_ring(&to, 4 * n, some)
}

// Whether answers go round; the crossings are put into a lent table, sixteen to a router.
fn answers_round(h: Head, t: &PlanTables, served: &[u32; 16], cells: &mut [u32]) -> bool
    requires { Counts h × (16 * h.routers ≤ length cells.old) }
    ensures { (pl : Plan) (arrive : List ℕ)
        → Told pl h t.now.by t.now.joints t.now.homes arrive served.now
        → result ≡ ring_test (16 * R pl) (hand_edge pl) }
{
    let n = h.routers;
    let mut sent = [0u32; 32];
    graph_links::starts::answers(&t.by, &t.joints, &t.homes, served, n, h.actives, &mut sent);
    let mut gone = [0u32; 64];
    graph_links::leaves(&t.by, &sent, sets::below(32), n, &mut gone);
    graph_links::cross_cells(&gone, &t.joints, 16 * n, cells);
    graph_ring::has_ring(cells, 4 * n)
}

// The same with a table of N crossings, in a plan that has no more.
fn answers_by<const N: usize>(h: Head, t: &PlanTables, served: &[u32; 16]) -> bool
    requires { Counts h × (16 * h.routers ≤ N) × (N ≤ 256) }
    ensures { (pl : Plan) (arrive : List ℕ)
        → Told pl h t.now.by t.now.joints t.now.homes arrive served.now
        → result ≡ ring_test (16 * R pl) (hand_edge pl) }
{
    let mut cells = [0u32; N];
    answers_round(h, t, served, &mut cells)
}

// The same in any plan; the table is as large as the plan needs.
fn answers_ring(h: Head, t: &PlanTables, served: &[u32; 16]) -> bool
    requires { Counts h }
    ensures { (pl : Plan) (arrive : List ℕ)
        → Told pl h t.now.by t.now.joints t.now.homes arrive served.now
        → result ≡ ring_test (16 * R pl) (hand_edge pl) }
{
    if h.routers <= FEW {
        return answers_by::<FEW_CROSSINGS>(h, t, served);
    }
    answers_by::<CROSSINGS>(h, t, served)
}

// Whether some queues feed each other in a ring, for tables that tell what a plan says.
pub fn ring_found(h: Head, t: &PlanTables, arrive: &[u32; 32], served: &[u32; 16]) -> bool
    requires { Counts h }
    ensures { (pl : Plan)
        → Told pl h t.now.by t.now.joints t.now.homes arrive.now served.now
        → result ≡ has_ring pl }
{
    if h.routers == 1 {
        return false;
    }
    if walks_ring(h, t, served) {
        return true;
    }
    if links_ring(h, t, arrive, served) {
        return answers_ring(h, t, served);
    }
    false
}
