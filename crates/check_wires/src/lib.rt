// The outputs' rows of a state: whether each wire's packet belongs where it goes, how many packets are on the way to
// each queue, and what the packets on wires have spent. Whom each output picked is looked at in `check_choices`.
#![tactic(auto)]

ghost use Rattle.std.specs.Prelude.{◌≡◌, true, false, List, ℕ, ◌+◌, ◌*◌, ◌≤◌, ◌<◌, get_or, length, IfSome};
ghost use Rattle.std.specs.Option.{unwrap_or};
ghost use Rattle.plan.specs.Head.{Counts};
ghost use Rattle.plan.specs.Plan.{Plan};
ghost use Rattle.plan.specs.Tables.{table_plan};
ghost use Rattle.plan.specs.Lent.{plan_by};
ghost use Rattle.rules.specs.Outputs.{output_at};
ghost use Rattle.next_queue.specs.Next.{no_queue, AtUnit};
ghost use Rattle.check_places.specs.Asked.{Asked};
ghost use Rattle.bytes_steps.specs.Counts.{state_size, output_count, outputs_from};
ghost use Rattle.check_rule.specs.Forms.{zeros};
ghost use Rattle.check_rule.specs.Check.{outputs_part};
ghost use Rattle.check_queues.specs.Ready.{ReadyOf};
ghost use Rattle.check_wires.specs.Outputs.{full_at, UpTo, Carried, OutputChecked, OutputsChecked};

use check_idle::four;
use packets::Packet;
use plan::Head;
use plan::tables::PlanTables;

// Whether 4 + k bytes from i on are zero, k at most 4.
fn blank(s: &[u8], i: usize, k: usize) -> bool
    requires { (i + (k + 4) ≤ length s.now) × (k ≤ 4) }
    ensures { result ≡ zeros i (k + 4) s.now }
{
    four(s, i) == 0 && four(s, i + k) == 0
}

// Whether the row at i has a full wire, with a packet of one of four kinds, and nobody is picked.
fn full(s: &[u8], i: usize) -> bool
    requires { i + 7 ≤ length s.now }
    ensures { result ≡ full_at i s.now }
{
    if s[i + 6] != 0 {
        return false;
    }
    if s[i] != 1 {
        return false;
    }
    s[i + 1] <= 3
}

// The queue at a unit that a packet of a served pair joins, if output m leads to a unit: that of the side by which the
// pair's walk comes in there.
fn at_unit(h: Head, t: &PlanTables, up: &[[u32; 32]; 17], m: usize, x: Packet) -> Option<usize>
    requires { Counts h × (m < output_count h) × (x.active < 16) × (x.passive < 16)
        × (get_or t.now.homes x.active 0 < 64) }
    ensures queue { (outs inner : ℕ) (routes lengths : List (List ℕ))
        → Asked h h.actives outs inner routes t.now.joints t.now.homes lengths t.now.by
        up.now x.active x.passive
        → AtUnit (table_plan h routes t.now.joints) (output_at (table_plan h routes t.now.joints) m) x
        (unwrap_or result no_queue) }
    ensures below { IfSome result (λ n. n < no_queue) }
{
    let d = h.actives + h.passives;
    if m < d {
        return None;
    }
    if (m - d) % 6 != 4 {
        return None;
    }
    let r = (m - d) / 6;
    let i = check_places::came_in(h.actives, t, up, x, r)?;
    Some(next_queue::base_of(h, r) + 4 + i)
}

// Whether a packet on output m's wire belongs where it goes; READ. It is counted, for its queue and for its active.
fn joins(
    h: Head,
    t: &PlanTables,
    up: &[[u32; 32]; 17],
    m: usize,
    x: Packet,
    coming: &mut [u8; 512],
    spent: &mut [u8; 16],
) -> bool
    requires { ReadyOf h t.now up.now × (m < output_count h)
        × UpTo (plan_by h t.now) m coming.old }
    ensures { Carried (plan_by h t.now) m x result
        coming.old coming.new spent.old spent.new }
{
    if !check_queues::packet_ok(h, &t.lengths, x) {
        return false;
    }
    let q = at_unit(h, t, up, m, x);
    let Some(n) = next_queue::next(h, t, m, q, x) else {
        return false;
    };
    if !check_places::fits(
        h.actives,
        h.actives + h.passives,
        28 * h.routers,
        t,
        up,
        n,
        false,
        x.kind,
        x.active,
        x.passive,
        x.hub.0,
    ) {
        return false;
    }
    coming[n] += 1;
    check_queues::tally(spent, x);
    true
}

// Whether output m, whose row at i is not all zero, has a packet on its wire that belongs where it goes, and picked
// nobody; READ. The packet is counted.
fn wire_ok(
    h: Head,
    t: &PlanTables,
    up: &[[u32; 32]; 17],
    s: &[u8],
    m: usize,
    i: usize,
    coming: &mut [u8; 512],
    spent: &mut [u8; 16],
) -> bool
    requires { ReadyOf h t.now up.now × (m < output_count h)
        × UpTo (plan_by h t.now) m coming.old × (state_size h ≤ length s.now)
        × (get_or s.now 0 0 ≡ 0) × (i ≡ outputs_from h + 7 * m) × (zeros i 7 s.now ≡ false) }
    ensures { OutputChecked (plan_by h t.now) s.now m result
        coming.old coming.new spent.old spent.new }
{
    if !full(s, i) {
        return false;
    }
    let x = bytes_rows::packet_at(s, i + 1);
    joins(h, t, up, m, x, coming, spent)
}

// The same of any row of READ; a row of zero bytes is an empty wire.
fn output_ok(
    h: Head,
    t: &PlanTables,
    up: &[[u32; 32]; 17],
    s: &[u8],
    m: usize,
    i: usize,
    coming: &mut [u8; 512],
    spent: &mut [u8; 16],
) -> bool
    requires { ReadyOf h t.now up.now × (m < output_count h)
        × UpTo (plan_by h t.now) m coming.old × (state_size h ≤ length s.now)
        × (get_or s.now 0 0 ≡ 0) × (i ≡ outputs_from h + 7 * m) }
    ensures { OutputChecked (plan_by h t.now) s.now m result
        coming.old coming.new spent.old spent.new }
{
    if blank(s, i, 3) {
        return true;
    }
    wire_ok(h, t, up, s, m, i, coming, spent)
}

// The outputs in READ.
fn outputs_read(
    h: Head,
    t: &PlanTables,
    up: &[[u32; 32]; 17],
    s: &[u8],
    coming: &mut [u8; 512],
    spent: &mut [u8; 16],
) -> bool
    requires { ReadyOf h t.now up.now
        × (state_size h ≤ length s.now) × (get_or s.now 0 0 ≡ 0) × ((n : ℕ) → get_or coming.old n 0 ≡ 0) }
    ensures { OutputsChecked (plan_by h t.now) s.now result
        coming.old coming.new spent.old spent.new }
{
    let n = bytes_steps::output_count(h);
    let at = bytes_steps::output_row(h, 0);
    for m in 0..n {
        if !output_ok(h, t, up, s, m, at + 7 * m, coming, spent) {
            return false;
        }
    }
    true
}

// The outputs in WRITE: their wires are empty.
fn outputs_write(h: Head, s: &[u8]) -> bool
    requires { Counts h × (state_size h ≤ length s.now) × (get_or s.now 0 0 ≡ 2) }
    ensures { (pl : Plan) → pl.head ≡ h → result ≡ outputs_part pl s.now }
{
    let n = bytes_steps::output_count(h);
    let at = bytes_steps::output_row(h, 0);
    (0..n).all(|m| blank(s, at + 7 * m, 2))
}

// All outputs, but for whom they picked.
pub fn outputs_ok(
    h: Head,
    t: &PlanTables,
    up: &[[u32; 32]; 17],
    s: &[u8],
    coming: &mut [u8; 512],
    spent: &mut [u8; 16],
) -> bool
    requires { ReadyOf h t.now up.now
        × (state_size h ≤ length s.now) × (get_or s.now 0 0 ≤ 2) × ((n : ℕ) → get_or coming.old n 0 ≡ 0) }
    ensures { OutputsChecked (plan_by h t.now) s.now result
        coming.old coming.new spent.old spent.new }
{
    if s[0] == 0 {
        return outputs_read(h, t, up, s, coming, spent);
    }
    if s[0] == 2 {
        return outputs_write(h, s);
    }
    check_idle::zeros(
        s,
        bytes_steps::output_row(h, 0),
        7 * bytes_steps::output_count(h),
    )
}
