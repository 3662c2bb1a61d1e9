// Refusal 7: whether bytes are those of a state of the plan, in one pass.
#![tactic(auto)]

ghost use Rattle.std.specs.Prelude.{◌≡◌, Bool, true, List, [], ℕ, ◌+◌, ◌*◌, ◌≤◌, ◌<◌, min, get_or, length};
ghost use Rattle.plan.specs.Head.{InRange};
ghost use Rattle.plan.specs.Tables.{table_plan};
ghost use Rattle.plan.specs.Lent.{plan_by};
ghost use Rattle.bytes_steps.specs.Counts.{state_size};
ghost use Rattle.next_queue.specs.Lent.{LentOf};
ghost use Rattle.check_rule.specs.Check.{check_of};
ghost use Rattle.check_state.specs.Inspect.{header_fits, Passed, checked_of, whole_of, none_spent};

use bytes_steps::{PHASE_BYTE, SLOT_BYTE};
use kinds::Refusal;
use packets::Phase;
use plan::Head;
use plan::tables::PlanTables;

// Whether phase and slot are in range.
fn header_ok(h: Head, s: &[u8]) -> bool
    requires { InRange h × (state_size h ≤ length s.now) }
    ensures { result ≡ header_fits h s.now }
{
    s[PHASE_BYTE] <= u8::from(Phase::Write) && s[SLOT_BYTE] < h.slots
}

// An active's whole allowance: the smaller of its two capacities.
fn whole(h: Head) -> u8
    ensures { result ≡ whole_of h }
{
    h.aout.0.min(h.ain.0)
}

// Packets and whom outputs picked, where something is on the way; what each active has spent is counted.
fn busy_ok(h: Head, t: &PlanTables, s: &[u8], spent: &mut [u8; 16]) -> bool
    requires { LentOf h t.now × (state_size h ≤ length s.now)
        × (get_or s.now 0 0 ≤ 2) × (spent.old ≡ none_spent) }
    ensures { Passed (plan_by h t.now) s.now result
        spent.new }
{
    let mut up = [[0u32; 32]; 17];
    load_arrivals::tracks::tracks(h, &t.joints, &t.homes, &t.by, &mut up);
    let mut coming = [0u8; 512];
    if !check_wires::outputs_ok(h, t, &up, s, &mut coming, spent) {
        return false;
    }
    if !check_queues::lines_ok(h, t, &up, s, &coming, spent) {
        return false;
    }
    if s[PHASE_BYTE] == u8::from(Phase::Write) {
        return check_choices::picks_ok(h, t, s);
    }
    true
}

// Outputs and queues: quiet, or busy and right.
fn places_ok(h: Head, t: &PlanTables, s: &[u8], spent: &mut [u8; 16]) -> bool
    requires { LentOf h t.now × (state_size h ≤ length s.now)
        × (get_or s.now 0 0 ≤ 2) × (spent.old ≡ none_spent) }
    ensures { Passed (plan_by h t.now) s.now result
        spent.new }
{
    if check_idle::quiet(s, h) {
        return true;
    }
    busy_ok(h, t, s, spent)
}

// Whether bytes that are long enough and have a header are a state's.
fn body_ok(h: Head, t: &PlanTables, s: &[u8]) -> bool
    requires { LentOf h t.now × (state_size h ≤ length s.now)
        × (header_fits h s.now ≡ true) }
    ensures { result ≡ check_of (plan_by h t.now) s.now }
{
    let mut spent = [0u8; 16];
    if !places_ok(h, t, s, &mut spent) {
        return false;
    }
    if !check_table::allowances_ok(
        s,
        bytes_steps::allowance_row(h, 0),
        h.actives,
        whole(h),
        &spent,
    ) {
        return false;
    }
    if !check_table::sides_ok(
        s,
        bytes_steps::table_row(h),
        4 * h.routers,
        usize::from(h.slots),
    ) {
        return false;
    }
    if !check_connections::ties_ok(h, t, s) {
        return false;
    }
    check_last_senders::turns_ok(h, &t.joints, s)
}

// Whether bytes are a state's.
pub fn inspect(h: Head, t: &PlanTables, s: &[u8]) -> Result<(), Refusal>
    requires { LentOf h t.now }
    ensures { result ≡ checked_of (check_of (plan_by h t.now) s.now) }
{
    if s.len() < bytes_steps::state_size(h) {
        return Err(Refusal::NotState);
    }
    if header_ok(h, s) && body_ok(h, t, s) {
        return Ok(());
    }
    Err(Refusal::NotState)
}
