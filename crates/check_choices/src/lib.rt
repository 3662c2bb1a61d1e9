// Whom an output picked: one of its senders that has a head which may leave, whose next queue has credit and whose
// flag is down.
#![tactic(auto)]

ghost use Rattle.std.specs.Prelude.{◌≡◌, true, ◌+◌, ◌*◌, ◌≤◌, ◌<◌, length, IfSome};
ghost use Rattle.std.specs.Option.{unwrap_or};
ghost use Rattle.std.proofs.Math.Option.{some};
ghost use Rattle.plan.specs.Head.{Counts};
ghost use Rattle.plan.specs.Tables.{table_plan};
ghost use Rattle.plan.specs.Lent.{plan_by};
ghost use Rattle.plan_queues.specs.Queue.{queue_at};
ghost use Rattle.plan_queues.specs.Feeds.{output_of};
ghost use Rattle.rules.specs.Outputs.{output_at};
ghost use Rattle.bytes_layout.specs.Decode.{decode};
ghost use Rattle.bytes_steps.specs.Counts.{state_size, queue_count, output_count, outputs_from};
ghost use Rattle.next_queue.specs.Next.{no_queue};
ghost use Rattle.next_queue.specs.Wiring.{WiringOf};
ghost use Rattle.check_rule.specs.Check.{queues_part, picks_part};
ghost use Rattle.check_rule.specs.Parts.{pick_test};
ghost use Rattle.check_choices.specs.Picks.{sender_in, sender_of, may_leave_at, may_send};

use plan::Head;
use plan::tables::PlanTables;

// The sender of rank k at the o-th output of router r, if there is one.
fn sender_in(h: Head, r: usize, o: usize, k: usize) -> Option<usize>
    requires { Counts h × (r < 16) × (o < 6) }
    ensures sender { unwrap_or result no_queue ≡ sender_in h r o k }
    ensures below { IfSome result (λ n. n < no_queue) }
{
    let base = next_queue::base_of(h, r);
    if o < 4 {
        return if k < 5 {
            Some(base + 8 + 5 * o + k)
        } else {
            None
        };
    }
    if o == 4 {
        return if k < 4 { Some(base + k) } else { None };
    }
    if k < 4 { Some(base + 4 + k) } else { None }
}

// The sender of rank k at output m, if there is one.
pub fn sender_of(h: Head, m: usize, k: usize) -> Option<usize>
    requires { Counts h × (m < output_count h) }
    ensures sender { unwrap_or result no_queue ≡ sender_of h m k }
    ensures below { IfSome result (λ n. n < no_queue) }
{
    let d = h.actives + h.passives;
    if m < d {
        return if k == 0 { Some(m) } else { None };
    }
    sender_in(h, (m - d) / 6, (m - d) % 6, k)
}

// Whether the head of queue n, whose row is at i, may leave: at a unit only a handled one.
fn may_leave(h: Head, s: &[u8], n: usize, i: usize) -> bool
    requires { Counts h × (i + 2 < length s.now) }
    ensures { result ≡ may_leave_at h s.now n i }
{
    if check_frames::unit_at(h, n) {
        return s[i + 2] != 0;
    }
    true
}

// Whether the head of queue n, one of its senders, may leave by output m.
fn may_send(h: Head, t: &PlanTables, s: &[u8], m: usize, n: usize) -> bool
    requires { WiringOf h t.now × (state_size h ≤ length s.now)
        × (queues_part (plan_by h t.now) s.now ≡ true) × (m < output_count h)
        × (n < queue_count h)
        × (output_of (queue_at (plan_by h t.now) n)
        ≡ some (output_at (plan_by h t.now) m)) }
    ensures { result ≡ may_send (plan_by h t.now) s.now m n }
{
    let i = bytes_steps::queue_row(n);
    if s[i + 3] == 0 {
        return false;
    }
    if s[i + 1] != 0 {
        return false;
    }
    if !may_leave(h, s, n, i) {
        return false;
    }
    let x = bytes_rows::packet_at(s, i + 4);
    let Some(q) = next_queue::next(h, t, m, Some(n + 4), x) else {
        return false;
    };
    s[bytes_steps::queue_row(q)] != 0
}

// Whether output m, whose row is at i, picked nobody, or one that it may.
fn pick_ok(h: Head, t: &PlanTables, s: &[u8], m: usize, i: usize) -> bool
    requires { WiringOf h t.now × (state_size h ≤ length s.now)
        × (queues_part (plan_by h t.now) s.now ≡ true) × (m < output_count h)
        × (i ≡ outputs_from h + 7 * m) }
    ensures { result ≡ pick_test (plan_by h t.now)
        (decode (plan_by h t.now) s.now)
        (output_at (plan_by h t.now) m) }
{
    let c = usize::from(s[i + 6]);
    if c == 0 {
        return true;
    }
    let Some(n) = sender_of(h, m, c - 1) else {
        return false;
    };
    may_send(h, t, s, m, n)
}

// All outputs.
pub fn picks_ok(h: Head, t: &PlanTables, s: &[u8]) -> bool
    requires { WiringOf h t.now × (state_size h ≤ length s.now)
        × (queues_part (plan_by h t.now) s.now ≡ true) }
    ensures { result ≡ picks_part (plan_by h t.now) s.now }
{
    let n = bytes_steps::output_count(h);
    let at = bytes_steps::output_row(h, 0);
    (0..n).all(|m| pick_ok(h, t, s, m, at + 7 * m))
}
