// WRITE in place on a state's bytes: each picked head enters its wire, its queue's flag rises, the next queue's credit
// falls, choices are cleared, the output remembers whom it served; the slot grows by one modulo S.
#![tactic(auto)]

ghost use Rattle.std.specs.Prelude.{◌≡◌, not, suc, ◌+◌, ◌*◌, ◌-◌, ◌≤◌, ◌<◌, eqb, get_or, length, set};
ghost use Rattle.basis.specs.Fold.{up_to};
ghost use Rattle.packets.specs.declared.Phase.TheVariants.{Write};
ghost use Rattle.plan.specs.Head.{Counts};
ghost use Rattle.plan.specs.Lent.{plan_by};
ghost use Rattle.rules.specs.Write.{do_write};
ghost use Rattle.bytes_layout.specs.Decode.{length_at};
ghost use Rattle.bytes_steps.specs.Acts.{Holds, Steps, In};
ghost use Rattle.bytes_steps.specs.Counts.{output_count, turns_from};
ghost use Rattle.next_queue.specs.Wiring.{WiringOf};
ghost use Rattle.phase_write.specs.Writing.{sending, Picking, Picked, sender_of, Raises, Takes, Enters};

use bytes_rows::{packet_at, pop, put_wire};
use bytes_steps::{
    CHOICE_BYTE, FIRST_PLACE, FLAG_BYTE, MARK_BYTE, OUTPUT_WIDTH, PHASE_BYTE, SLOT_BYTE,
    output_count, output_row, queue_row, turn_row,
};
use kinds::{Credit, Slot};
use next_queue::{base_of, next};
use packets::{Packet, Phase, Wire, credit_down, slot_next};
use plan::Head;
use plan::tables::PlanTables;

// The number of the sender of rank k at output m.
fn sender_of(h: Head, m: usize, k: usize) -> usize
    requires { Counts h × (m < output_count h) × (k < 256) }
    ensures { result ≡ sender_of h m k }
{
    let n = h.actives + h.passives;
    if m < n {
        return m;
    }
    let base = base_of(h, (m - n) / 6);
    let o = (m - n) % 6;
    if o < 4 {
        return base + 8 + 5 * o + k;
    }
    if o == 4 {
        return base + k;
    }
    base + 4 + k
}

// A head of the row at i has left by output m: the flag rises, but not that of an out-queue, and a unit's mark goes.
fn raise(h: Head, s: &mut [u8], m: usize, i: usize)
    requires { Counts h × (m < output_count h) × (i + 39 ≤ length s.old) }
    ensures { Raises h m i s.old s.new }
{
    let n = h.actives + h.passives;
    if m < n {
        return;
    }
    if (m - n) % 6 < 5 {
        s[i + FLAG_BYTE] = 1;
        return;
    }
    s[i + MARK_BYTE] = 0;
    s[i + FLAG_BYTE] = 1;
}

// The head of the row at i leaves by output m.
fn take(h: Head, s: &mut [u8], m: usize, i: usize) -> Packet
    requires { Counts h × (m < output_count h) × (i + 39 ≤ length s.old) × (1 ≤ length_at i s.old)
        × (length_at i s.old ≤ 7) }
    ensures { Takes h m i result s.old s.new }
{
    let x = packet_at(s, i + FIRST_PLACE);
    pop(s, i);
    raise(h, s, m, i);
    x
}

// A packet enters the wire whose row is at i for a credit of queue n, and the choice is cleared.
fn enter(s: &mut [u8], i: usize, n: usize, x: Packet)
    requires { (i + 7 ≤ length s.old) × (n ≤ 65535) × (2 + 39 * n < length s.old)
        × (1 ≤ get_or s.old (2 + 39 * n) 0) }
    ensures { Enters i n x s.old s.new }
{
    let j = queue_row(n);
    let c = credit_down(Credit(s[j]));
    s[j] = c.0;
    put_wire(s, i, Wire::Full(x));
    s[i + CHOICE_BYTE] = 0;
}

// Output m remembers the sender that it picked, by the byte of its choice.
fn remember(h: Head, s: &mut [u8], m: usize, c: u8)
    requires { Counts h × (m < output_count h) × (1 ≤ c) × (turns_from h + m < length s.old) }
    ensures { s.new ≡ set s.old (turns_from h + m) (c - 1) }
{
    s[turn_row(h, m)] = c - 1;
}

// The turn of output m: if it picked a sender, that one's head leaves its queue and enters the wire, and the output
// remembers its rank. To a unit the head of U[i] goes to Q[i], which stands four queues behind.
fn send(h: Head, t: &PlanTables, s: &mut [u8], m: usize)
    requires { WiringOf h t.now × (m < output_count h)
        × Holds (plan_by h t.now) (Picking (plan_by h t.now) m) s.old }
    ensures { Steps (plan_by h t.now)
        (Picking (plan_by h t.now) m)
        (sending (plan_by h t.now) m) s.old s.new }
{
    let i = output_row(h, m);
    let c = s[i + CHOICE_BYTE];
    if c == 0 {
        return;
    }
    let n = sender_of(h, m, usize::from(c - 1));
    let x = take(h, s, m, queue_row(n));
    let Some(q) = next(h, t, m, Some(n + 4), x) else {
        unreachable!()
    };
    enter(s, i, q, x);
    remember(h, s, m, c);
}

// Whether output m picked somebody; the outputs' rows begin at `from`.
fn picked(s: &[u8], from: usize, m: usize) -> bool
    requires { from + 7 * m + 6 < length s.now }
    ensures { result ≡ not (eqb (get_or s.now (from + 7 * m + 6) 0) 0) }
{
    s[from + OUTPUT_WIDTH * m + CHOICE_BYTE] != 0
}

// Every output has its turn.
fn send_all(h: Head, t: &PlanTables, s: &mut [u8])
    requires { WiringOf h t.now
        × Holds (plan_by h t.now) (Picked (plan_by h t.now)) s.old }
    ensures { Steps (plan_by h t.now)
        (Picked (plan_by h t.now))
        (up_to (sending (plan_by h t.now)) (output_count h))
        s.old s.new }
{
    let count = output_count(h);
    let from = output_row(h, 0);
    for m in 0..count {
        if picked(s, from, m) {
            send(h, t, s, m);
        }
    }
}

// WRITE.
pub fn write(h: Head, t: &PlanTables, s: &mut [u8])
    requires { WiringOf h t.now
        × Holds (plan_by h t.now) (In (plan_by h t.now) Write) s.old }
    ensures { Steps (plan_by h t.now)
        (In (plan_by h t.now) Write)
        (do_write (plan_by h t.now)) s.old s.new }
{
    let slot = slot_next(Slot(s[SLOT_BYTE]), h.slots);
    send_all(h, t, s);
    s[SLOT_BYTE] = slot.0;
    s[PHASE_BYTE] = u8::from(Phase::Read);
}
