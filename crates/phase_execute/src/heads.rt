// EXECUTE 1: each unit handles the head of each of its queues once, if it is not handled yet, side 0 first.
ghost use Rattle.std.specs.Prelude.{◌≡◌, [], ◌+◌, ◌*◌, ◌≤◌, ◌<◌, get_or, length};
ghost use Rattle.packets.specs.declared.Kind.TheVariants.{Setup, Tdown};
ghost use Rattle.plan.specs.Head.{Counts};
ghost use Rattle.plan.specs.Plan.{no_side};
ghost use Rattle.plan.specs.Lent.{plan_by};
ghost use Rattle.plan_queues.specs.Queue.{Q};
ghost use Rattle.basis.specs.Fold.{up_to};
ghost use Rattle.rules.specs.Execute.{may_book, unit, unit_at};
ghost use Rattle.bytes_layout.specs.Offsets.{queue_row};
ghost use Rattle.bytes_layout.specs.Decode.{length_at};
ghost use Rattle.bytes_steps.specs.Acts.{Holds, Steps};
ghost use Rattle.next_queue.specs.Wiring.{WiringOf};
ghost use Rattle.phase_execute.specs.Moments.{Turn, Heads};
ghost use Rattle.phase_execute.specs.Lent.{put_back, settled, Settles, entries_at, spares};

use bytes_steps::{FIRST_PLACE, FLAG_BYTE, LENGTH_BYTE, MARK_BYTE};
use packets::{Kind, Packet};
use phase_unit::Queue;
use plan::Head;
use plan::tables::PlanTables;

// Q[0] is the fifth of a router's queues.
const Q_PLACE: usize = 4;

// A unit's queue is put back into its row: an ended head leaves it, another stands in the first place with its mark.
fn put_back(s: &mut [u8], at: usize, q: Queue)
    requires { (at + 39 ≤ length s.old) × (1 ≤ length_at at s.old) × (length_at at s.old ≤ 7) }
    ensures { s.new ≡ put_back at q s.old }
{
    if q.flag == 0 {
        bytes_rows::put_packet(s, at + FIRST_PLACE, q.head);
        s[at + MARK_BYTE] = q.mark;
    } else {
        bytes_rows::pop(s, at);
        s[at + FLAG_BYTE] = q.flag;
    }
}

// The unit's queue is taken from its row, lent to the handling step, and put back. Its head is x.
fn settle(s: &mut [u8], at: usize, x: Packet, may: u8, slots: u8)
    requires { Settles at x slots s.old }
    ensures { s.new ≡ settled at x may slots s.old }
{
    let q = Queue {
        flag: s[at + FLAG_BYTE],
        mark: s[at + MARK_BYTE],
        len: s[at + LENGTH_BYTE],
        head: x,
    };
    put_back(s, at, phase_unit::lend(q, may, slots));
}

// Whether slot u is another than t and its entry, of a side whose entries begin at an offset, is free.
fn spare(s: &[u8], at: usize, t: usize, u: usize) -> bool
    requires { (at + 2 * u < length s.now) × (u ≤ 32) }
    ensures { result ≡ spares (entries_at at s.now) t u }
{
    if u == t {
        return false;
    }
    s[at + 2 * u] == 0
}

// Whether the entry of slot t, of a side whose entries begin at an offset, is free and not the only free one.
fn may_book(s: &[u8], at: usize, t: usize, slots: usize) -> bool
    requires { (at + 2 * slots ≤ length s.now) × (t < slots) × (slots ≤ 32) }
    ensures { result ≡ may_book slots (entries_at at s.now) t }
{
    if s[at + 2 * t] != 0 {
        return false;
    }
    (0..slots).any(|u| spare(s, at, t, u))
}

// The side by which the walk of a packet's pair leaves router r.
fn side_of(h: Head, routes: &[[u8; 32]; 16], r: usize, x: Packet) -> usize
    requires { Counts h × (r < 16) × (x.passive < 16) }
    ensures { result ≡ get_or (get_or routes.now r []) (h.actives + x.passive) no_side }
{
    next_queue::side_out(routes, r, h.actives + usize::from(x.passive))
}

// A SETUP: its entry is booked, if it may be, with the side by which the walk came in, which is its queue's.
fn set_up(h: Head, t: &PlanTables, r: usize, i: usize, at: usize, x: Packet, s: &mut [u8])
    requires { WiringOf h t.now × (r < h.routers) × (i < 4) × (x.kind ≡ Setup)
        × (at ≡ queue_row (plan_by h t.now) (Q r i))
        × Holds (plan_by h t.now) (Heads (plan_by h t.now) r i x)
        s.old }
    ensures { Steps (plan_by h t.now)
        (Heads (plan_by h t.now) r i x)
        (unit (plan_by h t.now) r i) s.old s.new }
{
    let o = side_of(h, &t.routes, r, x);
    let near = bytes_steps::entry_row(h, r, o, 0);
    let slot = usize::from(x.slot.0);
    if may_book(s, near, slot, usize::from(h.slots)) {
        s[near + 2 * slot] = (i + 1) as u8;
        settle(s, at, x, 1, h.slots);
    } else {
        settle(s, at, x, 0, h.slots);
    }
}

// A TDOWN: its entry is freed.
fn tear_down(h: Head, t: &PlanTables, r: usize, i: usize, at: usize, x: Packet, s: &mut [u8])
    requires { WiringOf h t.now × (r < h.routers) × (i < 4) × (x.kind ≡ Tdown)
        × (at ≡ queue_row (plan_by h t.now) (Q r i))
        × Holds (plan_by h t.now) (Heads (plan_by h t.now) r i x)
        s.old }
    ensures { Steps (plan_by h t.now)
        (Heads (plan_by h t.now) r i x)
        (unit (plan_by h t.now) r i) s.old s.new }
{
    let o = side_of(h, &t.routes, r, x);
    let near = bytes_steps::entry_row(h, r, o, usize::from(x.slot.0));
    s[near] = 0;
    settle(s, at, x, 0, h.slots);
}

// Router r's unit handles the head of Q[i], if it has one that is not handled.
fn unit_at(h: Head, t: &PlanTables, r: usize, i: usize, s: &mut [u8])
    requires { WiringOf h t.now × (r < h.routers) × (i < 4)
        × Holds (plan_by h t.now) (Turn (plan_by h t.now) (4 * r + i))
        s.old }
    ensures { Steps (plan_by h t.now)
        (Turn (plan_by h t.now) (4 * r + i))
        (unit (plan_by h t.now) r i) s.old s.new }
{
    let at = bytes_steps::queue_row(next_queue::base_of(h, r) + Q_PLACE + i);
    if s[at + LENGTH_BYTE] == 0 {
        return;
    }
    if s[at + MARK_BYTE] != 0 {
        return;
    }
    let x = bytes_rows::packet_at(s, at + FIRST_PLACE);
    match x.kind {
        Kind::Setup => set_up(h, t, r, i, at, x, s),
        Kind::Tdown => tear_down(h, t, r, i, at, x, s),
        Kind::Ack => {}
        Kind::Nack => {}
    }
}

// Every unit in turn, and of each its queues, side 0 first.
pub fn heads(h: Head, t: &PlanTables, s: &mut [u8])
    requires { WiringOf h t.now
        × Holds (plan_by h t.now) (Turn (plan_by h t.now) 0) s.old }
    ensures { Steps (plan_by h t.now)
        (Turn (plan_by h t.now) 0)
        (up_to (unit_at (plan_by h t.now)) (4 * h.routers))
        s.old s.new }
{
    let n = 4 * h.routers;
    for m in 0..n {
        unit_at(h, t, m / 4, m % 4, s);
    }
}
