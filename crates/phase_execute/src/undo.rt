// EXECUTE 3: an active whose in-queue starts with an unmarked NACK tears down what was booked.
ghost use Rattle.std.specs.Prelude.{◌≡◌, ◌+◌, ◌≤◌, ◌<◌};
ghost use Rattle.basis.specs.Fold.{up_to};
ghost use Rattle.plan.specs.Lent.{plan_by};
ghost use Rattle.rules.specs.Execute.{marked, tdown_of, undo};
ghost use Rattle.plan_queues.specs.Queue.{active_in};
ghost use Rattle.bytes_layout.specs.Offsets.{queue_row};
ghost use Rattle.theory.specs.Invariant.{Core};
ghost use Rattle.bytes_steps.specs.Acts.{Holds, Steps};
ghost use Rattle.next_queue.specs.Wiring.{WiringOf};
ghost use Rattle.phase_execute.specs.Moments.{Starts};

use bytes_steps::{FIRST_PLACE, LENGTH_BYTE};
use kinds::Hub;
use packets::{Kind, Packet};
use plan::Head;
use plan::tables::PlanTables;

// The NACK marked: its hub is 0.
fn mark(x: Packet) -> Packet
    ensures { result ≡ marked x }
{
    Packet { hub: Hub(0), ..x }
}

// The TDOWN of a NACK: its hub, and the start slot.
fn tdown_of(x: Packet, slots: u8) -> Packet
    requires { (x.slot.0 < slots) × (slots ≤ 32) }
    ensures { result ≡ tdown_of slots x }
{
    Packet {
        kind: Kind::Tdown,
        slot: packets::start_slot(x.slot, x.hub, slots),
        ..x
    }
}

// Active a's in-queue, whose row is at an offset, starts with x: an unmarked NACK is torn down where the out-queue has
// room.
fn tear(h: Head, t: &PlanTables, a: usize, at: usize, x: Packet, s: &mut [u8])
    requires { WiringOf h t.now × (a < h.actives)
        × (at ≡ queue_row (plan_by h t.now) (active_in a))
        × Holds (plan_by h t.now) (Starts (plan_by h t.now) a x)
        s.old }
    ensures { Steps (plan_by h t.now)
        (Starts (plan_by h t.now) a x)
        (undo (plan_by h t.now) a) s.old s.new }
{
    if !x.is_unmarked() {
        return;
    }
    let to = bytes_steps::queue_row(a);
    if h.aout.0 <= s[to + LENGTH_BYTE] {
        return;
    }
    bytes_rows::put_packet(s, at + FIRST_PLACE, mark(x));
    bytes_rows::push(s, to, tdown_of(x, h.slots));
}

// Active a tears down what was declined.
fn undo_at(h: Head, t: &PlanTables, a: usize, s: &mut [u8])
    requires { WiringOf h t.now × (a < h.actives)
        × Holds (plan_by h t.now) (Core (plan_by h t.now)) s.old }
    ensures { Steps (plan_by h t.now)
        (Core (plan_by h t.now))
        (undo (plan_by h t.now) a) s.old s.new }
{
    let at = bytes_steps::queue_row(next_queue::base_of(h, h.routers) + a);
    if s[at + LENGTH_BYTE] == 0 {
        return;
    }
    let x = bytes_rows::packet_at(s, at + FIRST_PLACE);
    tear(h, t, a, at, x, s);
}

// Every active in turn.
pub fn undoes(h: Head, t: &PlanTables, s: &mut [u8])
    requires { WiringOf h t.now
        × Holds (plan_by h t.now) (Core (plan_by h t.now)) s.old }
    ensures { Steps (plan_by h t.now)
        (Core (plan_by h t.now))
        (up_to (undo (plan_by h t.now)) h.actives)
        s.old s.new }
{
    for a in 0..h.actives {
        undo_at(h, t, a, s);
    }
}
