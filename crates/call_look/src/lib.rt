// Look and Entry, the calls that change nothing, on the bytes of a good state: the head of an active's in-queue, and
// what the table holds for a router, a side and a slot.
#![tactic(auto)]

ghost use Rattle.plan.specs.Head.{InRange};
ghost use Rattle.rules.specs.Calls.{of_look, of_entry};
ghost use Rattle.call_common.specs.Visits.{Ready, Visits};

use bytes_steps::FIRST_PLACE;
use call_common::{active_in, queued};
use kinds::Refusal;
use packets::Answer;
use plan::Head;

// 'Look returns the head in any phase and changes nothing', and 'gives 9 and 13'.
pub fn look(h: Head, s: &[u8], active: usize) -> Answer
    requires { InRange h × Ready h s.now }
    ensures { Visits h (of_look active) s.now result s.now }
{
    if h.actives <= active {
        return Answer::Refused(Refusal::BadNumber);
    }
    let row = active_in(h, active);
    if queued(s, row) == 0 {
        return Answer::Refused(Refusal::QueueEmpty);
    }
    let x = bytes_rows::packet_at(s, row + FIRST_PLACE);
    Answer::Shows(x)
}

// '**Entry** (router, side, slot): 9.'
pub fn entry(h: Head, s: &[u8], router: usize, side: usize, slot: usize) -> Answer
    requires { InRange h × Ready h s.now }
    ensures { Visits h (of_entry router side slot) s.now result s.now }
{
    if h.routers <= router {
        return Answer::Refused(Refusal::BadNumber);
    }
    if 4 <= side {
        return Answer::Refused(Refusal::BadNumber);
    }
    if usize::from(h.slots) <= slot {
        return Answer::Refused(Refusal::BadNumber);
    }
    let i = bytes_steps::entry_row(h, router, side, slot);
    let x = bytes_rows::entry_at(s, i);
    Answer::Holds(x)
}
