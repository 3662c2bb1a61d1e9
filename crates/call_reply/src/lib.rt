// Reply on the bytes of a good state: its refusals one after another in document 01's order, and then its step. A
// refusal writes nothing.
#![tactic(auto)]

ghost use Rattle.std.specs.Prelude.{◌≡◌, ◌+◌, ◌≤◌, ◌<◌, length};
ghost use Rattle.plan.specs.Head.{InRange};
ghost use Rattle.rules.specs.Visits.{reply_kind, replied_as};
ghost use Rattle.rules.specs.Calls.{of_reply};
ghost use Rattle.bytes_layout.specs.Decode.{length_at};
ghost use Rattle.call_common.specs.Visits.{Ready, Visits, taken_at};
ghost use Rattle.call_reply.specs.Replying.{replied_at};

use bytes_steps::{FIRST_PLACE, PHASE_BYTE};
use call_common::{flag_up, passive_in, passive_out, queued, take};
use kinds::Refusal;
use packets::{Answer, Kind, Packet, Phase};
use plan::Head;

// ACK for 1, NACK for 0.
fn answer_kind(choice: usize) -> Kind
    ensures { result ≡ reply_kind choice }
{
    if choice == 1 { Kind::Ack } else { Kind::Nack }
}

// The packet as an answer, slot and hub kept.
fn answer(x: Packet, choice: usize) -> Packet
    ensures { result ≡ replied_as (reply_kind choice) x }
{
    Packet {
        kind: answer_kind(choice),
        ..x
    }
}

// 'the head becomes ACK or NACK, slot and hub kept, in the out-queue; the flag rises'
fn reply_step(s: &mut [u8], from: usize, to: usize, choice: usize)
    requires { (from < 20000) × (from + 39 ≤ length s.old) × (1 ≤ length_at from s.old)
        × (length_at from s.old ≤ 7) × (to + 39 ≤ length s.old) × (length_at to (taken_at from s.old) < 7) }
    ensures { s.new ≡ replied_at from to choice s.old }
{
    let x = bytes_rows::packet_at(s, from + FIRST_PLACE);
    take(s, from);
    let y = answer(x, choice);
    bytes_rows::push(s, to, y);
}

// '**Reply** (passive, 1 accept or 0 decline): 8 not WRITE; 9 number or choice out of range; 14 in-queue flag up; 13
// in-queue empty; 12 out-queue full.'
pub fn reply(h: Head, s: &mut [u8], passive: usize, choice: usize) -> Answer
    requires { InRange h × Ready h s.old }
    ensures { Visits h (of_reply passive choice) s.old result s.new }
{
    if s[PHASE_BYTE] != u8::from(Phase::Write) {
        return Answer::Refused(Refusal::WrongPhase);
    }
    if h.passives <= passive {
        return Answer::Refused(Refusal::BadNumber);
    }
    if 1 < choice {
        return Answer::Refused(Refusal::BadNumber);
    }
    let from = passive_in(h, passive);
    if flag_up(s, from) {
        return Answer::Refused(Refusal::FlagUp);
    }
    if queued(s, from) == 0 {
        return Answer::Refused(Refusal::QueueEmpty);
    }
    let to = passive_out(h, passive);
    if h.pout.0 <= queued(s, to) {
        return Answer::Refused(Refusal::QueueFull);
    }
    reply_step(s, from, to, choice);
    Answer::Done
}
