// Document 02 (i) on the crossing plan of two routers, S=4: set-ups cross both ways, both are booked at both routers,
// and both answers come back.
use super::run::Run;
use kinds::{Hub, Slot};
use packets::{Answer, Entry, Kind, Packet};
use std::io;

// The ACK of a pair: it started at slot 0 and was booked by two routers.
fn ack(active: u8, passive: u8) -> Answer {
    Answer::Shows(Packet {
        kind: Kind::Ack,
        active,
        passive,
        slot: Slot(2),
        hub: Hub(2),
    })
}

// Round 0: both set-ups are launched.
fn launched<P: Print>(run: &mut Run<'_, P>) -> io::Result<()> {
    run.round_with_read(0, |run| {
        run.launch(0, 1, 0, Answer::Done)?;
        run.launch(1, 0, 0, Answer::Done)
    })
}

// Rounds 1 to 6: booked in round 2 by the router at which each began, in round 5 by the other one, where they came in
// by side 2. The second one's entry is seen at the first router.
fn booked<P: Print>(run: &mut Run<'_, P>) -> io::Result<()> {
    run.rounds(1..2)?;
    run.round_with_entry(2, 0, 2, 0, Entry::Free, Entry::Booked(0))?;
    run.rounds(3..5)?;
    run.round_with_entry(5, 0, 1, 1, Entry::Free, Entry::Booked(2))?;
    run.rounds(6..7)
}

// Round 7: both passives accept.
fn accepted<P: Print>(run: &mut Run<'_, P>) -> io::Result<()> {
    run.round_with_write(7, |run| {
        run.reply(0, 1, Answer::Done)?;
        run.reply(1, 1, Answer::Done)
    })
}

// Rounds 8 to 12: the first ACK is dropped in round 11, the second one in round 12.
fn answered<P: Print>(run: &mut Run<'_, P>) -> io::Result<()> {
    run.rounds(8..11)?;
    run.round_with_drop(11, 0, ack(0, 1), Answer::Done)?;
    run.round_with_drop(12, 1, ack(1, 0), Answer::Done)
}

// The run.
pub fn both_ways<P: Print>(run: &mut Run<'_, P>) -> io::Result<()> {
    run.start()?;
    launched(run)?;
    booked(run)?;
    accepted(run)?;
    answered(run)
}
