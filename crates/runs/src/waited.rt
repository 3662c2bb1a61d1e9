// Document 02 (n) on plan T: before a wash a set-up is under way; the passive declines it, the active drops the NACK,
// and the network is empty when the tear-down has ended.
use super::run::Run;
use kinds::Refusal;
use packets::{Answer, Remaining};
use std::io;
use std::ops::Range;

// An in-queue without a packet.
const NOTHING: Answer = Answer::Refused(Refusal::QueueEmpty);

// What a Remaining is to answer.
fn left(packets: u32, rounds: u32) -> Answer {
    Answer::Remains(Remaining { packets, rounds })
}

// Round n of a program that waits: the passive is asked to reply and the active to drop. Then what is left.
fn asked<P: Print>(
    run: &mut Run<'_, P>,
    n: usize,
    reply: Answer,
    drop: Answer,
    then: Answer,
) -> io::Result<()> {
    run.round_with_write(n, |run| {
        run.reply(0, 0, reply)?;
        run.drop(0, drop)
    })?;
    run.line("  after it", |run| run.remaining(then))
}

// The rounds of a range, in which neither can.
fn neither<P: Print>(run: &mut Run<'_, P>, range: Range<usize>) -> io::Result<()> {
    for n in range {
        asked(run, n, NOTHING, NOTHING, left(1, 512))?;
    }
    Ok(())
}

// A set-up is launched and the program begins to wait: one packet, 512 rounds.
fn begun<P: Print>(run: &mut Run<'_, P>) -> io::Result<()> {
    run.start()?;
    run.line("before round 0", |run| {
        run.launch(0, 0, 0, Answer::Done)?;
        run.remaining(left(1, 512))
    })
}

// The run: the passive declines in round 4, the NACK goes back and is dropped in round 7, and its TDOWN ends in round
// 10.
pub fn waited_out<P: Print>(run: &mut Run<'_, P>) -> io::Result<()> {
    begun(run)?;
    neither(run, 0..4)?;
    asked(run, 4, Answer::Done, NOTHING, left(1, 512))?;
    neither(run, 5..7)?;
    asked(run, 7, NOTHING, Answer::Done, left(1, 512))?;
    neither(run, 8..10)?;
    asked(run, 10, NOTHING, NOTHING, left(0, 0))
}
