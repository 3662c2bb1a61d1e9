// Document 02 (a) on plan T, after the first run: its connection is closed, and its slot is free again when the TDOWN
// has come by.
use super::run::Run;
use kinds::Refusal;
use packets::{Answer, Entry};
use std::io;

// In READ: another start slot is not accepted; the connection is closed; a second time it is not accepted.
fn closes<P: Print>(run: &mut Run<'_, P>) -> io::Result<()> {
    run.close(0, 0, 1, Answer::Refused(Refusal::NotAccepted))?;
    run.close(0, 0, 0, Answer::Done)?;
    run.close(0, 0, 0, Answer::Refused(Refusal::NotAccepted))
}

// Rounds 8 to 10: closed in round 8, and the entry is freed in round 10, when the TDOWN is at the unit.
pub fn freed_in_round_10<P: Print>(run: &mut Run<'_, P>) -> io::Result<()> {
    run.round_with_read(8, |run| closes(run))?;
    run.rounds(9..10)?;
    run.round_with_entry(10, 0, 1, 0, Entry::Booked(0), Entry::Free)
}
