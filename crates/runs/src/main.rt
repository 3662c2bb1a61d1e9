// Document 01's 'Runs to compare' and three of document 02, done by the calls on byte arrays: every call is written
// with its answer, and after each run whether the answers are those of the document.
#![tactic(auto)]

use kinds::{Hub, Refusal, Slot};
use packets::{Answer, Entry, Kind, Packet};
use run::Run;
use std::io;
use telling::steady::Steady;

mod closed;
mod crossing;
mod run;
mod waited;

// Plan T.
const T: &[u8] = b"\x08\x42\x11\x24\x92\x4c\x06\x00\x00\x00\x20";

// The plan of two routers, S=4.
const TWO: &[u8] = b"\x10\x82\x21\x24\x92\x4c\x02\x20\x00\x02\x0e\x04\x20\x00\x24\x22";

// The plan of two routers on which set-ups cross.
const CROSSED: &[u8] = b"\x10\x84\x21\x24\x92\x4c\x06\x02\x30\x04\x26\x22\x10\x00\x45\x20\x88";

// The plan of three routers round which all set-ups go clockwise.
const CLOCKWISE: &[u8] =
    b"\x18\xc6\x21\x24\x92\x4c\x06\x02\x3a\x54\x26\x22\x5a\x14\x46\x42\x1a\x30\x6c\xa4\xc3\x45\x36\x12\x20";

// The number of plan T's queue F[1] of set-ups.
const T_SIDE_ONE: usize = 15;

// The number of active 0's out-queue in the plan of two routers.
const TWO_ACTIVE_OUT: usize = 0;

// An in-queue without a packet.
const NOTHING: Answer = Answer::Refused(Refusal::QueueEmpty);

// A packet of passive 0.
fn packet(kind: Kind, active: u8, slot: u8, hub: u8) -> Packet {
    Packet {
        kind,
        active,
        passive: 0,
        slot: Slot(slot),
        hub: Hub(hub),
    }
}

// 'T loads. 5 bytes: 1. T with a byte more: 3. Last byte 21: 3. First byte 00: 2.'
fn loads<P: Print>(rt: &P) -> io::Result<()> {
    println!(rt; "Load")?;
    let mut run = Run::on(rt, T);
    run.load("plan T", T, Answer::Done)?;
    run.load(
        "5 bytes",
        b"\x08\x42\x11\x24\x92",
        Answer::Refused(Refusal::TooShort),
    )?;
    run.load(
        "T with a byte more",
        b"\x08\x42\x11\x24\x92\x4c\x06\x00\x00\x00\x20\x00",
        Answer::Refused(Refusal::WrongLength),
    )?;
    run.load(
        "T with the last byte 21",
        b"\x08\x42\x11\x24\x92\x4c\x06\x00\x00\x00\x21",
        Answer::Refused(Refusal::WrongLength),
    )?;
    run.load(
        "T with the first byte 00",
        b"\x00\x42\x11\x24\x92\x4c\x06\x00\x00\x00\x20",
        Answer::Refused(Refusal::OutOfRange),
    )?;
    run.verdict(
        "01",
        "T loads. 5 bytes: 1. T with a byte more: 3. Last byte 21: 3. First byte 00: 2.",
    )
}

// Rounds 0 to 2 of the first run: launched, and booked in round 2.
fn booked_in_round_2<P: Print>(run: &mut Run<'_, P>) -> io::Result<()> {
    run.start()?;
    run.round_with_read(0, |run| run.launch(0, 0, 0, Answer::Done))?;
    run.rounds(1..2)?;
    run.round_with_entry(2, 0, 1, 0, Entry::Free, Entry::Booked(0))
}

// Rounds 3 to 7 of the first run: at the passive from round 4, accepted there, looked at and dropped in round 7.
fn dropped_in_round_7<P: Print>(run: &mut Run<'_, P>) -> io::Result<()> {
    run.round_with_write(3, |run| run.reply(0, 1, NOTHING))?;
    run.round_with_write(4, |run| run.reply(0, 1, Answer::Done))?;
    run.rounds(5..6)?;
    run.round_with_drop(6, 0, NOTHING, NOTHING)?;
    let ack = packet(Kind::Ack, 0, 1, 1);
    run.round_with_drop(7, 0, Answer::Shows(ack), Answer::Done)
}

// The first run.
fn first_run<P: Print>(run: &mut Run<'_, P>) -> io::Result<()> {
    booked_in_round_2(run)?;
    dropped_in_round_7(run)
}

// 'Launch (0,0,0) in round 0: booked in round 2, waits at the passive from round 4; accepted there, consumed in round 7
// with slot 1, hub 1.' From document 02 (c) on a Look and a Drop are what Consume was.
fn launch_in_round_0<P: Print>(rt: &P) -> io::Result<()> {
    println!(rt; "\nPlan T, Launch (0,0,0) in round 0")?;
    let mut run = Run::on(rt, T);
    first_run(&mut run)?;
    run.verdict(
        "01, with 02 (c),",
        "booked in round 2, waits at the passive from round 4; accepted there, dropped in round 7 with slot 1, hub 1.",
    )
}

// Rounds 0 to 3 of the second run: launched in round 1, booked in round 3.
fn booked_in_round_3<P: Print>(run: &mut Run<'_, P>) -> io::Result<()> {
    run.start()?;
    run.rounds(0..1)?;
    run.round_with_read(1, |run| run.launch(0, 0, 0, Answer::Done))?;
    run.rounds(2..3)?;
    run.round_with_entry(3, 0, 1, 0, Entry::Free, Entry::Booked(0))
}

// Rounds 4 to 6 of the second run: in F[1] still after round 4's Write, at the passive in round 6.
fn late_at_passive<P: Print>(run: &mut Run<'_, P>) -> io::Result<()> {
    run.rounds(4..5)?;
    let setup = packet(Kind::Setup, 0, 1, 1);
    run.line("  after it", |run| run.queue("F[1]", T_SIDE_ONE, setup))?;
    run.round_with_write(5, |run| run.reply(0, 1, NOTHING))?;
    run.round_with_write(6, |run| run.reply(0, 1, Answer::Done))
}

// 'The same launch in round 1 instead: F[1] waits in round 4 (slot 0 booked); reaches the passive in round 6.'
fn launch_in_round_1<P: Print>(rt: &P) -> io::Result<()> {
    println!(rt; "\nPlan T, the same launch in round 1 instead")?;
    let mut run = Run::on(rt, T);
    booked_in_round_3(&mut run)?;
    late_at_passive(&mut run)?;
    run.verdict(
        "01",
        "F[1] waits in round 4 (slot 0 booked); reaches the passive in round 6.",
    )
}

// The first run, and rounds 8 to 12 of the third: a launch that finds only the last free entry.
fn third_run<P: Print>(run: &mut Run<'_, P>) -> io::Result<()> {
    first_run(run)?;
    run.round_with_read(8, |run| run.launch(0, 0, 1, Answer::Done))?;
    run.rounds(9..10)?;
    run.round_with_entry(10, 0, 1, 1, Entry::Free, Entry::Free)?;
    run.rounds(11..12)?;
    let nack = packet(Kind::Nack, 0, 1, 0);
    run.round_with_drop(12, 0, Answer::Shows(nack), Answer::Done)
}

// 'After that ACK is consumed, launch (0,0,1): last free entry, NACK with hub 0.'
fn last_free_entry<P: Print>(rt: &P) -> io::Result<()> {
    println!(rt; "\nPlan T, launch (0,0,1) after that ACK is dropped")?;
    let mut run = Run::on(rt, T);
    third_run(&mut run)?;
    run.verdict("01", "last free entry, NACK with hub 0.")
}

// Rounds 0 to 7 of the fourth run: the second router books slot 0 for active 1, which is accepted.
fn second_books<P: Print>(run: &mut Run<'_, P>) -> io::Result<()> {
    run.start()?;
    run.round_with_read(0, |run| run.launch(1, 0, 0, Answer::Done))?;
    run.rounds(1..2)?;
    run.round_with_entry(2, 1, 1, 0, Entry::Free, Entry::Booked(2))?;
    run.rounds(3..4)?;
    run.round_with_write(4, |run| run.reply(0, 1, Answer::Done))?;
    run.rounds(5..7)?;
    let ack = packet(Kind::Ack, 1, 1, 1);
    run.round_with_drop(7, 1, Answer::Shows(ack), Answer::Done)
}

// Rounds 8 to 16: active 0 launches with start slot 3; the first router books it, the second declines.
fn second_declines<P: Print>(run: &mut Run<'_, P>) -> io::Result<()> {
    run.round_with_read(8, |run| run.launch(0, 0, 3, Answer::Done))?;
    run.rounds(9..10)?;
    run.round_with_entry(10, 0, 1, 3, Entry::Free, Entry::Booked(0))?;
    run.rounds(11..14)?;
    run.round_with_entry(14, 1, 1, 0, Entry::Booked(2), Entry::Booked(2))?;
    run.rounds(15..17)
}

// Round 17: the NACK has come, and is looked at in EXECUTE; Execute puts the TDOWN into the out-queue and marks the
// NACK, which is looked at again and dropped.
fn tdown_joins<P: Print>(run: &mut Run<'_, P>) -> io::Result<()> {
    let unmarked = packet(Kind::Nack, 0, 0, 1);
    let tdown = packet(Kind::Tdown, 0, 3, 1);
    let marked = packet(Kind::Nack, 0, 0, 0);
    run.round(
        17,
        |_| Ok(()),
        |run| run.look(0, Answer::Shows(unmarked)),
        |run| {
            run.queue("Active 0's out-queue", TWO_ACTIVE_OUT, tdown)?;
            run.look(0, Answer::Shows(marked))?;
            run.drop(0, Answer::Done)
        },
    )
}

// Rounds 18 to 25: the first router frees its entry, the second keeps its own.
fn second_keeps<P: Print>(run: &mut Run<'_, P>) -> io::Result<()> {
    run.rounds(18..20)?;
    run.round_with_entry(20, 0, 1, 3, Entry::Booked(0), Entry::Free)?;
    run.rounds(21..25)?;
    run.round_with_entry(25, 1, 1, 0, Entry::Booked(2), Entry::Booked(2))
}

// 'S=4, two routers, start 3, second declines: NACK slot 0 hub 1, TDOWN slot 3 hub 1; the second router keeps its
// entry.'
fn declined<P: Print>(rt: &P) -> io::Result<()> {
    println!(rt; "\nS=4, two routers, start 3, second declines")?;
    let mut run = Run::on(rt, TWO);
    second_books(&mut run)?;
    second_declines(&mut run)?;
    tdown_joins(&mut run)?;
    second_keeps(&mut run)?;
    run.verdict(
        "01",
        "NACK slot 0 hub 1, TDOWN slot 3 hub 1; the second router keeps its entry.",
    )
}

// 'Second launch with the allowance spent: 11.'
fn allowance_spent<P: Print>(rt: &P) -> io::Result<()> {
    println!(rt; "\nPlan T, second launch with the allowance spent")?;
    let mut run = Run::on(rt, T);
    run.start()?;
    run.line("round 0", |run| {
        run.launch(0, 0, 0, Answer::Done)?;
        run.launch(0, 0, 0, Answer::Refused(Refusal::NoAllowance))
    })?;
    run.verdict("01", "11.")
}

// Document 02 (a): 'it puts a TDOWN in the active's out-queue, slot the start slot, hub the number of routers on the
// walk, and the connection leaves the accepted ones'.
fn closed_again<P: Print>(rt: &P) -> io::Result<()> {
    println!(rt; "\nPlan T, Close (0,0,0) after that ACK is dropped")?;
    let mut run = Run::on(rt, T);
    first_run(&mut run)?;
    closed::freed_in_round_10(&mut run)?;
    run.verdict(
        "02 (a)",
        "accepted once, then 16; the entry is free when the TDOWN has come by, in round 10.",
    )
}

// 'Two routers, each with an active and a passive, set-ups crossing both ways: 6' was document 01's last run. Document
// 02 (i): 'the crossing two-router plan loads'; 'Refusal 6 keeps its condition': all set-ups clockwise round three
// routers are a ring.
fn crosses<P: Print>(rt: &P) -> io::Result<()> {
    println!(rt; "\nTwo routers, each with an active and a passive, set-ups crossing both ways")?;
    let mut run = Run::on(rt, CROSSED);
    run.load("the plan", CROSSED, Answer::Done)?;
    crossing::both_ways(&mut run)?;
    run.load(
        "three routers, all set-ups clockwise,",
        CLOCKWISE,
        Answer::Refused(Refusal::HasRing),
    )?;
    run.verdict(
        "02 (i)",
        "it loads, both set-ups are booked at both routers and accepted; a ring is refused 6.",
    )
}

// 'Before a wash the arm program .. waits': a declined set-up on plan T.
fn washed<P: Print>(rt: &P) -> io::Result<()> {
    println!(rt; "\nPlan T before a wash: a set-up is declined, and all is waited out")?;
    let mut run = Run::on(rt, T);
    waited::waited_out(&mut run)?;
    run.verdict(
        "02 (n)",
        "empty after at most 256 x S x N rounds, 512 here; it takes 11, with the tear-down.",
    )
}

// All runs, in the documents' order.
fn all<P: Print>(rt: &P) -> io::Result<()> {
    loads(rt)?;
    launch_in_round_0(rt)?;
    launch_in_round_1(rt)?;
    last_free_entry(rt)?;
    declined(rt)?;
    allowance_spent(rt)?;
    closed_again(rt)?;
    crosses(rt)?;
    washed(rt)
}

// A write that fails is passed over.
fn main(rt: HostRuntime) {
    let _ = all(&Steady(&rt));
}
