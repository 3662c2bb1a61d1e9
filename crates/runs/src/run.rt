// A run: the calls on a plan and a state's bytes, one round to a line, each call written with its answer; and whether
// all answers so far are those that are expected.
ghost use Rattle.std.specs.Prelude.{◌≡◌, true};

use bytes_steps::{FIRST_PLACE, LENGTH_BYTE, QUEUE_WIDTH};
use packets::{Answer, Entry, Packet, Wire};
use plan::tables::PlanTables;
use std::io;
use std::ops::Range;
use telling::Words;

// The queues of the largest plan.
const QUEUES: usize = 400;

// What a run's calls work on, where they are written, and whether each answer was the one that is expected. The state
// has room for a plan of one or two routers.
#[derive(Drop)]
pub struct Run<'a, P> {
    rt: &'a P,
    plan: &'a [u8],
    state: [u8; 4096],
    as_said: bool,
}

// What Load answers.
fn load_answer(plan: &[u8]) -> Answer {
    let mut t = PlanTables::blank();
    match load::load(plan, &mut t) {
        Ok(_) => Answer::Done,
        Err(w) => Answer::Refused(w),
    }
}

// The first packet of queue n, read from the state's bytes by their layout.
fn first_in(state: &[u8], n: usize) -> Wire {
    if QUEUES <= n {
        return Wire::Empty;
    }
    let i = bytes_steps::queue_row(n);
    let Some(row) = state.get(i..i + QUEUE_WIDTH) else {
        return Wire::Empty;
    };
    if row[LENGTH_BYTE] == 0 {
        return Wire::Empty;
    }
    Wire::Full(bytes_rows::packet_at(row, FIRST_PLACE))
}

impl<'a, P: Print> Run<'a, P> {
    // A run on a plan, before its first call.
    pub fn on(rt: &'a P, plan: &'a [u8]) -> Run<'a, P> {
        Run {
            rt,
            plan,
            state: [0; 4096],
            as_said: true,
        }
    }

    // Writes an answer, and keeps whether it is the one that is expected.
    fn answered(&mut self, x: Answer, want: Answer) -> io::Result<()>
        ensures { self.new.as_said ≡ true → (self.old.as_said ≡ true) × (x ≡ want) }
    {
        self.as_said = self.as_said & (x == want);
        print!(self.rt; " {}.", Words(x))
    }

    // Load of a plan with a name.
    pub fn load(&mut self, name: &str, plan: &[u8], want: Answer) -> io::Result<()> {
        let x = load_answer(plan);
        print!(self.rt; "  Load of {name}")?;
        self.answered(x, want)?;
        println!(self.rt)
    }

    // Start.
    pub fn start(&mut self) -> io::Result<()> {
        let x = calls::start(self.plan, &mut self.state);
        print!(self.rt; "  Start")?;
        self.answered(x, Answer::Done)?;
        println!(self.rt)
    }

    // Read.
    fn read(&mut self) -> io::Result<()> {
        let x = calls::read(self.plan, &mut self.state);
        print!(self.rt; " Read")?;
        self.answered(x, Answer::Done)
    }

    // Execute.
    fn execute(&mut self) -> io::Result<()> {
        let x = calls::execute(self.plan, &mut self.state);
        print!(self.rt; " Execute")?;
        self.answered(x, Answer::Done)
    }

    // Write, with which the round ends.
    fn write(&mut self) -> io::Result<()> {
        let x = calls::write(self.plan, &mut self.state);
        print!(self.rt; " Write")?;
        self.answered(x, Answer::Done)
    }

    // Launch.
    pub fn launch(&mut self, a: usize, p: usize, t: usize, want: Answer) -> io::Result<()> {
        let x = calls::launch(self.plan, &mut self.state, a, p, t);
        print!(self.rt; " Launch ({a},{p},{t})")?;
        self.answered(x, want)
    }

    // Reply: 1 accepts, 0 declines.
    pub fn reply(&mut self, p: usize, choice: usize, want: Answer) -> io::Result<()> {
        let x = calls::reply(self.plan, &mut self.state, p, choice);
        print!(self.rt; " Reply ({p},{choice})")?;
        self.answered(x, want)
    }

    // Look.
    pub fn look(&mut self, a: usize, want: Answer) -> io::Result<()> {
        let x = calls::look(self.plan, &self.state, a);
        print!(self.rt; " Look ({a})")?;
        self.answered(x, want)
    }

    // Drop.
    pub fn drop(&mut self, a: usize, want: Answer) -> io::Result<()> {
        let x = calls::drop(self.plan, &mut self.state, a);
        print!(self.rt; " Drop ({a})")?;
        self.answered(x, want)
    }

    // Close.
    pub fn close(&mut self, a: usize, p: usize, t: usize, want: Answer) -> io::Result<()> {
        let x = calls::close(self.plan, &mut self.state, a, p, t);
        print!(self.rt; " Close ({a},{p},{t})")?;
        self.answered(x, want)
    }

    // Entry.
    fn entry(&mut self, r: usize, o: usize, t: usize, want: Entry) -> io::Result<()> {
        let x = calls::entry(self.plan, &self.state, r, o, t);
        print!(self.rt; " Entry ({r},{o},{t})")?;
        self.answered(x, Answer::Holds(want))
    }

    // Remaining.
    pub fn remaining(&mut self, want: Answer) -> io::Result<()> {
        let x = calls::remaining(self.plan, &self.state);
        print!(self.rt; " Remaining:")?;
        self.answered(x, want)
    }

    // Writes the first packet of queue n, which has a name, and keeps whether it is the one that is expected.
    pub fn queue(&mut self, name: &str, n: usize, want: Packet) -> io::Result<()> {
        let first = first_in(&self.state, n);
        self.as_said = self.as_said & (first == Wire::Full(want));
        match first {
            Wire::Empty => print!(self.rt; " {name} has no packet."),
            Wire::Full(x) => print!(self.rt; " {name} has {}.", Words(x)),
        }
    }

    // A line of calls.
    pub fn line<F>(&mut self, head: &str, called: F) -> io::Result<()>
    where
        F: FnOnce(&mut Run<'a, P>) -> io::Result<()>,
        requires { F.IsAlwaysCallable called }
    {
        print!(self.rt; "  {head}:")?;
        called(self)?;
        println!(self.rt)
    }

    // Round n, with what is called in its READ, in its EXECUTE and in its WRITE, each of which its own call ends.
    pub fn round<F, G, H>(
        &mut self,
        n: usize,
        in_read: F,
        in_execute: G,
        in_write: H,
    ) -> io::Result<()>
    where
        F: FnOnce(&mut Run<'a, P>) -> io::Result<()>,
        G: FnOnce(&mut Run<'a, P>) -> io::Result<()>,
        H: FnOnce(&mut Run<'a, P>) -> io::Result<()>,
        requires in_read { F.IsAlwaysCallable in_read }
        requires in_execute { G.IsAlwaysCallable in_execute }
        requires in_write { H.IsAlwaysCallable in_write }
    {
        print!(self.rt; "  round {n}:")?;
        in_read(self)?;
        self.read()?;
        in_execute(self)?;
        self.execute()?;
        in_write(self)?;
        self.write()?;
        println!(self.rt)
    }

    // Round n, in whose READ alone something is called.
    pub fn round_with_read<F>(&mut self, n: usize, in_read: F) -> io::Result<()>
    where
        F: FnOnce(&mut Run<'a, P>) -> io::Result<()>,
        requires { F.IsAlwaysCallable in_read }
    {
        self.round(n, in_read, |_| Ok(()), |_| Ok(()))
    }

    // Round n, in whose WRITE alone something is called.
    pub fn round_with_write<F>(&mut self, n: usize, in_write: F) -> io::Result<()>
    where
        F: FnOnce(&mut Run<'a, P>) -> io::Result<()>,
        requires { F.IsAlwaysCallable in_write }
    {
        self.round(n, |_| Ok(()), |_| Ok(()), in_write)
    }

    // Round n, with an Entry before its Execute and the same after it.
    pub fn round_with_entry(
        &mut self,
        n: usize,
        r: usize,
        o: usize,
        t: usize,
        before: Entry,
        after: Entry,
    ) -> io::Result<()> {
        self.round(
            n,
            |_| Ok(()),
            |run| run.entry(r, o, t, before),
            |run| run.entry(r, o, t, after),
        )
    }

    // Round n, with a Look in its WRITE and then a Drop.
    pub fn round_with_drop(
        &mut self,
        n: usize,
        a: usize,
        shown: Answer,
        want: Answer,
    ) -> io::Result<()> {
        self.round_with_write(n, |run| {
            run.look(a, shown)?;
            run.drop(a, want)
        })
    }

    // The rounds of a range, in which nothing else is called.
    pub fn rounds(&mut self, range: Range<usize>) -> io::Result<()> {
        for n in range {
            self.round(n, |_| Ok(()), |_| Ok(()), |_| Ok(()))?;
        }
        Ok(())
    }

    // Ends the run: whether the answers were those of a document, and what it says.
    pub fn verdict(&self, document: &str, words: &str) -> io::Result<()> {
        let not = if self.as_said { "" } else { "NOT " };
        println!(self.rt; "{not}as document {document} says: {words}")
    }
}
