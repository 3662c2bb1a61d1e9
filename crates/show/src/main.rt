// Shows a plan: its counts, capacities and joints, and the walk of each pair that it serves; or why Load refuses it.
// Standard input has the plan's bytes in hex; empty input means plan T of document 01.
#![tactic(auto)]

ghost use Rattle.std.specs.Prelude.{◌≡◌, ◌≤◌, ◌<◌, length};
ghost use Rattle.plan.specs.Tables.{homes_of};
ghost use Rattle.plan.specs.Lent.{plan_by};
ghost use Rattle.plan.specs.Head.{Counts};

use hex::DecodeError;
use kinds::Refusal;
use plan::tables::PlanTables;
use plan::{Head, Joint};
use plan_walks::Step;
use std::io;
use std::io::Read;
use telling::steady::Steady;

mod hex;

// The sides of a router.
const SIDES: usize = 4;

// The most signs that are read: one more than a text may have.
const ROOM: usize = 4096;

// Plan T.
const T: &[u8] = b"\x08\x42\x11\x24\x92\x4c\x06\x00\x00\x00\x20";

// What stands before each of a row, counted from 0: a comma before all but the first.
fn comma(i: usize) -> &'static str {
    if i == 0 { "" } else { "," }
}

// Writes what a joint's byte says.
fn show_joint<P: Print>(rt: &P, v: u8) -> io::Result<()> {
    match plan::joints::joint_of(v) {
        Joint::Nothing => print!(rt; " nothing"),
        Joint::Router(n, side) => print!(rt; " router {n} side {side}"),
        Joint::Active(n) => print!(rt; " active {n}"),
        Joint::Passive(n) => print!(rt; " passive {n}"),
    }
}

// A plan that loads: its counts and capacities, and its tables.
#[derive(Drop)]
struct Shown<'a> {
    h: Head,
    t: &'a PlanTables,
    ghost few: { Counts h },
    ghost ports: { t.now.homes ≡ homes_of (plan_by h t.now) },
}

impl<'a> Shown<'a> {
    // The plan of these bytes, its tables lent, or why Load refuses them.
    fn of(plan: &[u8], t: &'a mut PlanTables) -> Result<Shown<'a>, Refusal> {
        let h = load::load(plan, t)?;
        Ok(Shown { h, t })
    }

    // Writes the counts and the slot count.
    fn counts<P: Print>(&self, rt: &P) -> io::Result<()> {
        let h = self.h;
        println!(rt;
            "routers {}, actives {}, passives {}, slots {}",
            h.routers, h.actives, h.passives, h.slots
        )
    }

    // Writes the eight capacities.
    fn capacities<P: Print>(&self, rt: &P) -> io::Result<()> {
        let h = self.h;
        println!(rt;
            "capacities: active out {}, active in {}, U {}, Q {}, F {}, K {}, passive in {}, passive out {}",
            h.aout.0, h.ain.0, h.u.0, h.q.0, h.f.0, h.k.0, h.pin.0, h.pout.0
        )
    }

    // Writes what each side of a router is joined to.
    fn router<P: Print>(&self, rt: &P, r: usize) -> io::Result<()>
        requires { r < 16 }
    {
        print!(rt; "router {r}:")?;
        for s in 0..SIDES {
            print!(rt; "{} side {s}", comma(s))?;
            show_joint(rt, self.t.joints[SIDES * r + s])?;
        }
        println!(rt)
    }

    // Writes the joints of all routers.
    fn joints<P: Print>(&self, rt: &P) -> io::Result<()> {
        for r in 0..self.h.routers {
            self.router(rt, r)?;
        }
        Ok(())
    }

    // Writes the router that a walk to the interface of a column stands on after k others, with the sides by which the
    // walk comes in and goes out.
    fn stop<P: Print>(&self, rt: &P, d: usize, from: usize, k: usize) -> io::Result<()>
        requires { (d < 32) × (from < 64) }
    {
        let t = self.t;
        let s = plan_walks::stands(&t.routes, &t.joints, self.h, d, from, k);
        let Step::On(at) = s else {
            return Ok(());
        };
        let r = at / SIDES;
        print!(rt;
            "{} router {r} in by side {} out by side {}",
            comma(k),
            at % SIDES,
            plan_walks::side_out(&t.routes, d, r)
        )
    }

    // Writes a walk of n routers.
    fn walk<P: Print>(&self, rt: &P, d: usize, from: usize, n: u8) -> io::Result<()>
        requires { (d < 32) × (from < 64) }
    {
        for k in 0..usize::from(n) {
            self.stop(rt, d, from, k)?;
        }
        println!(rt)
    }

    // Writes a pair's walk, where the pair is served.
    fn pair<P: Print>(&self, rt: &P, a: usize, p: usize) -> io::Result<()>
        requires { (a < self.now.h.actives) × (p < self.now.h.passives) }
    {
        let n = load::pair_walk(&self.t.lengths, a, p);
        if n.0 == 0 {
            return Ok(());
        }
        let from = usize::from(self.t.homes[a]);
        print!(rt; "active {a} to passive {p}:")?;
        self.walk(rt, self.h.actives + p, from, n.0)
    }

    // Writes the walks of an active's served pairs.
    fn pairs_of<P: Print>(&self, rt: &P, a: usize) -> io::Result<()>
        requires { a < self.now.h.actives }
    {
        for p in 0..self.h.passives {
            self.pair(rt, a, p)?;
        }
        Ok(())
    }

    // Writes the walks of all served pairs.
    fn pairs<P: Print>(&self, rt: &P) -> io::Result<()> {
        println!(rt; "served pairs and their walks:")?;
        for a in 0..self.h.actives {
            self.pairs_of(rt, a)?;
        }
        Ok(())
    }
}

// What a refusal by Load means. Load refuses for six reasons.
fn meaning(w: Refusal) -> &'static str {
    match w {
        Refusal::TooShort => "the plan has fewer than six bytes",
        Refusal::OutOfRange => "a count, the slot count or a capacity is outside its range",
        Refusal::WrongLength => "the plan has the wrong length, or a fill bit is set",
        Refusal::BadField => "a joint's or a route's field is outside its range",
        Refusal::BadJoint => {
            "a router joint is not named back or joins a router to itself, or an interface has not one joint"
        }
        _ => "there is a ring of feeding queues",
    }
}

// Writes what the plan's bytes say, or why Load refuses them.
fn show<P: Print>(rt: &P, plan: &[u8]) -> io::Result<()> {
    let mut t = PlanTables::blank();
    match Shown::of(plan, &mut t) {
        Ok(shown) => {
            shown.counts(rt)?;
            shown.capacities(rt)?;
            shown.joints(rt)?;
            shown.pairs(rt)
        }
        Err(w) => println!(rt; "refused {}: {}.", u8::from(w), meaning(w)),
    }
}

// Shows the plan that a text gives in hex, or says what is wrong with the text.
fn show_text<P: Print>(rt: &P, text: &[u8]) -> io::Result<()>
    requires { length text.now ≤ 4096 }
{
    let mut plan = [0; 4096];
    match hex::decode(text, &mut plan) {
        Ok(n) => show(rt, &plan[..n]),
        Err(DecodeError::Odd) => println!(rt; "The input has an odd count of hex digits."),
        Err(DecodeError::Other(i)) => println!(rt;
            "The input's sign {i}, counted from 0, is neither a hex digit nor white space."
        ),
    }
}

// Reads until the room is full, the input ends or a read fails, each time for all the room that is left. The answer is
// how many signs stand at the room's head then.
fn fill<R: Read>(from: &mut R, room: &mut [u8]) -> usize
    ensures { (result ≤ length room.new) × (length room.new ≡ length room.old) }
{
    let mut done = 0;
    while done < room.len() {
        let n = from.read(&mut room[done..]).unwrap_or(0);
        if n == 0 {
            break;
        }
        done += n;
    }
    done
}

// Shows plan T where the input is empty. A write that fails is passed over.
fn main(rt: HostRuntime) {
    let out = Steady(&rt);
    let mut text = [0; ROOM];
    let n = fill(&mut rt.stdin(), &mut text);
    let _ = match n {
        0 => show(&out, T),
        ROOM => println!(out; "The input is longer than 4095 signs."),
        _ => show_text(&out, &text[..n]),
    };
}
