// The calls of document 01, and Close, Look, Drop and Remaining of document 02, on lent bytes: the plan's by `&`, the
// state's by `&mut`, and by `&` for Look, Entry and Remaining. Each loads the plan, checks the state, and then goes its
// own way. A refusal alters no byte, and no byte past the state is written.
#![tactic(auto)]

ghost use Rattle.std.specs.Prelude.{◌≡◌};
ghost use Rattle.rules.specs.Calls.{read, execute, write, launch, reply, look, drop, close, entry, remaining};
ghost use Rattle.claims.specs.Calls.{given, start_on, call_on};

use kinds::Refusal;
use packets::Answer;
use plan::blank_tables;

pub mod opened;

// Start: READ, nothing anywhere, all credits and allowances.
pub fn start(plan: &[u8], state: &mut [u8]) -> Answer
    ensures { given result state.new ≡ start_on plan.now state.old }
{
    let mut t = blank_tables!();
    let l = load::fill(plan, &mut t);
    let Ok(h) = l else {
        return Answer::Refused(l.unwrap_err());
    };
    if state.len() < bytes_steps::state_size(h) {
        return Answer::Refused(Refusal::NotState);
    }
    call_start::start(h, state);
    Answer::Done
}

// Read: each wire's packet joins its queue, flags give their credits back.
pub fn read(plan: &[u8], state: &mut [u8]) -> Answer
    ensures { given result state.new ≡ call_on plan.now read state.old }
{
    let mut t = blank_tables!();
    let l = load::fill(plan, &mut t);
    let Ok(h) = l else {
        return Answer::Refused(l.unwrap_err());
    };
    let c = check_state::inspect(h, &t, state);
    let Ok(()) = c else {
        return Answer::Refused(c.unwrap_err());
    };
    opened::read(h, &t, state)
}

// Execute: units handle their heads, outputs pick, actives tear down what was declined.
pub fn execute(plan: &[u8], state: &mut [u8]) -> Answer
    ensures { given result state.new ≡ call_on plan.now execute state.old }
{
    let mut t = blank_tables!();
    let l = load::fill(plan, &mut t);
    let Ok(h) = l else {
        return Answer::Refused(l.unwrap_err());
    };
    let c = check_state::inspect(h, &t, state);
    let Ok(()) = c else {
        return Answer::Refused(c.unwrap_err());
    };
    opened::execute(h, &t, state)
}

// Write: picked heads enter their wires; the slot grows.
pub fn write(plan: &[u8], state: &mut [u8]) -> Answer
    ensures { given result state.new ≡ call_on plan.now write state.old }
{
    let mut t = blank_tables!();
    let l = load::fill(plan, &mut t);
    let Ok(h) = l else {
        return Answer::Refused(l.unwrap_err());
    };
    let c = check_state::inspect(h, &t, state);
    let Ok(()) = c else {
        return Answer::Refused(c.unwrap_err());
    };
    opened::write(h, &t, state)
}

// Launch: a set-up of a served pair joins the active's out-queue.
pub fn launch(plan: &[u8], state: &mut [u8], active: usize, passive: usize, slot: usize) -> Answer
    ensures { given result state.new ≡ call_on plan.now (launch active passive slot)
        state.old }
{
    let mut t = blank_tables!();
    let l = load::fill(plan, &mut t);
    let Ok(h) = l else {
        return Answer::Refused(l.unwrap_err());
    };
    let c = check_state::inspect(h, &t, state);
    let Ok(()) = c else {
        return Answer::Refused(c.unwrap_err());
    };
    call_launch::launch(h, &t.lengths, state, active, passive, slot)
}

// Reply: the passive's head is answered, 1 accept or 0 decline.
pub fn reply(plan: &[u8], state: &mut [u8], passive: usize, choice: usize) -> Answer
    ensures { given result state.new ≡ call_on plan.now (reply passive choice)
        state.old }
{
    let mut t = blank_tables!();
    let l = load::fill(plan, &mut t);
    let Ok(h) = l else {
        return Answer::Refused(l.unwrap_err());
    };
    let c = check_state::inspect(h, &t, state);
    let Ok(()) = c else {
        return Answer::Refused(c.unwrap_err());
    };
    call_reply::reply(h, state, passive, choice)
}

// Look: the head of the active's in-queue.
pub fn look(plan: &[u8], state: &[u8], active: usize) -> Answer
    ensures { given result state.now ≡ call_on plan.now (look active) state.now }
{
    let mut t = blank_tables!();
    let l = load::fill(plan, &mut t);
    let Ok(h) = l else {
        return Answer::Refused(l.unwrap_err());
    };
    let c = check_state::inspect(h, &t, state);
    let Ok(()) = c else {
        return Answer::Refused(c.unwrap_err());
    };
    call_look::look(h, state, active)
}

// Drop: the head of the active's in-queue is removed.
pub fn drop(plan: &[u8], state: &mut [u8], active: usize) -> Answer
    ensures { given result state.new ≡ call_on plan.now (drop active) state.old }
{
    let mut t = blank_tables!();
    let l = load::fill(plan, &mut t);
    let Ok(h) = l else {
        return Answer::Refused(l.unwrap_err());
    };
    let c = check_state::inspect(h, &t, state);
    let Ok(()) = c else {
        return Answer::Refused(c.unwrap_err());
    };
    call_drop::drop(h, state, active)
}

// Close: the tear-down of an accepted connection joins the active's out-queue, and the connection is accepted no more.
pub fn close(plan: &[u8], state: &mut [u8], active: usize, passive: usize, slot: usize) -> Answer
    ensures { given result state.new ≡ call_on plan.now (close active passive slot)
        state.old }
{
    let mut t = blank_tables!();
    let l = load::fill(plan, &mut t);
    let Ok(h) = l else {
        return Answer::Refused(l.unwrap_err());
    };
    let c = check_state::inspect(h, &t, state);
    let Ok(()) = c else {
        return Answer::Refused(c.unwrap_err());
    };
    call_close::close(h, &t.lengths, state, active, passive, slot)
}

// Entry: what the slot table holds.
pub fn entry(plan: &[u8], state: &[u8], router: usize, side: usize, slot: usize) -> Answer
    ensures { given result state.now ≡ call_on plan.now (entry router side slot)
        state.now }
{
    let mut t = blank_tables!();
    let l = load::fill(plan, &mut t);
    let Ok(h) = l else {
        return Answer::Refused(l.unwrap_err());
    };
    let c = check_state::inspect(h, &t, state);
    let Ok(()) = c else {
        return Answer::Refused(c.unwrap_err());
    };
    call_look::entry(h, state, router, side, slot)
}

// Remaining: the packets in queues and on wires, and the rounds after which a program that waits finds none.
pub fn remaining(plan: &[u8], state: &[u8]) -> Answer
    ensures { given result state.now ≡ call_on plan.now remaining state.now }
{
    let mut t = blank_tables!();
    let l = load::fill(plan, &mut t);
    let Ok(h) = l else {
        return Answer::Refused(l.unwrap_err());
    };
    let c = check_state::inspect(h, &t, state);
    let Ok(()) = c else {
        return Answer::Refused(c.unwrap_err());
    };
    call_remaining::remaining(h, state)
}
