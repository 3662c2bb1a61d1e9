// The calls for Rust and C. Plan bytes are a pointer and a length; an answer is a number.
#![tactic(auto)]

ghost use Rattle.std.specs.Prelude.{◌≡◌};
ghost use Rattle.load.specs.Load.{load_of, load_number};
ghost use Rattle.load.specs.Walk.{walk_of};
ghost use Rattle.rules.specs.Calls.{read, execute, write, launch, reply, look, drop, close, entry, remaining};
ghost use Rattle.claims.specs.Calls.{start_on, call_on};
ghost use Rattle.answers.specs.Numbers.{answer_number, shown_bytes, entry_byte, remaining_bytes};
ghost use Rattle.export.specs.Size.{size_of};

use plan::blank_tables;

// Load: 0, or the number of the first refusal that applies, 1 to 6.
#[unsafe(no_mangle)]
pub extern "C" fn pandabrass_load(plan: &[u8]) -> u32
    ensures { result ≡ load_number (load_of plan.now) }
{
    let mut t = blank_tables!();
    u32::from(load::load_number(load::fill(plan, &mut t)))
}

// The number of routers on a served pair's walk; 0 where the plan does not load, a number is out of range or the pair
// is not served.
#[unsafe(no_mangle)]
pub extern "C" fn pandabrass_walk(plan: &[u8], active: u32, passive: u32) -> u32
    ensures { result ≡ walk_of plan.now active passive }
{
    u32::from(load::walk(plan, active as usize, passive as usize).0)
}

// The count of the state's bytes; 0 where the plan does not load.
#[unsafe(no_mangle)]
pub extern "C" fn pandabrass_size(plan: &[u8]) -> u32
    ensures { result ≡ size_of plan.now }
{
    let mut t = blank_tables!();
    let Ok(h) = load::fill(plan, &mut t) else {
        return 0;
    };
    bytes_steps::state_size(h) as u32
}

// Start.
#[unsafe(no_mangle)]
pub extern "C" fn pandabrass_start(plan: &[u8], state: &mut [u8]) -> u32
    ensures { (result ≡ answer_number (start_on plan.now state.old).answer)
        × (state.new ≡ (start_on plan.now state.old).bytes) }
{
    answers::number_of(calls::start(plan, state))
}

// Read.
#[unsafe(no_mangle)]
pub extern "C" fn pandabrass_read(plan: &[u8], state: &mut [u8]) -> u32
    ensures { (result ≡ answer_number (call_on plan.now read state.old).answer)
        × (state.new ≡ (call_on plan.now read state.old).bytes) }
{
    answers::number_of(calls::read(plan, state))
}

// Execute.
#[unsafe(no_mangle)]
pub extern "C" fn pandabrass_execute(plan: &[u8], state: &mut [u8]) -> u32
    ensures { (result ≡ answer_number (call_on plan.now execute state.old).answer)
        × (state.new ≡ (call_on plan.now execute state.old).bytes) }
{
    answers::number_of(calls::execute(plan, state))
}

// Write.
#[unsafe(no_mangle)]
pub extern "C" fn pandabrass_write(plan: &[u8], state: &mut [u8]) -> u32
    ensures { (result ≡ answer_number (call_on plan.now write state.old).answer)
        × (state.new ≡ (call_on plan.now write state.old).bytes) }
{
    answers::number_of(calls::write(plan, state))
}

// Launch.
#[unsafe(no_mangle)]
pub extern "C" fn pandabrass_launch(
    plan: &[u8],
    state: &mut [u8],
    active: u32,
    passive: u32,
    slot: u32,
) -> u32
    ensures { (result ≡ answer_number
        (call_on plan.now (launch active passive slot) state.old).answer)
        × (state.new ≡ (call_on plan.now (launch active passive slot) state.old).bytes) }
{
    answers::number_of(calls::launch(
        plan,
        state,
        active as usize,
        passive as usize,
        slot as usize,
    ))
}

// Reply: 1 accept, 0 decline.
#[unsafe(no_mangle)]
pub extern "C" fn pandabrass_reply(plan: &[u8], state: &mut [u8], passive: u32, choice: u32) -> u32
    ensures { (result ≡ answer_number (call_on plan.now (reply passive choice) state.old).answer)
        × (state.new ≡ (call_on plan.now (reply passive choice) state.old).bytes) }
{
    answers::number_of(calls::reply(plan, state, passive as usize, choice as usize))
}

// Look: the packet's kind, active, passive, slot and hub stand in the first five bytes of out.
#[unsafe(no_mangle)]
pub extern "C" fn pandabrass_look(plan: &[u8], state: &[u8], active: u32, out: &mut [u8; 8]) -> u32
    ensures { (result ≡ answer_number (call_on plan.now (look active) state.now).answer)
        × (out.new ≡ shown_bytes (call_on plan.now (look active) state.now).answer
        out.old) }
{
    let x = calls::look(plan, state, active as usize);
    answers::put_shown(x, out);
    answers::number_of(x)
}

// Drop.
#[unsafe(no_mangle)]
pub extern "C" fn pandabrass_drop(plan: &[u8], state: &mut [u8], active: u32) -> u32
    ensures { (result ≡ answer_number (call_on plan.now (drop active) state.old).answer)
        × (state.new ≡ (call_on plan.now (drop active) state.old).bytes) }
{
    answers::number_of(calls::drop(plan, state, active as usize))
}

// Close.
#[unsafe(no_mangle)]
pub extern "C" fn pandabrass_close(
    plan: &[u8],
    state: &mut [u8],
    active: u32,
    passive: u32,
    slot: u32,
) -> u32
    ensures { (result ≡ answer_number
        (call_on plan.now (close active passive slot) state.old).answer)
        × (state.new ≡ (call_on plan.now (close active passive slot) state.old).bytes) }
{
    answers::number_of(calls::close(
        plan,
        state,
        active as usize,
        passive as usize,
        slot as usize,
    ))
}

// Entry: the side stands in the first byte of out, 4 for free.
#[unsafe(no_mangle)]
pub extern "C" fn pandabrass_entry(
    plan: &[u8],
    state: &[u8],
    router: u32,
    side: u32,
    slot: u32,
    out: &mut [u8; 8],
) -> u32
    ensures { (result ≡ answer_number
        (call_on plan.now (entry router side slot) state.now).answer)
        × (out.new ≡ entry_byte (call_on plan.now (entry router side slot)
        state.now).answer out.old) }
{
    let x = calls::entry(plan, state, router as usize, side as usize, slot as usize);
    answers::put_entry(x, out);
    answers::number_of(x)
}

// Remaining: the packets and the rounds, four bytes each.
#[unsafe(no_mangle)]
pub extern "C" fn pandabrass_remaining(plan: &[u8], state: &[u8], out: &mut [u8; 8]) -> u32
    ensures { (result ≡ answer_number (call_on plan.now remaining state.now).answer)
        × (out.new ≡ remaining_bytes (call_on plan.now remaining state.now).answer
        out.old) }
{
    let x = calls::remaining(plan, state);
    answers::put_remaining(x, out);
    answers::number_of(x)
}
