// Where the parts of a state stand in its bytes, by the plan's head.
#![tactic(auto)]

ghost use Rattle.std.specs.Prelude.{◌≡◌, ◌+◌, ◌*◌, ◌≤◌, ◌<◌};
ghost use Rattle.plan.specs.Head.{Counts};
ghost use Rattle.bytes_steps.specs.Counts.{queue_count, output_count, outputs_from, allowances_from, table_from};
ghost use Rattle.bytes_steps.specs.Counts.{connections_from, turns_from, state_size};

use plan::Head;

// The first bytes of a state: the phase and the current slot.
pub const PHASE_BYTE: usize = 0;

pub const SLOT_BYTE: usize = 1;

// A queue's row: credit, flag, mark, length and seven places of five bytes.
pub const QUEUE_WIDTH: usize = 39;

// Where in a queue's row the flag, the mark and the length stand, behind the credit, and the first place.
pub const FLAG_BYTE: usize = 1;

pub const MARK_BYTE: usize = 2;

pub const LENGTH_BYTE: usize = 3;

pub const FIRST_PLACE: usize = 4;

// A place: a packet's five bytes.
pub const PLACE_WIDTH: usize = 5;

// An output's row: a wire's six bytes and the choice.
pub const OUTPUT_WIDTH: usize = 7;

// Where in an output's row the choice stands.
pub const CHOICE_BYTE: usize = 6;

// How many queues there are.
pub fn queue_count(h: Head) -> usize
    requires { Counts h }
    ensures { (result ≡ queue_count h) × (result ≤ 512) }
{
    2 * (h.actives + h.passives) + 28 * h.routers
}

// How many outputs there are.
pub fn output_count(h: Head) -> usize
    requires { Counts h }
    ensures { (result ≡ output_count h) × (result ≤ 128) }
{
    h.actives + h.passives + 6 * h.routers
}

// The row of queue n.
pub fn queue_row(n: usize) -> usize
    requires { n ≤ 65535 }
    ensures { result ≡ 2 + 39 * n }
{
    2 + QUEUE_WIDTH * n
}

// The row of output m.
pub fn output_row(h: Head, m: usize) -> usize
    requires { Counts h × (m ≤ 65535) }
    ensures { result ≡ outputs_from h + 7 * m }
{
    2 + QUEUE_WIDTH * queue_count(h) + OUTPUT_WIDTH * m
}

// The byte of active a's allowance.
pub fn allowance_row(h: Head, a: usize) -> usize
    requires { Counts h × (a ≤ 65535) }
    ensures { result ≡ allowances_from h + a }
{
    output_row(h, output_count(h)) + a
}

// The first byte of the table.
pub fn table_row(h: Head) -> usize
    requires { Counts h }
    ensures { result ≡ table_from h }
{
    allowance_row(h, h.actives)
}

// The bytes of an entry: of a router, a side and a slot.
pub fn entry_row(h: Head, r: usize, o: usize, t: usize) -> usize
    requires { Counts h × (r ≤ 16) × (o ≤ 4) × (t ≤ 32) }
    ensures { result ≡ table_from h + 2 * (128 * r + 32 * o + t) }
{
    table_row(h) + 2 * (128 * r + 32 * o + t)
}

// The first byte of the accepted connections.
pub fn connections_row(h: Head) -> usize
    requires { Counts h }
    ensures { result ≡ connections_from h }
{
    table_row(h) + 256 * h.routers
}

// The bytes of a pair's start slots: of an active and a passive.
pub fn starts_row(h: Head, a: usize, p: usize) -> usize
    requires { Counts h × (a ≤ 16) × (p ≤ 16) }
    ensures { result ≡ connections_from h + 4 * (16 * a + p) }
{
    connections_row(h) + 4 * (16 * a + p)
}

// The byte of the last sender that output m served.
pub fn turn_row(h: Head, m: usize) -> usize
    requires { Counts h × (m ≤ 65535) }
    ensures { result ≡ turns_from h + m }
{
    connections_row(h) + 64 * h.actives + m
}

// The count of a state's bytes.
pub fn state_size(h: Head) -> usize
    requires { Counts h }
    ensures { result ≡ state_size h }
{
    turn_row(h, output_count(h))
}
