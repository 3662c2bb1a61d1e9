// What Rust and C get of an answer: its number, and a packet, an entry or what is left as bytes.
#![tactic(auto)]

ghost use Rattle.std.specs.Prelude.{◌≡◌};
ghost use Rattle.packets.specs.Answers.{entry_number};
ghost use Rattle.answers.specs.Numbers.{answer_number, shown_bytes, entry_byte, remaining_bytes};

use packets::{Answer, Entry};

// 0 for what is accepted, else the refusal's number.
pub fn number_of(x: Answer) -> u32
    ensures { result ≡ answer_number x }
{
    match x {
        Answer::Refused(w) => u32::from(u8::from(w)),
        Answer::Done => 0,
        Answer::Shows(_) => 0,
        Answer::Holds(_) => 0,
        Answer::Remains(_) => 0,
    }
}

// The bytes of a packet that is shown.
pub fn put_shown(x: Answer, out: &mut [u8; 8])
    ensures { out.new ≡ shown_bytes x out.old }
{
    if let Answer::Shows(p) = x {
        bytes_rows::put_packet(out, 0, p);
    }
}

// The number of an entry: the side, 4 for free.
fn entry_number(e: Entry) -> u8
    ensures { result ≡ entry_number e }
{
    match e {
        Entry::Free => 4,
        Entry::Booked(side) => side,
    }
}

// The byte of an entry that was told.
pub fn put_entry(x: Answer, out: &mut [u8; 8])
    ensures { out.new ≡ entry_byte x out.old }
{
    if let Answer::Holds(e) = x {
        out[0] = entry_number(e);
    }
}

// The bytes of what is left: two words, the lowest byte of each first.
pub fn put_remaining(x: Answer, out: &mut [u8; 8])
    ensures { out.new ≡ remaining_bytes x out.old }
{
    if let Answer::Remains(n) = x {
        bytes_rows::starts::put_word(out, 0, n.packets);
        bytes_rows::starts::put_word(out, 4, n.rounds);
    }
}
