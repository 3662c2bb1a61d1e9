// The start slots of a pair's accepted connections: a set in a word of four bytes, the first the lowest.
ghost use Rattle.std.specs.Prelude.{◌≡◌, ◌+◌, ◌%◌, ◌<◌, ◌≤◌, length};
ghost use Rattle.std.proofs.lemmas.List.Edits.{sets};
ghost use Rattle.sets.specs.Sets.{has};
ghost use Rattle.bytes_layout.specs.Encode.{word_bytes};
ghost use Rattle.bytes_layout.specs.Decode.{four_at};
ghost use Rattle.bytes_layout.specs.Updates.{join_start, leave_start};

use kinds::Slot;

// The word of the four bytes at an offset.
pub fn word(s: &[u8], at: usize) -> u32
    requires { at + 4 ≤ length s.now }
    ensures { result ≡ four_at at s.now }
{
    u32::from_le_bytes([s[at], s[at + 1], s[at + 2], s[at + 3]])
}

// A word's four bytes at an offset.
pub fn put_word(s: &mut [u8], at: usize, w: u32)
    requires { at + 4 ≤ length s.old }
    ensures { s.new ≡ sets s.old at (word_bytes w) }
{
    s[at..at + 4].copy_from_slice(&w.to_le_bytes());
}

// Whether a slot is one of those at an offset.
pub fn has(s: &[u8], at: usize, t: Slot) -> bool
    requires { (at + 4 ≤ length s.now) × (t.0 < 32) }
    ensures { result ≡ has (four_at at s.now) t.0 }
{
    sets::has(word(s, at), usize::from(t.0))
}

// A slot joins those at an offset.
pub fn join(s: &mut [u8], at: usize, t: Slot)
    requires { (at + 4 ≤ length s.old) × (t.0 < 32) }
    ensures { s.new ≡ join_start at t.0 s.old }
{
    let w = word(s, at);
    put_word(s, at, sets::with(w, usize::from(t.0)));
}

// A slot leaves those at an offset.
pub fn leave(s: &mut [u8], at: usize, t: Slot)
    requires { (at + 4 ≤ length s.old) × (t.0 < 32) }
    ensures { s.new ≡ leave_start at t.0 s.old }
{
    let w = word(s, at);
    put_word(s, at, sets::without(w, usize::from(t.0)));
}
