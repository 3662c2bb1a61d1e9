// A field of 1 to 6 bits of the plan's bytes, most significant bit first, read directly from the one or two bytes
// that hold it.
#![tactic(auto)]

ghost use Rattle.std.specs.Prelude.{◌≡◌, ◌≤◌, ◌*◌, ◌+◌, length};
ghost use Rattle.fields.specs.Bits.{field_of};

// The bits of a byte.
const BYTE: usize = 8;

// The number that the w bits from position p on make. All of them are in the byte in which they begin, or they are its
// last bits and the first ones of the next byte.
pub fn field(s: &[u8], p: usize, w: usize) -> u8
    requires { (1 ≤ w) × (w ≤ 6) × (p + w ≤ 8 * length s.now) }
    ensures { result ≡ field_of s.now p w }
{
    let i = p / BYTE;
    let end = p % BYTE + w;
    if end <= BYTE {
        return (s[i] >> (BYTE - end)) % (1u8 << w);
    }
    let more = end - BYTE;
    let first = (s[i] << more) % (1u8 << w);
    let second = s[i + 1] >> (BYTE - more);
    first + second
}
