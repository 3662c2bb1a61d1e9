// Hex digits in a text, and the bytes that they give.
ghost use Rattle.std.specs.Prelude.{◌≡◌, ◌+◌, ◌*◌, ◌≤◌, ◌<◌, length, IfOk};
ghost use Rattle.show.specs.Hex.{Fits};

// Why a text gives no bytes: an odd count of digits, or, first at this index, a sign that is neither digit nor white
// space.
#[derive(Clone, Copy, Debug, PartialEq, Eq)]
pub enum DecodeError {
    Odd,
    Other(usize),
}

// Whether a sign is white space.
fn is_space(sign: u8) -> bool {
    matches!(sign, b' ' | b'\t' | b'\r' | b'\n')
}

// A digit's value.
fn digit(sign: u8) -> Option<u8> {
    match sign {
        b'0'..=b'9' => Some(sign - b'0'),
        b'A'..=b'F' => Some(sign - b'A' + 10),
        b'a'..=b'f' => Some(sign - b'a' + 10),
        _ => None,
    }
}

// Puts a digit behind those that the plan has, two to a byte; the answer is how many it has then.
fn put(plan: &mut [u8; 4096], digits: usize, d: u8) -> usize
    requires { (digits < 8192) × (4096 ≡ length plan.old) }
    ensures { (result ≤ digits + 1) × (4096 ≡ length plan.new) }
{
    let at = digits / 2;
    let low = digits % 2 == 1;
    plan[at] = if low { plan[at] | d } else { d << 4 };
    digits + 1
}

// Puts the bytes that a text's digits give into the plan; the answer is how many there are, half as many as digits.
pub fn decode(text: &[u8], plan: &mut [u8; 4096]) -> Result<usize, DecodeError>
    requires { (length text.now ≤ 4096) × (4096 ≡ length plan.old) }
    ensures fits { Fits result × (4096 ≡ length plan.new) }
    ensures halved { IfOk result (λ n. 2 * n ≤ length text.now) }
{
    let mut digits = 0;
    for (i, sign) in text.iter().enumerate() {
        if is_space(*sign) {
            continue;
        }
        let d = digit(*sign).ok_or(DecodeError::Other(i))?;
        digits = put(plan, digits, d);
    }
    if digits % 2 == 1 {
        return Err(DecodeError::Odd);
    }
    Ok(digits / 2)
}

#[cfg(test)]
mod tests {
    use super::*;

    // What a text gives.
    #[test]
    fn digits_and_white_space(rt: HostRuntime) -> Result<(), DecodeError> {
        let mut plan = [0; 4096];
        let n = decode(b"08 4\t2\r\n fF", &mut plan)?;
        assert_eq!(rt; &plan[..n], [8, 0x42, 0xff].as_slice());
        Ok(())
    }

    // Why a text gives nothing.
    #[test]
    fn no_bytes(rt: HostRuntime) {
        let mut plan = [0; 4096];
        assert_eq!(rt; decode(b"084", &mut plan).err(), Some(DecodeError::Odd));
        assert_eq!(rt;
            decode(b"0 8g", &mut plan).err(),
            Some(DecodeError::Other(3))
        );
    }
}
