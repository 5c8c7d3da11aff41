//! Parsing the numbers of a source.

ghost use Rattle.std.specs.Prelude.{◌≡◌, ◌≤◌, ◌+◌, ◌*◌, min, option_map};
ghost use Rattle.ti_source.specs.Reading.Number.{digit, digits, number};

/// The number that a text spells, `most` for all above; `None` if it spells none (terminfo(5),
/// "Types of Capabilities").
pub fn number(bytes: &[u8], most: u32) -> Option<u32>
    ensures { result ≡ option_map (λ n. min n most) (number bytes.now) }
{
    match bytes {
        [b'0'] => Some(0),
        [b'0', b'x' | b'X', hexadecimal @ ..] => digits(16, hexadecimal, most),
        [b'0', octal @ ..] => digits(8, octal, most),
        _ => digits(10, bytes, most),
    }
}

fn digit(b: u8) -> u32
    ensures value { result ≡ digit b }
    ensures small { result ≤ 16 }
{
    match b {
        b'0'..=b'9' => u32::from(b - b'0'),
        b'a'..=b'f' => u32::from(b - b'a') + 10,
        b'A'..=b'F' => u32::from(b - b'A') + 10,
        _ => 16,
    }
}

fn digits(base: u32, bytes: &[u8], most: u32) -> Option<u32>
    requires low { 1 ≤ base }
    requires high { base ≤ 16 }
    ensures { result ≡ option_map (λ n. min n most) (digits base bytes.now) }
{
    if bytes.is_empty() {
        return None;
    }
    let mut value = 0;
    for b in bytes {
        let next = digit(*b);
        if next >= base {
            return None;
        }
        value = with_digit(value, base, next, most);
    }
    Some(value)
}

// A number with one digit more.
fn with_digit(value: u32, base: u32, digit: u32, most: u32) -> u32
    requires high { base ≤ 16 }
    requires small { digit ≤ 16 }
    ensures { result ≡ min (value * base + digit) most }
{
    let next = u64::from(value) * u64::from(base) + u64::from(digit);
    next.min(u64::from(most)) as u32
}
