//! Parsing the parameters of a control sequence as numbers. `controls` says what they mean.
ghost use Rattle.std.specs.Prelude.{◌≡◌, ◌≤◌, length, option_map, IsTrue};
ghost use Rattle.std.specs.Char.{is_ascii_digit};
ghost use Rattle.std.specs.List.{AllByRecursion};
ghost use Rattle.scr_term.specs.Ecma.Units.{is_parameter_byte};
ghost use Rattle.scr_term.specs.Ecma.Meanings.{parameter, parameters_of};

use arrayvec::ArrayVec;

/// The greatest value of a parameter.
const GREATEST: u32 = 9_999;

/// The most parameters that a control sequence of at most 64 bytes can have.
const MOST: usize = 62;

/// The parameters of a control sequence, each a number or absent.
pub(crate) type Parameters = ArrayVec<Option<u16>, MOST>;

/// The parameters of a control sequence, separated by semicolons; `None` if one is above 9,999
/// (ECMA-48, 5.4 'Control sequences').
pub(crate) fn parameters(bytes: &[u8]) -> Option<Parameters>
    requires digits { AllByRecursion (λ byte. IsTrue (is_parameter_byte byte)) bytes.now }
    requires short { length bytes.now ≤ 61 }
    ensures { option_map (λ list. list.items) result ≡ parameters_of bytes.now }
{
    let mut list = ArrayVec::new();
    for part in bytes.split(|byte| *byte == b';') {
        list.push(parameter(part)?);
    }
    Some(list)
}

/// One parameter: `Some(None)` if it is absent, `None` if it is above 9,999 (ECMA-48, 5.4 'Control
/// sequences').
fn parameter(digits: &[u8]) -> Option<Option<u16>>
    requires { AllByRecursion (λ byte. IsTrue (is_ascii_digit byte)) digits.now }
    ensures { result ≡ parameter digits.now }
{
    if digits.is_empty() {
        return Some(None);
    }
    let mut number = 0;
    for digit in digits {
        number = (number * 10 + u32::from(*digit - b'0')).min(GREATEST + 1);
    }
    if number > GREATEST {
        None
    } else {
        Some(Some(number as u16))
    }
}
