//! Splitting a parameter string into directives and marks (terminfo(5), 'Parameterized Strings').

ghost use Rattle.std.specs.Prelude.{◌≡◌, ◌^◌, ◌-◌, ◌<◌, ◌≤◌, min, ℕ, length, IfOk, Option, option_map};
ghost use Rattle.ti_param.specs.Spelling.{begins_with};
ghost use Rattle.ti_param.specs.Code.Tokens.{Gives, operator, single, parameter, letter_of, quoted, digits, constant, flags, all_flags, precision, conversion, finished, number, directive, token};
ghost use Rattle.ti_param.specs.Numbers.{plain};
ghost use Rattle.ti_param.specs.declared.directives.Directive.TheVariants.{SetDynamic, SetStatic, GetDynamic, GetStatic};

use crate::directives::{Conversion, Directive, Format, Operator};

/// A directive, or a mark of a conditional.
#[derive(Clone, Copy)]
pub enum Token {
    Do(Directive),
    /// `%?`
    If,
    /// `%t`
    Then,
    /// `%e`
    Else,
    /// `%;`
    EndIf,
}

/// What is wrong with a directive.
#[derive(Clone, Copy)]
pub enum Flaw {
    /// The text ends inside it.
    Cut,
    /// There is no such directive.
    Wrong,
    /// It is for texts, and no parameter is a text here.
    Text,
}

/// The directive, mark or literal byte at the beginning of a text, and the text after it.
pub fn first_token(text: &[u8]) -> Result<(Token, &[u8]), Flaw>
    ensures gives { Gives (λ x. (x.0, x.1.now)) result (token text.now) }
    ensures shorter { IfOk result (λ x. length x.1.now < length text.now) }
{
    let Some((first, rest)) = text.split_first() else {
        return Err(Flaw::Cut);
    };
    if *first == b'%' {
        directive(rest)
    } else {
        Ok((Token::Do(Directive::Literal(*first)), rest))
    }
}

// The directive or mark after a `%`.
fn directive(text: &[u8]) -> Result<(Token, &[u8]), Flaw>
    ensures gives { Gives (λ x. (x.0, x.1.now)) result (directive text.now) }
    ensures shorter { IfOk result (λ x. length x.1.now < length text.now) }
{
    let Some((first, rest)) = text.split_first() else {
        return Err(Flaw::Cut);
    };
    if let Some(operator) = operator(*first) {
        return Ok((Token::Do(Directive::Binary(operator)), rest));
    }
    if let Some(token) = single(*first) {
        return Ok((token, rest));
    }
    match *first {
        b'p' => parameter(rest),
        b'P' => setter(rest),
        b'g' => getter(rest),
        b'\'' => quoted(rest),
        b'{' => constant(rest),
        b'l' => Err(Flaw::Text),
        _ => number(text),
    }
}

// The operator for a byte.
fn operator(byte: u8) -> Option<Operator>
    ensures { result ≡ operator byte }
{
    match byte {
        b'+' => Some(Operator::Plus),
        b'-' => Some(Operator::Minus),
        b'*' => Some(Operator::Times),
        b'/' => Some(Operator::Over),
        b'm' => Some(Operator::Modulo),
        b'&' => Some(Operator::BitAnd),
        b'|' => Some(Operator::BitOr),
        b'^' => Some(Operator::BitXor),
        b'=' => Some(Operator::Equal),
        b'>' => Some(Operator::Greater),
        b'<' => Some(Operator::Less),
        b'A' => Some(Operator::Both),
        b'O' => Some(Operator::Either),
        _ => None,
    }
}

// The other directives of one byte, and the marks.
fn single(byte: u8) -> Option<Token>
    ensures { result ≡ single byte }
{
    match byte {
        b'%' => Some(Token::Do(Directive::Literal(b'%'))),
        b'c' => Some(Token::Do(Directive::Character)),
        b'i' => Some(Token::Do(Directive::Increment)),
        b'!' => Some(Token::Do(Directive::Not)),
        b'~' => Some(Token::Do(Directive::Complement)),
        b'?' => Some(Token::If),
        b't' => Some(Token::Then),
        b'e' => Some(Token::Else),
        b';' => Some(Token::EndIf),
        _ => None,
    }
}

// The number of a parameter.
fn parameter(text: &[u8]) -> Result<(Token, &[u8]), Flaw>
    ensures gives { Gives (λ x. (x.0, x.1.now)) result (parameter text.now) }
    ensures shorter { IfOk result (λ x. length x.1.now < length text.now) }
{
    let Some((first, rest)) = text.split_first() else {
        return Err(Flaw::Cut);
    };
    if b'1' <= *first && *first <= b'9' {
        Ok((Token::Do(Directive::Parameter(*first - b'1')), rest))
    } else {
        Err(Flaw::Wrong)
    }
}

// The letter of a variable to set.
fn setter(text: &[u8]) -> Result<(Token, &[u8]), Flaw>
    ensures gives { Gives (λ x. (x.0, x.1.now)) result (letter_of SetDynamic SetStatic text.now) }
    ensures shorter { IfOk result (λ x. length x.1.now < length text.now) }
{
    let Some((first, rest)) = text.split_first() else {
        return Err(Flaw::Cut);
    };
    if b'a' <= *first && *first <= b'z' {
        Ok((Token::Do(Directive::SetDynamic(*first - b'a')), rest))
    } else if b'A' <= *first && *first <= b'Z' {
        Ok((Token::Do(Directive::SetStatic(*first - b'A')), rest))
    } else {
        Err(Flaw::Wrong)
    }
}

// The letter of a variable to push.
fn getter(text: &[u8]) -> Result<(Token, &[u8]), Flaw>
    ensures gives { Gives (λ x. (x.0, x.1.now)) result (letter_of GetDynamic GetStatic text.now) }
    ensures shorter { IfOk result (λ x. length x.1.now < length text.now) }
{
    let Some((first, rest)) = text.split_first() else {
        return Err(Flaw::Cut);
    };
    if b'a' <= *first && *first <= b'z' {
        Ok((Token::Do(Directive::GetDynamic(*first - b'a')), rest))
    } else if b'A' <= *first && *first <= b'Z' {
        Ok((Token::Do(Directive::GetStatic(*first - b'A')), rest))
    } else {
        Err(Flaw::Wrong)
    }
}

// A byte and `'`.
fn quoted(text: &[u8]) -> Result<(Token, &[u8]), Flaw>
    ensures gives { Gives (λ x. (x.0, x.1.now)) result (quoted text.now) }
    ensures shorter { IfOk result (λ x. length x.1.now < length text.now) }
{
    let Some((byte, rest)) = text.split_first() else {
        return Err(Flaw::Cut);
    };
    let Some((quote, rest)) = rest.split_first() else {
        return Err(Flaw::Cut);
    };
    if *quote == b'\'' {
        Ok((Token::Do(Directive::Constant(i32::from(*byte))), rest))
    } else {
        Err(Flaw::Wrong)
    }
}

// Any number of digits, and `}`.
fn constant(text: &[u8]) -> Result<(Token, &[u8]), Flaw>
    ensures gives { Gives (λ x. (x.0, x.1.now)) result (constant text.now) }
    ensures shorter { IfOk result (λ x. length x.1.now < length text.now) }
{
    let (value, rest) = digits(text);
    let Some((brace, rest)) = rest.split_first() else {
        return Err(Flaw::Cut);
    };
    if *brace == b'}' && value <= i32::MAX as u32 {
        Ok((Token::Do(Directive::Constant(value as i32)), rest))
    } else {
        Err(Flaw::Wrong)
    }
}

// The number that digits spell, as far as 32 bits count, and the text after them.
fn digits(text: &[u8]) -> (u32, &[u8])
    ensures value { result.0 ≡ min ((digits 0 text.now).0) (2 ^ 32 - 1) }
    ensures rest { result.1.now ≡ (digits 0 text.now).1 }
    ensures bound { length result.1.now ≤ length text.now }
{
    let mut value = 0u32;
    let mut index = 0;
    while index < text.len() && text[index].is_ascii_digit() {
        value = value
            .saturating_mul(10)
            .saturating_add(u32::from(text[index] - b'0'));
        index += 1;
    }
    (value, &text[index..])
}

// Flags, width, precision and the letter of a conversion.
fn number(text: &[u8]) -> Result<(Token, &[u8]), Flaw>
    ensures gives { Gives (λ x. (x.0, x.1.now)) result (number text.now) }
    ensures shorter { IfOk result (λ x. length x.1.now < length text.now) }
{
    let (mut format, rest) = all_flags(text);
    format.zero = begins_with(b'0', rest);
    let (width, rest) = digits(rest);
    let (precision, rest) = precision(rest);
    finished(format, width, precision, rest)
}

// Whether a text begins with a byte.
fn begins_with(byte: u8, text: &[u8]) -> bool
    ensures { result ≡ begins_with byte text.now }
{
    match text.first() {
        None => false,
        Some(first) => *first == byte,
    }
}

// A `:` and flags, or flags that need no `:`.
fn all_flags(text: &[u8]) -> (Format, &[u8])
    ensures format { result.0 ≡ (all_flags text.now).0 }
    ensures rest { result.1.now ≡ (all_flags text.now).1 }
    ensures bound { length result.1.now ≤ length text.now }
{
    if begins_with(b':', text) {
        flags(true, &text[1..])
    } else {
        flags(false, text)
    }
}

// The flags at the beginning of a text.
fn flags(colon: bool, text: &[u8]) -> (Format, &[u8])
    ensures format { result.0 ≡ (flags colon plain text.now).0 }
    ensures rest { result.1.now ≡ (flags colon plain text.now).1 }
    ensures bound { length result.1.now ≤ length text.now }
{
    let mut format = PLAIN;
    let mut index = 0;
    while index < text.len() {
        match text[index] {
            b'#' => format.alternate = true,
            b' ' => format.blank = true,
            b'-' if colon => format.left = true,
            b'+' if colon => format.plus = true,
            _ => break,
        }
        index += 1;
    }
    (format, &text[index..])
}

// A format before its conversion is known.
const PLAIN: Format = Format {
    conversion: Conversion::Decimal,
    left: false,
    plus: false,
    blank: false,
    alternate: false,
    zero: false,
    width: 0,
    precision: None,
};

// A point and digits, as far as 32 bits count; `None` if there is no point.
fn precision(text: &[u8]) -> (Option<u32>, &[u8])
    ensures value { result.0 ≡ option_map (λ n. min n (2 ^ 32 - 1)) ((precision text.now).0) }
    ensures rest { result.1.now ≡ (precision text.now).1 }
    ensures bound { length result.1.now ≤ length text.now }
{
    if begins_with(b'.', text) {
        let (value, rest) = digits(&text[1..]);
        (Some(value), rest)
    } else {
        (None, text)
    }
}

// The letter of a conversion.
fn conversion(byte: u8) -> Option<Conversion>
    ensures { result ≡ conversion byte }
{
    match byte {
        b'd' => Some(Conversion::Decimal),
        b'o' => Some(Conversion::Octal),
        b'x' => Some(Conversion::LowerHex),
        b'X' => Some(Conversion::UpperHex),
        _ => None,
    }
}

// The end of a number's directive.
fn finished(
    format: Format,
    width: u32,
    precision: Option<u32>,
    text: &[u8],
) -> Result<(Token, &[u8]), Flaw>
    ensures gives { (w : ℕ) → (p : Option ℕ) → width ≡ min w (2 ^ 32 - 1) → precision ≡ option_map (λ n. min n (2 ^ 32 - 1)) p → Gives (λ x. (x.0, x.1.now)) result (finished format w p text.now) }
    ensures shorter { IfOk result (λ x. length x.1.now < length text.now) }
{
    let Some((letter, rest)) = text.split_first() else {
        return Err(Flaw::Cut);
    };
    let digits = precision.unwrap_or(0);
    if width > 99 || digits > 99 {
        return Err(Flaw::Wrong);
    }
    match conversion(*letter) {
        Some(conversion) => {
            let format = Format {
                conversion,
                left: format.left,
                plus: format.plus,
                blank: format.blank,
                alternate: format.alternate,
                zero: format.zero,
                width: width as u8,
                precision: precision.map(|n| n as u8),
            };
            Ok((Token::Do(Directive::Number(format)), rest))
        }
        None if *letter == b's' => Err(Flaw::Text),
        None => Err(Flaw::Wrong),
    }
}
