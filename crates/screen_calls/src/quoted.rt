//! Texts in quotation marks.

use crate::call_faults::CallFault;
use crate::fields::{hexadecimal_byte, push};
use crate::reasons::Reason;
use std::alloc::Global;
use ti_caps::Bytes;

/// The bytes of a text in quotation marks, where `\n`, `\t`, `\e`, `\"`, `\\` and `\xHH` stand for bytes.
pub(crate) fn quoted<'a>(alloc: Global, text: &'a [u8]) -> Result<Bytes, CallFault<'a>> {
    let mut bytes = Vec::new(alloc);
    add_spelled(text, &mut bytes)?;
    Ok(Bytes(bytes))
}

// Adds the bytes of a text in quotation marks.
fn add_spelled<'a>(text: &'a [u8], bytes: &mut Vec<u8>) -> Result<(), CallFault<'a>> {
    let [b'"', spelled @ .., b'"'] = text else {
        return Err(CallFault::Bad(Reason::NotQuoted(text)));
    };
    let mut rest = spelled;
    for _ in 0..spelled.len() {
        let Some((byte, after)) = first_byte(rest) else {
            break;
        };
        push(bytes, byte)?;
        rest = after;
    }
    match rest {
        [] => Ok(()),
        _ => Err(CallFault::Bad(Reason::NotQuoted(text))),
    }
}

// The first byte that is spelled, and what follows it; `None` at the end, and at what spells nothing.
fn first_byte(text: &[u8]) -> Option<(u8, &[u8])> {
    match text.split_first()? {
        (b'\\', escape) => escaped(escape),
        (b'"', _) => None,
        (byte, rest) => Some((*byte, rest)),
    }
}

// The byte that is meant behind a backslash, and what follows it.
fn escaped(escape: &[u8]) -> Option<(u8, &[u8])> {
    let (kind, rest) = escape.split_first()?;
    match kind {
        b'n' => Some((b'\n', rest)),
        b't' => Some((b'\t', rest)),
        b'e' => Some((27, rest)),
        b'"' | b'\\' => Some((*kind, rest)),
        b'x' => {
            let (digits, rest) = rest.split_at_checked(2)?;
            Some((hexadecimal_byte(digits).ok()?, rest))
        }
        _ => None,
    }
}
