//! Printing texts with escapes that other compilers read as this one does.
ghost use Rattle.std.specs.Prelude.{◌≡◌, ◌+◌, ◌/◌, ◌%◌, ◌++◌, ◌∷◌, [], OnOk};
ghost use Rattle.ti_extended.specs.Printed.{is_caret_byte, printed_after, printed_behind};

use std::alloc::AllocError;
use ti_source::push_escaped;

/// Appends a text as it is written in a string field: as `push_escaped` does, but a control
/// character behind `%` by its octal digits, since `%^` is an operator to other compilers
/// (terminfo(5), "Parameterized Strings").
pub(crate) fn put_escaped(text: &[u8], out: &mut Vec<u8>) -> Result<(), AllocError>
    ensures { OnOk result (out.new.items ≡ out.old.items ++ printed_after 0 text.now) }
{
    let mut before = 0u8;
    for byte in text {
        put_behind(before, *byte, out)?;
        before = *byte;
    }
    Ok(())
}

// Appends a byte that follows another.
fn put_behind(before: u8, byte: u8, out: &mut Vec<u8>) -> Result<(), AllocError>
    ensures { OnOk result (out.new.items ≡ out.old.items ++ printed_behind before byte) }
{
    if before == b'%' && is_caret_byte(byte) {
        put_octal(byte, out)
    } else {
        push_escaped(out, &[byte])
    }
}

fn put_octal(byte: u8, out: &mut Vec<u8>) -> Result<(), AllocError>
    ensures { OnOk result (out.new.items ≡ out.old.items ++ 92 ∷ (48 + byte / 64) ∷ (48 + byte / 8 % 8) ∷ (48 + byte % 8) ∷ []) }
{
    out.extend_from_slice(&[
        b'\\',
        b'0' + byte / 64,
        b'0' + byte / 8 % 8,
        b'0' + byte % 8,
    ])
}

// Whether a byte is printed by `^`.
fn is_caret_byte(byte: u8) -> bool
    ensures { result ≡ is_caret_byte byte }
{
    (byte < 32 && byte != 27) || byte == 127
}
