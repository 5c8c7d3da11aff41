//! Printing an entry as source text, and the laws that it reads back.

ghost use Rattle.std.specs.Fmt.{decimal};
ghost use Rattle.std.specs.Prelude.{◌<◌, ◌^◌, Some, List, ℕ, ◌≡◌, ◌++◌, IfOk, OnOk, IsOkUnless, length, option_map};
ghost use Rattle.ti_caps.specs.Description.{IsDescription, unnamed_count};
ghost use Rattle.ti_source.specs.Reading.Escape.{IsText, decoded, printed_byte, printed_text};
ghost use Rattle.ti_source.specs.Reading.Number.{number};
ghost use Rattle.ti_source.specs.Printing.Print.{flag_line, lines_from, number_line, printed, text_line};
ghost use Rattle.ti_source.specs.Printing.ReadBack.{EachReadsBack, ReadsBack};

use crate::faults::SourceFault;
use std::alloc::{AllocError, Global};
use ti_caps::{Bytes, Entry, Kind, Slot, name_of, names_stand_once};

/// An entry as source text.
#[derive(Debug, Drop)]
pub struct Printed {
    /// The names, and a line for each present capability that has a name.
    pub text: Bytes,
    /// The number of present capabilities that have no name, and are left out.
    pub unnamed: usize,
}

/// Prints an entry as source text (tic(1), infocmp(1)): its names, then a line for each present
/// capability that has a name. Booleans come first, then numbers, then strings, each in the order
/// of positions. Also counts the present capabilities that have no name.
///
/// The text is a source of one entry without a note. By its first reference name it resolves to the
/// entry without its unnamed capabilities. The only error is `NoMemory`.
pub fn print(alloc: Global, entry: &Entry) -> Result<Printed, SourceFault>
    ensures text { IfOk result (λ p. p.text ≡ printed entry.now) }
    ensures unnamed { IfOk result (λ p. p.unnamed ≡ unnamed_count entry.now) }
    ensures reads { IfOk result (λ _. ReadsBack entry.now) }
    ensures only { IsOkUnless result SourceFault.NoMemory }
{
    let text = Bytes(text_of(alloc, entry)?);
    let unnamed = entry.unnamed();
    printed_reads_back();
    Ok(Printed { text, unnamed })
}

/// Law: reading a printed text gives the text that was printed.
pub fn texts_read_back()
    ensures { (text : List ℕ) → IsText text → decoded (printed_text text) ≡ text }
{}

/// Law: reading a printed number gives the number that was printed.
pub fn numbers_read_back()
    ensures { (n : ℕ) → n < 2 ^ 16 → number (decimal n) ≡ Some n }
{}

/// Law: a printed entry is a source of one entry without a note, which resolves by its first
/// reference name to what was printed, without its unnamed capabilities.
pub fn printed_reads_back()
    ensures { EachReadsBack }
{
    names_stand_once();
}

fn push_byte(out: &mut Vec<u8>, b: u8) -> Result<(), AllocError>
    ensures { OnOk result (out.new.items ≡ out.old.items ++ printed_byte b) }
{
    match b {
        27 => out.extend_from_slice(b"\\E"),
        0..=31 => out.extend_from_slice(&[b'^', b + 64]),
        127 => out.extend_from_slice(b"^?"),
        b' ' => out.extend_from_slice(b"\\s"),
        b',' | b'\\' | b'^' => out.extend_from_slice(&[b'\\', b]),
        128..=255 => {
            out.extend_from_slice(&[b'\\', b'0' + b / 64, b'0' + b / 8 % 8, b'0' + b % 8])
        }
        _ => out.extend_from_slice(&[b]),
    }
}

/// Appends a text as it is written in a string field: with an escape for each byte that would not stand for itself.
pub fn push_escaped(out: &mut Vec<u8>, text: &[u8]) -> Result<(), AllocError>
    ensures { OnOk result (out.new.items ≡ out.old.items ++ printed_text text.now) }
{
    for b in text {
        push_byte(out, *b)?;
    }
    Ok(())
}

fn push_flag(out: &mut Vec<u8>, slot: u16, present: bool) -> Result<(), AllocError>
    ensures { OnOk result (out.new.items ≡ out.old.items ++ flag_line slot present) }
{
    if !present {
        return Ok(());
    }
    let Some(name) = name_of(Kind::Flag, Slot(slot)) else {
        return Ok(());
    };
    out.push(b'\t')?;
    out.extend_from_slice(name.as_bytes())?;
    out.extend_from_slice(b",\n")
}

fn push_number(
    alloc: Global,
    out: &mut Vec<u8>,
    slot: u16,
    number: Option<u16>,
) -> Result<(), AllocError>
    ensures { OnOk result (out.new.items ≡ out.old.items ++ number_line slot number) }
{
    let Some(number) = number else {
        return Ok(());
    };
    let Some(name) = name_of(Kind::Number, Slot(slot)) else {
        return Ok(());
    };
    let digits = number.to_string(alloc)?;
    out.push(b'\t')?;
    out.extend_from_slice(name.as_bytes())?;
    out.push(b'#')?;
    out.extend_from_slice(digits.as_bytes())?;
    out.extend_from_slice(b",\n")
}

fn push_text(out: &mut Vec<u8>, slot: u16, text: Option<&[u8]>) -> Result<(), AllocError>
    ensures { OnOk result (out.new.items ≡ out.old.items ++ text_line slot (option_map (λ t. t.now) text.entry)) }
{
    let Some(text) = text else {
        return Ok(());
    };
    let Some(name) = name_of(Kind::Text, Slot(slot)) else {
        return Ok(());
    };
    out.push(b'\t')?;
    out.extend_from_slice(name.as_bytes())?;
    out.push(b'=')?;
    push_escaped(out, text)?;
    out.extend_from_slice(b",\n")
}

fn push_flags(out: &mut Vec<u8>, entry: &Entry) -> Result<(), AllocError>
    requires { length entry.now.flags ≡ 64 }
    ensures { OnOk result (out.new.items ≡ out.old.items ++ lines_from flag_line 0 entry.now.flags) }
{
    for slot in 0..64u16 {
        push_flag(out, slot, entry.flag(Slot(slot)))?;
    }
    Ok(())
}

fn push_numbers(alloc: Global, out: &mut Vec<u8>, entry: &Entry) -> Result<(), AllocError>
    requires { length entry.now.numbers ≡ 64 }
    ensures { OnOk result (out.new.items ≡ out.old.items ++ lines_from number_line 0 entry.now.numbers) }
{
    for slot in 0..64u16 {
        push_number(alloc, out, slot, entry.number(Slot(slot)))?;
    }
    Ok(())
}

fn push_texts(out: &mut Vec<u8>, entry: &Entry) -> Result<(), AllocError>
    requires { length entry.now.texts ≡ 512 }
    ensures { OnOk result (out.new.items ≡ out.old.items ++ lines_from text_line 0 entry.now.texts) }
{
    for slot in 0..512u16 {
        push_text(out, slot, entry.text(Slot(slot)))?;
    }
    Ok(())
}

#[tactic(auto, unfolding(crate::specs::Printing::Print::printed))]
fn text_of(alloc: Global, entry: &Entry) -> Result<Vec<u8>, AllocError>
    ensures text { IfOk result (λ text. text.items ≡ printed entry.now) }
    ensures described { IsDescription entry.now }
{
    let mut text = Vec::from_slice(alloc, entry.names())?;
    text.extend_from_slice(b",\n")?;
    push_flags(&mut text, entry)?;
    push_numbers(alloc, &mut text, entry)?;
    push_texts(&mut text, entry)?;
    Ok(text)
}
