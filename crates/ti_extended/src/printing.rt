//! Printing a whole entry as source text.
ghost use Rattle.std.specs.Prelude.{◌≡◌, ◌≤◌, ◌&&◌, ◌++◌, ◌∷◌, [], Some, is_none, is_some, option_map, IfOk, length, OnOk, if◌then◌else◌};
ghost use Rattle.std.specs.List.{flat_map};
ghost use Rattle.ti_caps.specs.Description.{IsDescription, text_at};
ghost use Rattle.ti_caps.specs.Standard.{standard_name_at};
ghost use Rattle.ti_source.specs.Printing.Print.{field_line, lines_from};
ghost use Rattle.ti_extended.specs.Printed.{flag_line, nameless, nameless_from, number_line, number_lines, number_value, own_line, own_lines, text_line, text_lines, text_value, whole_printed};

use crate::capabilities::Extended;
use crate::escapes::put_escaped;
use crate::whole_entry::WholeEntry;
use std::alloc::{AllocError, Global};
use ti_caps::standard::name_of;
use ti_caps::{Bytes, Entry, Kind, Slot};

/// A whole entry as source text.
#[derive(Debug, Drop)]
pub struct WholePrinted {
    /// The names, and a line for each present capability that has a name.
    pub text: Bytes,
    /// The number of present capabilities without a name in term.h, which are left out.
    pub unnamed: usize,
}

/// Prints a whole entry as source text (infocmp(1)): its names, then a line for each capability of
/// term.h, flags first, then numbers and texts, each in the order of positions, and then in the same
/// way one for each extended capability. Fails only when memory runs out.
pub fn print_whole(alloc: Global, whole: &WholeEntry) -> Result<WholePrinted, AllocError>
    ensures text { IfOk result (λ p. p.text ≡ whole_printed whole.now) }
    ensures unnamed { IfOk result (λ p. p.unnamed ≡ nameless whole.now) }
{
    let text = Bytes(text_of(alloc, whole)?);
    let unnamed = unnamed(whole);
    Ok(WholePrinted { text, unnamed })
}

#[tactic(auto, unfolding(crate::specs::Printed::whole_printed))]
fn text_of(alloc: Global, whole: &WholeEntry) -> Result<Vec<u8>, AllocError>
    ensures { IfOk result (λ text. text.items ≡ whole_printed whole.now) }
{
    let entry = whole.entry();
    let mut text = Vec::from_slice(alloc, entry.names())?;
    text.extend_from_slice(b",\n")?;
    put_flags(entry, &mut text)?;
    put_numbers(alloc, whole.numbers(), &mut text)?;
    put_texts(entry, &mut text)?;
    put_extended(alloc, whole.extended(), &mut text)?;
    Ok(text)
}

fn put_flags(entry: &Entry, out: &mut Vec<u8>) -> Result<(), AllocError>
    requires { IsDescription entry.now }
    ensures { OnOk result (out.new.items ≡ out.old.items ++ lines_from flag_line 0 entry.now.flags) }
{
    for slot in 0..64u16 {
        put_flag_at(slot, entry.flag(Slot(slot)), out)?;
    }
    Ok(())
}

fn put_flag_at(slot: u16, present: bool, out: &mut Vec<u8>) -> Result<(), AllocError>
    ensures { OnOk result (out.new.items ≡ out.old.items ++ flag_line slot present) }
{
    if !present {
        return Ok(());
    }
    let Some(name) = name_of(Kind::Flag, Slot(slot)) else {
        return Ok(());
    };
    put_flag(name.as_bytes(), out)
}

fn put_numbers(alloc: Global, numbers: &[Option<u32>], out: &mut Vec<u8>) -> Result<(), AllocError>
    requires { length numbers.now ≡ 64 }
    ensures { OnOk result (out.new.items ≡ out.old.items ++ lines_from number_line 0 numbers.now) }
{
    for slot in 0..64u16 {
        put_number_at(alloc, slot, numbers[usize::from(slot)], out)?;
    }
    Ok(())
}

fn put_number_at(
    alloc: Global,
    slot: u16,
    number: Option<u32>,
    out: &mut Vec<u8>,
) -> Result<(), AllocError>
    ensures { OnOk result (out.new.items ≡ out.old.items ++ number_line slot number) }
{
    let Some(number) = number else {
        return Ok(());
    };
    let Some(name) = name_of(Kind::Number, Slot(slot)) else {
        return Ok(());
    };
    put_number(alloc, name.as_bytes(), number, out)
}

fn put_texts(entry: &Entry, out: &mut Vec<u8>) -> Result<(), AllocError>
    requires { IsDescription entry.now }
    ensures { OnOk result (out.new.items ≡ out.old.items ++ lines_from text_line 0 entry.now.texts) }
{
    for slot in 0..512u16 {
        put_text_at(slot, entry.text(Slot(slot)), out)?;
    }
    Ok(())
}

fn put_text_at(slot: u16, text: Option<&[u8]>, out: &mut Vec<u8>) -> Result<(), AllocError>
    ensures { OnOk result (out.new.items ≡ out.old.items ++ text_line slot (option_map (λ t. t.now) text.entry)) }
{
    let Some(text) = text else {
        return Ok(());
    };
    let Some(name) = name_of(Kind::Text, Slot(slot)) else {
        return Ok(());
    };
    put_text(name.as_bytes(), text, out)
}

fn put_extended(alloc: Global, extended: &Extended, out: &mut Vec<u8>) -> Result<(), AllocError>
    ensures { OnOk result (out.new.items ≡ out.old.items ++ own_lines extended.now) }
{
    let names = extended.names();
    let numbers = extended.numbers();
    let texts = extended.texts();
    let flags = names.len() - numbers.len() - texts.len();
    let (of_flags, more) = names.split_at(flags);
    let (of_numbers, of_texts) = more.split_at(numbers.len());
    put_own_flags(of_flags, out)?;
    put_own_numbers(alloc, of_numbers, numbers, out)?;
    put_own_texts(of_texts, texts, out)
}

fn put_own_flags(names: &[Bytes], out: &mut Vec<u8>) -> Result<(), AllocError>
    ensures { OnOk result (out.new.items ≡ out.old.items ++ flat_map own_line names.now) }
{
    for name in names {
        put_flag(name, out)?;
    }
    Ok(())
}

fn put_own_numbers(
    alloc: Global,
    names: &[Bytes],
    numbers: &[u32],
    out: &mut Vec<u8>,
) -> Result<(), AllocError>
    requires { length names.now ≡ length numbers.now }
    ensures { OnOk result (out.new.items ≡ out.old.items ++ number_lines names.now numbers.now) }
{
    for i in 0..numbers.len() {
        put_number(alloc, &names[i], numbers[i], out)?;
    }
    Ok(())
}

fn put_own_texts(names: &[Bytes], texts: &[Bytes], out: &mut Vec<u8>) -> Result<(), AllocError>
    requires { length names.now ≡ length texts.now }
    ensures { OnOk result (out.new.items ≡ out.old.items ++ text_lines names.now texts.now) }
{
    for i in 0..texts.len() {
        put_text(&names[i], &texts[i], out)?;
    }
    Ok(())
}

fn put_flag(name: &[u8], out: &mut Vec<u8>) -> Result<(), AllocError>
    ensures { OnOk result (out.new.items ≡ out.old.items ++ field_line (Some name.now) []) }
{
    out.push(b'\t')?;
    out.extend_from_slice(name)?;
    out.extend_from_slice(b",\n")
}

fn put_number(alloc: Global, name: &[u8], number: u32, out: &mut Vec<u8>) -> Result<(), AllocError>
    ensures { OnOk result (out.new.items ≡ out.old.items ++ field_line (Some name.now) (number_value number)) }
{
    let digits = number.to_string(alloc)?;
    out.push(b'\t')?;
    out.extend_from_slice(name)?;
    out.push(b'#')?;
    out.extend_from_slice(digits.as_bytes())?;
    out.extend_from_slice(b",\n")
}

fn put_text(name: &[u8], text: &[u8], out: &mut Vec<u8>) -> Result<(), AllocError>
    ensures { OnOk result (out.new.items ≡ out.old.items ++ field_line (Some name.now) (text_value text.now)) }
{
    out.push(b'\t')?;
    out.extend_from_slice(name)?;
    out.push(b'=')?;
    put_escaped(text, out)?;
    out.extend_from_slice(b",\n")
}

// The number of present capabilities without a name in term.h.
fn unnamed(whole: &WholeEntry) -> usize
    ensures { result ≡ nameless whole.now }
{
    let entry = whole.entry();
    let _own = entry.names();
    unnamed_flags(entry) + unnamed_numbers(whole.numbers()) + unnamed_texts(entry)
}

fn unnamed_flags(entry: &Entry) -> usize
    requires { IsDescription entry.now }
    ensures value { result ≡ nameless_from (λ there. there) Kind.Flag 0 entry.now.flags }
    ensures few { result ≤ 64 }
{
    let mut count = 0;
    for slot in 0..64u16 {
        count += unnamed_at(Kind::Flag, slot, entry.flag(Slot(slot)));
    }
    count
}

fn unnamed_numbers(numbers: &[Option<u32>]) -> usize
    requires { length numbers.now ≡ 64 }
    ensures value { result ≡ nameless_from is_some Kind.Number 0 numbers.now }
    ensures few { result ≤ 64 }
{
    let mut count = 0;
    for slot in 0..64u16 {
        count += unnamed_at(Kind::Number, slot, numbers[usize::from(slot)].is_some());
    }
    count
}

fn unnamed_texts(entry: &Entry) -> usize
    requires { IsDescription entry.now }
    ensures value { result ≡ nameless_from is_some Kind.Text 0 entry.now.texts }
    ensures few { result ≤ 512 }
{
    let mut count = 0;
    for slot in 0..512u16 {
        count += unnamed_at(Kind::Text, slot, has_text(entry, slot));
    }
    count
}

fn has_text(entry: &Entry, slot: u16) -> bool
    ensures { result ≡ is_some (text_at entry.now slot) }
{
    entry.text(Slot(slot)).is_some()
}

// 1 for a capability that is there without a name, else 0.
fn unnamed_at(kind: Kind, slot: u16, there: bool) -> usize
    ensures value { result ≡ (if there && is_none (standard_name_at kind slot) then 1 else 0) }
    ensures small { result ≤ 1 }
{
    usize::from(there && name_of(kind, Slot(slot)).is_none())
}
