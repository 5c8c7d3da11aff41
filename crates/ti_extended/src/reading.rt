//! Reading the section of extended capabilities.
ghost use Rattle.std.specs.Prelude.{◌≡◌, ◌≤◌, ◌+◌, ◌*◌, ◌⊎◌, ◌++◌, ◌∷◌, [], false, true, is_some, length, map, option_map, IfOk, IfErr, OnErr, OnOk};
ghost use Rattle.std.specs.List.{list_any};
ghost use Rattle.std.specs.Option.{option_to_list};
ghost use Rattle.ti_binary.specs.Canonical.{ended, table_of};
ghost use Rattle.ti_binary.specs.Files.{flag_said, is_unended, numbers_in, numbers_size, text_said, words_in};
ghost use Rattle.ti_extended.specs.Sections.{capabilities_in, is_sound_or_empty, is_unnamed, kept, name_said, name_table, present, whole_said};
ghost use Rattle.ti_extended.specs.Whole.{are_capabilities};

use crate::capabilities::Extended;
use crate::faults::WholeFault;
use crate::sections::{SectionParts, any_unended, any_unnamed, check_room, cut};
use crate::words::{name_said, whole_said};
use std::alloc::{AllocError, Global};
use ti_binary::{Width, rest_from, text_said, word};
use ti_caps::Bytes;

/// The extended capabilities of a section, which may be empty.
///
/// Refused with `Truncated`, `Trailing`, `BadText` and `BadOffset`, then as by `Extended::new`;
/// with `NoMemory` if memory runs out.
pub(crate) fn capabilities_in(
    alloc: Global,
    width: Width,
    section: &[u8],
) -> Result<Extended, WholeFault>
    requires short { length section.now ≤ 32768 }
    ensures ok { IfOk result (λ e. e ≡ capabilities_in width section.now) }
    ensures sound { OnOk result (is_sound_or_empty width section.now ≡ true) }
    ensures good { IfOk result (λ e. are_capabilities e ≡ true) }
    ensures err { IfErr result (λ f. (f ≡ WholeFault.NoMemory) ⊎ ((is_sound_or_empty width section.now ≡ false) ⊎ (are_capabilities (capabilities_in width section.now) ≡ false))) }
{
    if section.is_empty() {
        return Ok(Extended::none(alloc));
    }
    check_room(width, section)?;
    let parts = cut(width, section);
    let names = names_in(&parts)?;
    let found = found_in(alloc, width, &parts, names)?;
    Extended::new(found.names, found.numbers, found.texts)
}

/// The names in the string table, if each text and each name ends there.
fn names_in<'a>(parts: &SectionParts<'a>) -> Result<&'a [u8], WholeFault>
    requires texts { 2 * parts.now.text_count ≤ length parts.now.texts.now }
    requires names { 2 * parts.now.name_count ≤ length parts.now.names.now }
    requires few { parts.now.text_count ≤ 16384 }
    requires small { length parts.now.table.now ≤ 32768 }
    ensures value { IfOk result (λ names. names.now ≡ name_table parts.entry.now.table.now (map (text_said parts.entry.now.table.now) (words_in parts.entry.now.texts.now parts.entry.now.text_count))) }
    ensures texts { OnOk result (list_any (is_unended parts.entry.now.table.now) (words_in parts.entry.now.texts.now parts.entry.now.text_count) ≡ false) }
    ensures names { IfOk result (λ names. list_any (is_unnamed names.now) (words_in parts.entry.now.names.now parts.entry.now.name_count) ≡ false) }
    ensures err { OnErr result ((list_any (is_unended parts.entry.now.table.now) (words_in parts.entry.now.texts.now parts.entry.now.text_count) ≡ true)
        ⊎ (list_any (is_unnamed (name_table parts.entry.now.table.now (map (text_said parts.entry.now.table.now) (words_in parts.entry.now.texts.now parts.entry.now.text_count)))) (words_in parts.entry.now.names.now parts.entry.now.name_count) ≡ true)) }
    ensures memory { IfErr result (λ f. f ≡ WholeFault.NoMemory → false ≡ true) }
{
    if any_unended(parts.table, parts.texts, parts.text_count) {
        return Err(WholeFault::BadText);
    }
    let size = values_size(parts.table, parts.texts, parts.text_count);
    let names = rest_from(parts.table, size);
    if any_unnamed(names, parts.names, parts.name_count) {
        return Err(WholeFault::BadOffset);
    }
    Ok(names)
}

/// What the texts at the first `count` offsets and their NULs take in the table.
fn values_size(table: &[u8], offsets: &[u8], count: usize) -> usize
    requires few { count ≤ 16384 }
    requires room { 2 * count ≤ length offsets.now }
    requires small { length table.now ≤ 32768 }
    ensures { result ≡ length (table_of (map (text_said table.now) (words_in offsets.now count))) }
{
    let mut size = 0;
    for i in 0..count {
        size += ended_size(table, word(offsets, 2 * i));
    }
    size
}

/// What the text at an offset and its NUL take.
fn ended_size(table: &[u8], offset: u16) -> usize
    requires { length table.now ≤ 32768 }
    ensures value { result ≡ length (ended (text_said table.now offset)) }
    ensures small { result ≤ 32769 }
{
    match text_said(table, offset) {
        Some(text) => text.len() + 1,
        None => 0,
    }
}

/// Names and values that were found in a section.
#[derive(Drop)]
struct Found {
    names: Vec<Bytes>,
    numbers: Vec<u32>,
    texts: Vec<Bytes>,
}

/// What these parts say.
fn found_in(
    alloc: Global,
    width: Width,
    parts: &SectionParts<'_>,
    names: &[u8],
) -> Result<Found, AllocError>
    requires numbers { numbers_size width parts.now.number_count ≤ length parts.now.numbers.now }
    requires texts { 2 * parts.now.text_count ≤ length parts.now.texts.now }
    requires names { 2 * parts.now.name_count ≤ length parts.now.names.now }
    requires counts { length parts.now.flags.now + parts.now.number_count + parts.now.text_count ≡ parts.now.name_count }
    requires few { parts.now.name_count ≤ 16384 }
    ensures names { IfOk result (λ f. f.names.items ≡ kept
        (map flag_said parts.now.flags.now ++ (map is_some (map (whole_said width) (numbers_in width parts.now.numbers.now parts.now.number_count)) ++ map is_some (map (text_said parts.now.table.now) (words_in parts.now.texts.now parts.now.text_count))))
        (map (name_said names.now) (words_in parts.now.names.now parts.now.name_count))) }
    ensures numbers { IfOk result (λ f. f.numbers.items ≡ present (map (whole_said width) (numbers_in width parts.now.numbers.now parts.now.number_count))) }
    ensures texts { IfOk result (λ f. f.texts.items ≡ present (map (text_said parts.now.table.now) (words_in parts.now.texts.now parts.now.text_count))) }
{
    let mut there = Vec::new(alloc);
    add_flags(parts.flags, &mut there)?;
    let numbers = numbers_in(alloc, width, parts.numbers, parts.number_count, &mut there)?;
    let texts = texts_in(
        alloc,
        parts.table,
        parts.texts,
        parts.text_count,
        &mut there,
    )?;
    let names = kept_names(alloc, &there, names, parts.names)?;
    Ok(Found {
        names,
        numbers,
        texts,
    })
}

/// Adds whether each flag is present.
fn add_flags(flags: &[u8], there: &mut Vec<bool>) -> Result<(), AllocError>
    ensures { OnOk result (there.new.items ≡ there.old.items ++ map flag_said flags.now) }
{
    for byte in flags {
        there.push(*byte == 1)?;
    }
    Ok(())
}

/// The numbers that are present; adds whether each is.
fn numbers_in(
    alloc: Global,
    width: Width,
    section: &[u8],
    count: usize,
    there: &mut Vec<bool>,
) -> Result<Vec<u32>, AllocError>
    requires few { count ≤ 16384 }
    requires room { numbers_size width count ≤ length section.now }
    ensures there { OnOk result (there.new.items ≡ there.old.items ++ map is_some (map (whole_said width) (numbers_in width section.now count))) }
    ensures value { IfOk result (λ v. v.items ≡ present (map (whole_said width) (numbers_in width section.now count))) }
{
    let mut numbers = Vec::new(alloc);
    for i in 0..count {
        let said = whole_said(width, width.number(section, i));
        there.push(said.is_some())?;
        put_present(said, &mut numbers)?;
    }
    Ok(numbers)
}

fn put_present(number: Option<u32>, numbers: &mut Vec<u32>) -> Result<(), AllocError>
    ensures { OnOk result (numbers.new.items ≡ numbers.old.items ++ option_to_list number) }
{
    if let Some(number) = number {
        numbers.push(number)?;
    }
    Ok(())
}

/// The texts that are present; adds whether each is.
fn texts_in(
    alloc: Global,
    table: &[u8],
    offsets: &[u8],
    count: usize,
    there: &mut Vec<bool>,
) -> Result<Vec<Bytes>, AllocError>
    requires { 2 * count ≤ length offsets.now }
    ensures there { OnOk result (there.new.items ≡ there.old.items ++ map is_some (map (text_said table.now) (words_in offsets.now count))) }
    ensures value { IfOk result (λ v. v.items ≡ present (map (text_said table.now) (words_in offsets.now count))) }
{
    let mut texts = Vec::new(alloc);
    for i in 0..count {
        let said = text_said(table, word(offsets, 2 * i));
        there.push(said.is_some())?;
        put_text(alloc, said, &mut texts)?;
    }
    Ok(texts)
}

fn put_text(alloc: Global, text: Option<&[u8]>, texts: &mut Vec<Bytes>) -> Result<(), AllocError>
    ensures { OnOk result (texts.new.items ≡ texts.old.items ++ option_to_list (option_map (λ t. t.now) text.entry)) }
{
    if let Some(text) = text {
        texts.push(Bytes(Vec::from_slice(alloc, text)?))?;
    }
    Ok(())
}

/// The names at these offsets whose capability is there.
fn kept_names(
    alloc: Global,
    there: &[bool],
    names: &[u8],
    offsets: &[u8],
) -> Result<Vec<Bytes>, AllocError>
    requires { 2 * length there.now ≤ length offsets.now }
    ensures { IfOk result (λ v. v.items ≡ kept there.now (map (name_said names.now) (words_in offsets.now (length there.now)))) }
{
    let mut kept = Vec::new(alloc);
    for (i, present) in there.iter().enumerate() {
        let name = name_said(names, word(offsets, 2 * i));
        put_name(alloc, *present, name, &mut kept)?;
    }
    Ok(kept)
}

fn put_name(
    alloc: Global,
    present: bool,
    name: &[u8],
    names: &mut Vec<Bytes>,
) -> Result<(), AllocError>
    ensures { OnOk result (names.new.items ≡ names.old.items ++ kept (present ∷ []) (name.now ∷ [])) }
{
    if present {
        names.push(Bytes(Vec::from_slice(alloc, name)?))?;
    }
    Ok(())
}
