//! The section of extended capabilities in a compiled file: its header, and the places of its
//! parts.
ghost use Rattle.std.specs.Prelude.{◌≡◌, ◌≤◌, ◌+◌, ◌*◌, ◌==◌, ◌⊎◌, true, false, length, drop, min, OnOk, OnErr};
ghost use Rattle.std.specs.List.{list_any};
ghost use Rattle.ti_binary.specs.Canonical.{table_of};
ghost use Rattle.ti_binary.specs.Files.{is_unended, numbers_size, part, text_said, words_in};
ghost use Rattle.ti_extended.specs.Sections.{end_place, flag_count, is_sound, is_unnamed, name_count, names_place, number_count, numbers_place, table_place, table_size, text_count, texts_place};

use crate::faults::WholeFault;
use crate::words::{is_unended, is_unnamed};
use ti_binary::{Width, word};

/// The number of bytes of the header.
const HEADER: usize = 10;

/// The parts of a section, after its header.
#[derive(Clone, Copy)]
pub(crate) struct SectionParts<'a> {
    /// One byte for each flag.
    pub(crate) flags: &'a [u8],
    /// The number of numbers, and two or four bytes for each.
    pub(crate) number_count: usize,
    pub(crate) numbers: &'a [u8],
    /// The number of texts, and the offset of each.
    pub(crate) text_count: usize,
    pub(crate) texts: &'a [u8],
    /// The number of names, and the offset of each.
    pub(crate) name_count: usize,
    pub(crate) names: &'a [u8],
    /// The string table.
    pub(crate) table: &'a [u8],
}

/// Where the parts of a section begin, by its header.
#[derive(Clone, Copy)]
pub(crate) struct Places {
    pub(crate) numbers: usize,
    pub(crate) texts: usize,
    pub(crate) names: usize,
    pub(crate) table: usize,
    pub(crate) end: usize,
}

/// The places by the header of a section.
pub(crate) fn places_of(width: Width, section: &[u8]) -> Places
    requires { 10 ≤ length section.now }
    ensures numbers { result.numbers ≡ numbers_place section.now }
    ensures texts { result.texts ≡ texts_place width section.now }
    ensures names { result.names ≡ names_place width section.now }
    ensures table { result.table ≡ table_place width section.now }
    ensures end { result.end ≡ end_place width section.now }
{
    let flags = usize::from(word(section, 0));
    let count = usize::from(word(section, 2));
    let texts_count = usize::from(word(section, 4));
    let numbers = HEADER + flags + flags % 2;
    let texts = numbers + width.size_of(count);
    let names = texts + 2 * texts_count;
    let table = names + 2 * (flags + count + texts_count);
    let end = table + usize::from(word(section, 8));
    Places {
        numbers,
        texts,
        names,
        table,
        end,
    }
}

/// Refuses a section that ends inside its header, or is not as long as its header says.
pub(crate) fn check_room(width: Width, section: &[u8]) -> Result<(), WholeFault>
    ensures header { OnOk result (10 ≤ length section.now) }
    ensures room { OnOk result (end_place width section.now ≡ length section.now) }
    ensures err { OnErr result (is_sound width section.now ≡ false) }
{
    if section.len() < HEADER {
        return Err(WholeFault::Truncated);
    }
    let end = places_of(width, section).end;
    if section.len() < end {
        return Err(WholeFault::Truncated);
    }
    if section.len() > end {
        return Err(WholeFault::Trailing);
    }
    Ok(())
}

/// Divides a section into its parts.
pub(crate) fn cut(width: Width, section: &[u8]) -> SectionParts<'_>
    requires header { 10 ≤ length section.now }
    requires room { end_place width section.now ≡ length section.now }
    requires short { length section.now ≤ 32768 }
    ensures flags { result.flags.now ≡ part section.now 10 (flag_count section.now) }
    ensures numbers { result.numbers.now ≡ part section.now (numbers_place section.now) (numbers_size width (number_count section.now)) }
    ensures texts { result.texts.now ≡ part section.now (texts_place width section.now) (2 * text_count section.now) }
    ensures names { result.names.now ≡ part section.now (names_place width section.now) (2 * name_count section.now) }
    ensures table { result.table.now ≡ part section.now (table_place width section.now) (table_size section.now) }
    ensures number_count { (result.number_count ≡ number_count section.now) × (length result.numbers.now ≡ numbers_size width result.number_count) × (result.number_count ≤ 16384) }
    ensures text_count { (result.text_count ≡ text_count section.now) × (length result.texts.now ≡ 2 * result.text_count) × (result.text_count ≤ 16384) }
    ensures name_count { (result.name_count ≡ name_count section.now) × (length result.names.now ≡ 2 * result.name_count) × (result.name_count ≤ 16384) }
    ensures flag_count { length result.flags.now + result.number_count + result.text_count ≡ result.name_count }
    ensures small { length result.table.now ≤ 32768 }
{
    let at = places_of(width, section);
    let flags = usize::from(word(section, 0));
    let number_count = usize::from(word(section, 2));
    let text_count = usize::from(word(section, 4));
    SectionParts {
        flags: &section[HEADER..HEADER + flags],
        number_count,
        numbers: &section[at.numbers..at.texts],
        text_count,
        texts: &section[at.texts..at.names],
        name_count: flags + number_count + text_count,
        names: &section[at.names..at.table],
        table: &section[at.table..at.end],
    }
}

/// Whether the text at any of the first `count` offsets is not ended by a NUL in the table.
pub(crate) fn any_unended(table: &[u8], offsets: &[u8], count: usize) -> bool
    requires { 2 * count ≤ length offsets.now }
    ensures { result ≡ list_any (is_unended table.now) (words_in offsets.now count) }
{
    let mut found = false;
    for i in 0..count {
        found |= is_unended(table, word(offsets, 2 * i));
    }
    found
}

/// Whether any of the first `count` offsets has no name in the table.
pub(crate) fn any_unnamed(names: &[u8], offsets: &[u8], count: usize) -> bool
    requires { 2 * count ≤ length offsets.now }
    ensures { result ≡ list_any (is_unnamed names.now) (words_in offsets.now count) }
{
    let mut found = false;
    for i in 0..count {
        found |= is_unnamed(names, word(offsets, 2 * i));
    }
    found
}
