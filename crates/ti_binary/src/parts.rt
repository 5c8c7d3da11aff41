//! The header of a compiled file, and the places of its sections.
ghost use Rattle.std.specs.Prelude.{◌≡◌, ◌≤◌, ◌+◌, ◌*◌, length, drop, IfErr, IsErrOf, OnOk, None, Some};
ghost use Rattle.ti_binary.specs.Files.{end_place, flags_of, flags_place, header_refusal, magic_of, names_of, numbers_of, numbers_place, numbers_size, offsets_of, offsets_place, part, room_refusal, table_of, table_place, word_at};
ghost use Rattle.ti_binary.specs.Shapes.{HasRoom};

use crate::faults::BinFault;
use crate::widths::Width;
use byteorder::{ByteOrder, LittleEndian};
use ti_caps::{MOST_FLAGS, MOST_NUMBER, MOST_NUMBERS, MOST_TEXTS};

/// The most bytes that are read as a file.
const MOST_BYTES: usize = 32_768;

/// The 16-bit number at an offset, the lower byte first.
pub fn word(bytes: &[u8], offset: usize) -> u16
    requires { offset + 2 ≤ length bytes.now }
    ensures { result ≡ word_at bytes.now offset }
{
    LittleEndian::read_u16(&bytes[offset..])
}

/// Refuses bytes that are too many, have another magic number, or end inside the header.
pub(crate) fn check_header(width: Width, bytes: &[u8]) -> Result<(), BinFault>
    ensures refused { IfErr result (λ fault. header_refusal width bytes.now ≡ Some fault) }
    ensures plain { IsErrOf result BinFault.NoMemory → ⊥ }
    ensures good { OnOk result (header_refusal width bytes.now ≡ None) }
    ensures room { OnOk result (12 ≤ length bytes.now) }
    ensures short { OnOk result (length bytes.now ≤ 32768) }
    ensures magic { OnOk result (word_at bytes.now 0 ≡ magic_of width) }
{
    if bytes.len() > MOST_BYTES {
        return Err(BinFault::TooLarge);
    }
    if bytes.len() < 2 {
        return Err(BinFault::Truncated);
    }
    let found = word(bytes, 0);
    if found != width.magic() {
        return Err(width.wrong_magic(found));
    }
    if bytes.len() < 12 {
        return Err(BinFault::Truncated);
    }
    Ok(())
}

/// The sections of a file, after its header.
#[derive(Clone, Copy)]
pub(crate) struct FileSections<'a> {
    /// The names, and what follows their NUL in the section.
    pub(crate) names: &'a [u8],
    /// One byte for each flag.
    pub(crate) flags: &'a [u8],
    /// The number of numbers, and two or four bytes for each.
    pub(crate) number_count: u16,
    pub(crate) numbers: &'a [u8],
    /// The number of offsets of texts, and two bytes for each.
    pub(crate) offset_count: u16,
    pub(crate) offsets: &'a [u8],
    /// The string table.
    pub(crate) table: &'a [u8],
    /// The number of bytes that follow the string table.
    pub(crate) rest: usize,
}

/// Refuses a header with a number that is negative or too great (`BadCount`), and bytes that end
/// before the sections do (`Truncated`).
pub(crate) fn check_room(width: Width, bytes: &[u8]) -> Result<(), BinFault>
    requires room { 12 ≤ length bytes.now }
    requires short { length bytes.now ≤ 32768 }
    ensures refused { IfErr result (λ fault. room_refusal width bytes.now ≡ Some fault) }
    ensures plain { IsErrOf result BinFault.NoMemory → ⊥ }
    ensures good { OnOk result (room_refusal width bytes.now ≡ None) }
    ensures fits { OnOk result (HasRoom width bytes.now) }
{
    let (names, flags) = (word(bytes, 2), word(bytes, 4));
    let (numbers, offsets, table) = (word(bytes, 6), word(bytes, 8), word(bytes, 10));
    if names == 0 || names > MOST_NUMBER || table > MOST_NUMBER {
        return Err(BinFault::BadCount);
    }
    if flags > MOST_FLAGS as u16 || numbers > MOST_NUMBERS as u16 || offsets > MOST_TEXTS as u16 {
        return Err(BinFault::BadCount);
    }
    let (names, flags, table) = (usize::from(names), usize::from(flags), usize::from(table));
    let front = 12 + names + flags + (names + flags) % 2;
    if bytes.len()
        < front + width.size_of(usize::from(numbers)) + 2 * usize::from(offsets) + table
    {
        return Err(BinFault::Truncated);
    }
    Ok(())
}

/// Divides a file into sections, by the numbers of its header.
pub(crate) fn cut(width: Width, bytes: &[u8]) -> FileSections<'_>
    requires room { 12 ≤ length bytes.now }
    requires short { length bytes.now ≤ 32768 }
    requires fits { HasRoom width bytes.now }
    ensures names { result.names.now ≡ part bytes.now 12 (names_of bytes.now) }
    ensures flags { result.flags.now ≡ part bytes.now (flags_place bytes.now) (flags_of bytes.now) }
    ensures numbers { result.numbers.now ≡ part bytes.now (numbers_place bytes.now) (numbers_size width (numbers_of bytes.now)) }
    ensures offsets { result.offsets.now ≡ part bytes.now (offsets_place width bytes.now) (2 * offsets_of bytes.now) }
    ensures number_count { (result.number_count ≡ numbers_of bytes.now) × (length result.numbers.now ≡ numbers_size width result.number_count) × (result.number_count ≤ 64) }
    ensures offset_count { (result.offset_count ≡ offsets_of bytes.now) × (length result.offsets.now ≡ 2 * result.offset_count) × (result.offset_count ≤ 512) }
    ensures flag_count { length result.flags.now ≤ 64 }
    ensures table { result.table.now ≡ part bytes.now (table_place width bytes.now) (table_of bytes.now) }
    ensures rest { result.rest ≡ length (drop (end_place width bytes.now) bytes.now) }
{
    let (names, flags) = (usize::from(word(bytes, 2)), usize::from(word(bytes, 4)));
    let (numbers, offsets, table) = (word(bytes, 6), word(bytes, 8), word(bytes, 10));
    let flags_place = 12 + names;
    let numbers_place = flags_place + flags + (names + flags) % 2;
    let offsets_place = numbers_place + width.size_of(usize::from(numbers));
    let table_place = offsets_place + 2 * usize::from(offsets);
    let end = table_place + usize::from(table);
    FileSections {
        names: &bytes[12..flags_place],
        flags: &bytes[flags_place..flags_place + flags],
        number_count: numbers,
        numbers: &bytes[numbers_place..offsets_place],
        offset_count: offsets,
        offsets: &bytes[offsets_place..table_place],
        table: &bytes[table_place..end],
        rest: bytes.len() - end,
    }
}
