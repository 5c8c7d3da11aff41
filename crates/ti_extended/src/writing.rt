//! Writing the section of extended capabilities.
ghost use Rattle.std.specs.Prelude.{◌≡◌, ◌≤◌, ◌+◌, ◌++◌, ◌∷◌, [], length, min, replicate, OnOk};
ghost use Rattle.std.specs.List.{flat_map};
ghost use Rattle.byteorder.specs.Endian.{little_bytes};
ghost use Rattle.ti_binary.specs.Canonical.{padding, word, words};
ghost use Rattle.ti_extended.specs.Forms.{header_of, joined, number_bytes, section_form, starts};
ghost use Rattle.ti_extended.specs.Sizes.{AreSizes};
ghost use Rattle.ti_extended.specs.Whole.{Capabilities};

use crate::capabilities::Extended;
use byteorder::{ByteOrder, LittleEndian};
use std::alloc::AllocError;
use ti_binary::{Width, put_word};
use ti_caps::Bytes;

/// Appends a 32-bit number, the lower bytes first.
pub(crate) fn put_wide(n: u32, out: &mut Vec<u8>) -> Result<(), AllocError>
    ensures { OnOk result (out.new.items ≡ out.old.items ++ little_bytes 4 n) }
{
    let mut four = [0u8; 4];
    LittleEndian::write_u32(&mut four, n);
    out.push(four[0])?;
    out.push(four[1])?;
    out.push(four[2])?;
    out.push(four[3])?;
    Ok(())
}

/// Appends the lower half of a 32-bit number, the lower byte first.
fn put_half(n: u32, out: &mut Vec<u8>) -> Result<(), AllocError>
    ensures { OnOk result (out.new.items ≡ out.old.items ++ word n) }
{
    let mut four = [0u8; 4];
    LittleEndian::write_u32(&mut four, n);
    out.push(four[0])?;
    out.push(four[1])?;
    Ok(())
}

/// Appends a number of this width.
fn put_number(width: Width, n: u32, out: &mut Vec<u8>) -> Result<(), AllocError>
    ensures { OnOk result (out.new.items ≡ out.old.items ++ number_bytes width n) }
{
    match width {
        Width::Legacy => put_half(n, out),
        Width::Wide => put_wide(n, out),
    }
}

/// Appends numbers of this width.
fn put_numbers(width: Width, numbers: &[u32], out: &mut Vec<u8>) -> Result<(), AllocError>
    ensures { OnOk result (out.new.items ≡ out.old.items ++ flat_map (number_bytes width) numbers.now) }
{
    for n in numbers {
        put_number(width, *n, out)?;
    }
    Ok(())
}

/// Appends the offset of each of these texts in a table of them.
fn put_starts(texts: &[Bytes], out: &mut Vec<u8>) -> Result<(), AllocError>
    requires { length (joined texts.now) ≤ 32768 }
    ensures { OnOk result (out.new.items ≡ out.old.items ++ words (starts 0 texts.now)) }
{
    let mut size: usize = 0;
    for text in texts {
        put_word(size as u16, out)?;
        size += text.0.len() + 1;
    }
    Ok(())
}

/// Appends texts, each with its NUL.
fn put_joined(texts: &[Bytes], out: &mut Vec<u8>) -> Result<(), AllocError>
    ensures { OnOk result (out.new.items ≡ out.old.items ++ joined texts.now) }
{
    for text in texts {
        put_ended(text, out)?;
    }
    Ok(())
}

fn put_ended(text: &[u8], out: &mut Vec<u8>) -> Result<(), AllocError>
    ensures { OnOk result (out.new.items ≡ out.old.items ++ (text.now ++ 0 ∷ [])) }
{
    out.extend_from_slice(text)?;
    out.push(0)?;
    Ok(())
}

/// What texts take with their NULs; `most` for all above.
fn joined_size(texts: &[Bytes], most: usize) -> usize
    requires { most ≤ 65536 }
    ensures { result ≡ min (length (joined texts.now)) most }
{
    let mut size: usize = 0;
    for text in texts {
        size = text.0.len().saturating_add(1 + size).min(most);
    }
    size
}

/// Appends so many flags that are present, and a byte if they are odd.
fn put_flags(count: usize, out: &mut Vec<u8>) -> Result<(), AllocError>
    ensures { OnOk result (out.new.items ≡ out.old.items ++ replicate count 1 ++ padding count) }
{
    for filled in 0..count {
        out.push(1)?;
    }
    put_odd_byte(count, out)
}

/// Appends a byte behind an odd number of bytes.
pub(crate) fn put_odd_byte(size: usize, out: &mut Vec<u8>) -> Result<(), AllocError>
    ensures { OnOk result (out.new.items ≡ out.old.items ++ padding size) }
{
    if size % 2 == 1 {
        out.push(0)?;
    }
    Ok(())
}

/// The sizes of the parts of a section.
#[derive(Clone, Copy)]
pub(crate) struct Sizes {
    /// The number of flags, of numbers and of texts.
    pub(crate) flags: usize,
    pub(crate) numbers: usize,
    pub(crate) texts: usize,
    /// The number of names.
    pub(crate) names: usize,
    /// What the texts and the names take with their NULs; 65,536 for all above.
    pub(crate) text_bytes: usize,
    pub(crate) name_bytes: usize,
}

impl Sizes {
    /// Sizes of this number of bytes and above are not distinguished.
    const MOST: usize = 65_536;

    /// The sizes for these capabilities.
    pub(crate) fn of(extended: &Extended) -> Sizes
        ensures { AreSizes extended.now result }
    {
        let names = extended.names();
        let numbers = extended.numbers().len();
        let texts = extended.texts();
        Sizes {
            flags: names.len() - numbers - texts.len(),
            numbers,
            texts: texts.len(),
            names: names.len(),
            text_bytes: joined_size(texts, Self::MOST),
            name_bytes: joined_size(names, Self::MOST),
        }
    }

    /// The number of bytes of the section; above 32,768 for any above that.
    pub(crate) fn section_size(&self, width: Width) -> usize
        requires flags { self.now.flags ≤ self.now.names }
        requires numbers { self.now.numbers ≤ self.now.names }
        requires texts { self.now.texts ≤ self.now.names }
        requires text_bytes { self.now.text_bytes ≤ 65536 }
        requires name_bytes { self.now.name_bytes ≤ 65536 }
        ensures bounded { result ≤ 300000 }
        ensures small { (e : Capabilities) → AreSizes e self.now → result ≤ 32768 → length (section_form width e) ≡ result }
        ensures large { (e : Capabilities) → AreSizes e self.now → length (section_form width e) ≤ 32768 → result ≤ 32768 }
    {
        if self.names > 16_384 {
            return Self::MOST;
        }
        let counted = 10 + self.flags + self.flags % 2 + width.size_of(self.numbers);
        counted + 2 * self.texts + 2 * self.names + self.text_bytes + self.name_bytes
    }
}

/// Appends the section of these capabilities, which is small.
pub(crate) fn put_section(
    width: Width,
    extended: &Extended,
    out: &mut Vec<u8>,
) -> Result<(), AllocError>
    requires { length (section_form width extended.now) ≤ 32768 }
    ensures { OnOk result (out.new.items ≡ out.old.items ++ section_form width extended.now) }
{
    let sizes = Sizes::of(extended);
    let (names, texts) = (extended.names(), extended.texts());
    put_header(&sizes, out)?;
    put_flags(sizes.flags, out)?;
    put_numbers(width, extended.numbers(), out)?;
    put_starts(texts, out)?;
    put_starts(names, out)?;
    put_joined(texts, out)?;
    put_joined(names, out)?;
    Ok(())
}

/// Appends the header of a section.
fn put_header(sizes: &Sizes, out: &mut Vec<u8>) -> Result<(), AllocError>
    requires names { sizes.now.names ≤ 16384 }
    requires flags { sizes.now.flags ≤ sizes.now.names }
    requires numbers { sizes.now.numbers ≤ sizes.now.names }
    requires texts { sizes.now.texts ≤ sizes.now.names }
    requires bytes { sizes.now.text_bytes + sizes.now.name_bytes ≤ 32768 }
    ensures { OnOk result (out.new.items ≡ out.old.items ++ words (sizes.now.flags ∷ sizes.now.numbers ∷ sizes.now.texts ∷ (sizes.now.texts + sizes.now.names) ∷ (sizes.now.text_bytes + sizes.now.name_bytes) ∷ [])) }
{
    put_word(sizes.flags as u16, out)?;
    put_word(sizes.numbers as u16, out)?;
    put_word(sizes.texts as u16, out)?;
    put_word((sizes.texts + sizes.names) as u16, out)?;
    put_word((sizes.text_bytes + sizes.name_bytes) as u16, out)
}
