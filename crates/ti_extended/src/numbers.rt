//! The whole numbers of a compiled file, by position.
ghost use Rattle.std.specs.Prelude.{◌≡◌, ◌≤◌, ◌+◌, ◌++◌, true, length, map, replicate, IfOk, OnOk, None};
ghost use Rattle.std.specs.List.{list_all};
ghost use Rattle.ti_binary.specs.Files.{end_place, numbers_in, numbers_of, numbers_place, numbers_size, offsets_place, padded, part};
ghost use Rattle.ti_extended.specs.Sections.{whole_said};
ghost use Rattle.ti_extended.specs.Whole.{is_small_number};

use crate::words::whole_said;
use std::alloc::{AllocError, Global};
use ti_binary::{Width, word};
use ti_caps::MOST_NUMBERS;

/// The whole numbers of a compiled file, by position.
pub(crate) fn whole_numbers(
    alloc: Global,
    width: Width,
    bytes: &[u8],
) -> Result<Vec<Option<u32>>, AllocError>
    requires header { 12 ≤ length bytes.now }
    requires few { numbers_of bytes.now ≤ 64 }
    requires room { offsets_place width bytes.now ≤ length bytes.now }
    ensures value { IfOk result (λ v. v.items ≡ padded 64 None (map (whole_said width) (numbers_in width (part bytes.now (numbers_place bytes.now) (numbers_size width (numbers_of bytes.now))) (numbers_of bytes.now)))) }
    ensures small { IfOk result (λ v. list_all is_small_number v.items ≡ true) }
{
    let count = usize::from(word(bytes, 6));
    let section = numbers_section(width, bytes);
    let mut numbers = Vec::with_capacity(alloc, MOST_NUMBERS)?;
    add_numbers(width, section, count, &mut numbers)?;
    add_absent(MOST_NUMBERS - count, &mut numbers)?;
    Ok(numbers)
}

/// The section of numbers of a compiled file.
fn numbers_section(width: Width, bytes: &[u8]) -> &[u8]
    requires header { 12 ≤ length bytes.now }
    requires few { numbers_of bytes.now ≤ 64 }
    requires room { offsets_place width bytes.now ≤ length bytes.now }
    ensures value { result.now ≡ part bytes.now (numbers_place bytes.now) (numbers_size width (numbers_of bytes.now)) }
    ensures size { length result.now ≡ numbers_size width (numbers_of bytes.now) }
{
    let (names, flags) = (usize::from(word(bytes, 2)), usize::from(word(bytes, 4)));
    let place = 12 + names + flags + (names + flags) % 2;
    &bytes[place..place + width.size_of(usize::from(word(bytes, 6)))]
}

fn add_numbers(
    width: Width,
    section: &[u8],
    count: usize,
    numbers: &mut Vec<Option<u32>>,
) -> Result<(), AllocError>
    requires few { count ≤ 64 }
    requires room { numbers_size width count ≤ length section.now }
    requires small { list_all is_small_number numbers.old.items ≡ true }
    ensures value { OnOk result (numbers.new.items ≡ numbers.old.items ++ map (whole_said width) (numbers_in width section.now count)) }
    ensures small { OnOk result (list_all is_small_number numbers.new.items ≡ true) }
{
    for i in 0..count {
        numbers.push(whole_said(width, width.number(section, i)))?;
    }
    Ok(())
}

fn add_absent(count: usize, numbers: &mut Vec<Option<u32>>) -> Result<(), AllocError>
    requires small { list_all is_small_number numbers.old.items ≡ true }
    ensures value { OnOk result (numbers.new.items ≡ numbers.old.items ++ replicate count None) }
    ensures small { OnOk result (list_all is_small_number numbers.new.items ≡ true) }
{
    for filled in 0..count {
        numbers.push(None)?;
    }
    Ok(())
}
