//! How many bytes characters have: one each where the terminal has ASCII alone, and one to three in UTF-8 (RFC 3629).

use crate::scenes::Scene;
use scr_cells::{Cell, Look, look_numbers};
use std::simd::prelude::*;

impl Scene<'_> {
    // How many bytes the characters have that are seen in a row from one column up to another.
    #[inline(always)]
    pub(crate) fn bytes_between(&self, row: u32, from: u32, end: u32) -> u32 {
        if self.charset.is_utf8() {
            return self.encoded_between(row, from, end);
        }
        end.saturating_sub(from)
    }

    // The same where characters are sent in UTF-8.
    #[inline(never)]
    fn encoded_between(&self, row: u32, from: u32, end: u32) -> u32 {
        let extra = extra_between(self.cells(row), from, end);
        end.saturating_sub(from).saturating_add(extra)
    }

    // Whether the characters of a row's cells from one column up to another have more bytes than so many. There are at
    // most as many of them.
    #[inline(always)]
    pub(crate) fn has_more_bytes(&self, cells: &[Cell], from: u32, end: u32, most: u32) -> bool {
        self.charset.is_utf8()
            && end
                .saturating_sub(from)
                .saturating_add(extra_between(cells, from, end))
                > most
    }

    // How many more bytes than one each the characters have that are seen of cells.
    #[inline(always)]
    pub(crate) fn extra_of(&self, cells: &[Cell]) -> u32 {
        if self.charset.is_utf8() {
            extra_bytes(cells)
        } else {
            0
        }
    }
}

// How many more bytes than one each the characters of a row's cells have in UTF-8 from one column up to another; 0 if
// there are no such columns.
pub(crate) fn extra_between(cells: &[Cell], from: u32, end: u32) -> u32 {
    if from > end || end as usize > cells.len() {
        return 0;
    }
    extra_bytes(&cells[from as usize..end as usize])
}

// How many more bytes than one each the characters of cells have in UTF-8.
#[inline(never)]
fn extra_bytes(cells: &[Cell]) -> u32 {
    let mut extra = 0u32;
    for cell in cells {
        extra = extra.wrapping_add(extra_of_code(cell.code()));
    }
    extra
}

// How many more bytes than one each the characters of looks have in UTF-8: of those that differ from the looks before,
// and of all. Eight places at a time, and those that are left one by one.
pub(crate) fn extra_of_looks(before: &[Look], after: &[Look]) -> (u32, u32) {
    let (olds, old_rest) = before.as_chunks::<8>();
    let (news, new_rest) = after.as_chunks::<8>();
    let mut same = i32x8::splat(0);
    let mut all = i32x8::splat(0);
    for (old, new) in olds.iter().zip(news.iter()) {
        let numbers = look_numbers(new);
        let extra = extra_of_eight(numbers);
        let is_same = look_numbers(old).simd_eq(numbers);
        same += extra & is_same.to_simd();
        all += extra;
    }
    let mut of_all = all.reduce_sum().unsigned_abs();
    let mut of_differing = of_all.saturating_sub(same.reduce_sum().unsigned_abs());
    for (old, new) in old_rest.iter().zip(new_rest.iter()) {
        let extra = extra_of_code(new.code());
        of_all = of_all.wrapping_add(extra);
        of_differing = of_differing.wrapping_add(extra.wrapping_mul(u32::from(old != new)));
    }
    (of_differing, of_all)
}

// The same of eight looks of these numbers. A lane counts down.
#[inline(always)]
fn extra_of_eight(numbers: u32x8) -> i32x8 {
    let codes = numbers & u32x8::splat(0xFFFF);
    let has_two = codes.simd_ge(u32x8::splat(0x80));
    let has_three = codes.simd_ge(u32x8::splat(0x800));
    has_two.to_simd() + has_three.to_simd()
}

// How many more bytes than one a character has in UTF-8.
#[inline(always)]
fn extra_of_code(code: u32) -> u32 {
    u32::from(code >= 0x80).wrapping_add(u32::from(code >= 0x800))
}
