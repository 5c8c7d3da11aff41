//! Which places of a row surely have, or surely do not have, the shown form of their cells.
//!
//! They are looked at eight at a time, and where one of eight ends a count, those before it are counted. Fewer than
//! eight that are left are for the caller to look at, place by place. A row whose looks are not given shows blanks.
ghost use Rattle.std.specs.Prelude.{ℕ, ◌≡◌, ◌≢◌, ◌+◌, ◌<◌, ◌≤◌, IfSome, bit_and, length, option_map, slice_index_or};
ghost use Rattle.scr_cells.specs.CellViews.{blank_cell};
ghost use Rattle.scr_cells.specs.Showing.{HasRendition, IsSeenAt, IsUnseenAt};
ghost use Rattle.scr_cells.specs.Code.Numbers.{HasBase, HasLimit, KeepsRendition, ShowsEight, cell_of};

use crate::differences::{Packed, eight};
use crate::{Attrs, Cell, Charset, Look};
use std::simd::prelude::*;

// The number of a blank look.
const BLANK_NUMBER: u32 = 32;

/// A count of places from the left, each of which has the shown form of its cell on a terminal with this charset that
/// shows these attributes, whatever the colours of its pairs are.
///
/// The places are looked at eight at a time, and fewer than eight that are left are not looked at. The count ends, at
/// the latest, before a cell with a pair, before one with an attribute if not every attribute is shown, and in ASCII
/// before one with a character above it, so a caller goes on from there place by place. The rows have one length.
pub fn shown_before(looks: Option<&[Look]>, cells: &[Cell], charset: Charset, shown: Attrs) -> usize
    requires { IfSome looks (λ looks. length looks.now ≡ length cells.now) }
    ensures inside { result ≤ length cells.now }
    ensures same { (i : ℕ) → i < result → IsSeenAt charset shown.0 (option_map (λ looks. looks.now) looks.entry) cells.now i }
{
    let hidden = hidden_bits(charset, shown);
    let whole = cells.len() / 8 * 8;
    let mut at = 0;
    while at < whole {
        let others = unless_same(eight_shown(looks, at), eight(cells, at), hidden);
        if others.reduce_or() != 0 {
            return at + zeros_from_left(others);
        }
        at += 8;
    }
    at
}

// The numbers of the looks in the eight places from one on.
#[inline(always)]
fn eight_shown(looks: Option<&[Look]>, at: usize) -> u32x8
    requires { IfSome looks (λ looks. at + 8 ≤ length looks.now) }
    ensures { ShowsEight (option_map (λ looks. looks.now) looks.entry) at result }
{
    match looks {
        Some(looks) => eight(looks, at),
        None => u32x8::splat(BLANK_NUMBER),
    }
}

// Bits of a cell's number, none of which is set if it has no pair, only attributes that are shown, and a character that
// is seen as it is.
#[tactic(auto, using(crate::proofs::ShowingLaws::limit_of_all, crate::proofs::ShowingLaws::limit_of_none, crate::proofs::ShowingLaws::limit_of_all_ascii, crate::proofs::ShowingLaws::limit_of_no_ascii))]
fn hidden_bits(charset: Charset, shown: Attrs) -> u32
    ensures { HasLimit charset shown.0 result }
{
    let shows_all = shown.0 == 127;
    match charset {
        Charset::Ascii => { if shows_all { 0xFF80_FF80 } else { 0xFFFF_FF80 } }
        Charset::Utf8 => { if shows_all { 0xFF80_0000 } else { 0xFFFF_0000 } }
    }
}

// Bits of a cell's number that are those of its attributes and its pair if its character is seen as it is.
#[tactic(auto, using(crate::proofs::ShowingLaws::keeps_in_ascii, crate::proofs::ShowingLaws::keeps_in_utf8))]
fn kept_bits(charset: Charset) -> u32
    ensures { KeepsRendition charset result }
{
    match charset {
        Charset::Ascii => 0xFFFF_FF80,
        Charset::Utf8 => 0xFFFF_0000,
    }
}

// A number for each of eight places: 0 where the two numbers are the same and have none of some bits. These are numbers
// and no mask, since one test of all their bits tells whether each is 0. The mask is made where a count ends.
fn unless_same(a: u32x8, b: u32x8, hidden: u32) -> u32x8
    requires a { length a ≡ 8 }
    requires b { length b ≡ 8 }
    ensures eight { length result ≡ 8 }
    ensures zero { (k : ℕ) → k < 8 → slice_index_or result k 0 ≡ 0 → (slice_index_or a k 0 ≡ slice_index_or b k 0) × (slice_index_or b k 0 < 4294967296) × (bit_and (slice_index_or b k 0) hidden ≡ 0) }
{
    (a - b) | (b & u32x8::splat(hidden))
}

// How many of eight numbers, from the left, are 0.
fn zeros_from_left(numbers: u32x8) -> usize
    requires { length numbers ≡ 8 }
    ensures few { result ≤ 8 }
    ensures zeros { (k : ℕ) → k < result → slice_index_or numbers k 0 ≡ 0 }
{
    numbers
        .simd_eq(u32x8::splat(0))
        .to_bitmask()
        .trailing_ones() as usize
}

/// A count of places from the left, none of which has the shown form of its cell on a terminal with this charset that
/// shows these attributes, whatever the colours of its pairs are. Their cells have the attributes of the first cell,
/// and no pair.
///
/// The places are looked at eight at a time. The count is 0 if the first cell has a pair, or an attribute if not every
/// attribute is shown, and in ASCII it ends before a cell with a character above it, whose stand-in a look may show. A
/// caller goes on from there place by place. The rows have one length.
pub fn unshown_before(
    looks: Option<&[Look]>,
    cells: &[Cell],
    charset: Charset,
    shown: Attrs,
) -> usize
    requires { IfSome looks (λ looks. length looks.now ≡ length cells.now) }
    ensures inside { result ≤ length cells.now }
    ensures unseen { (i : ℕ) → i < result → IsUnseenAt charset shown.0 (option_map (λ looks. looks.now) looks.entry) cells.now i }
    ensures alike { (i : ℕ) → i < result → HasRendition (slice_index_or cells.now 0 blank_cell) cells.now i }
{
    let Some(base) = base_of(cells, shown) else {
        return 0;
    };
    let kept = kept_bits(charset);
    let whole = cells.len() / 8 * 8;
    let mut at = 0;
    while at < whole {
        let others = unless_unlike(eight_shown(looks, at), eight(cells, at), kept, base);
        if others.reduce_or() != 0 {
            return at + zeros_from_left(others);
        }
        at += 8;
    }
    at
}

/// A count of places from the left whose cells have the attributes and the pair of the first cell. They are looked at
/// eight at a time, and a caller goes on from there place by place.
pub fn alike_before(cells: &[Cell]) -> usize
    ensures inside { result ≤ length cells.now }
    ensures alike { (i : ℕ) → i < result → HasRendition (slice_index_or cells.now 0 blank_cell) cells.now i }
{
    let Some(first) = first_number(cells) else {
        return 0;
    };
    let base = first / 65536 * 65536;
    let whole = cells.len() / 8 * 8;
    let mut at = 0;
    while at < whole {
        let others = unless_alike(eight(cells, at), base);
        if others.reduce_or() != 0 {
            return at + zeros_from_left(others);
        }
        at += 8;
    }
    at
}

// The number of the first cell less its character, if each cell whose number is above that by a character alone has the
// number of its look where that character is seen as it is.
fn base_of(cells: &[Cell], shown: Attrs) -> Option<u32>
    ensures { IfSome result (HasBase shown.0 cells.now) }
{
    let base = first_number(cells)? / 65536 * 65536;
    if base & hidden_bits(Charset::Utf8, shown) != 0 {
        return None;
    }
    Some(base)
}

// The number of the first cell, if there is one.
fn first_number(cells: &[Cell]) -> Option<u32>
    ensures { IfSome result (λ n. slice_index_or cells.now 0 blank_cell ≡ cell_of n) }
{
    if cells.len() < 1 {
        return None;
    }
    Some(cells[0].packed())
}

// A number for each of eight places: 0 where the two numbers differ and these bits of the second are a base.
fn unless_unlike(a: u32x8, b: u32x8, kept: u32, base: u32) -> u32x8
    requires a { length a ≡ 8 }
    requires b { length b ≡ 8 }
    ensures eight { length result ≡ 8 }
    ensures zero { (k : ℕ) → k < 8 → slice_index_or result k 0 ≡ 0 → (slice_index_or a k 0 ≢ slice_index_or b k 0) × (slice_index_or b k 0 < 4294967296) × (bit_and (slice_index_or b k 0) kept ≡ base) }
{
    a.simd_eq(b).select(
        u32x8::splat(u32::MAX),
        (b & u32x8::splat(kept)) - u32x8::splat(base),
    )
}

// A number for each of eight places: 0 where the number is above a base by a character alone.
fn unless_alike(numbers: u32x8, base: u32) -> u32x8
    requires { length numbers ≡ 8 }
    ensures eight { length result ≡ 8 }
    ensures zero { (k : ℕ) → k < 8 → slice_index_or result k 0 ≡ 0 → (base ≤ slice_index_or numbers k 0) × (slice_index_or numbers k 0 < base + 65536) }
{
    (numbers & u32x8::splat(0xFFFF_0000)) - u32x8::splat(base)
}
