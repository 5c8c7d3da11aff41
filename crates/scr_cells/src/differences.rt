//! Where two rows of cells, or of looks, differ: for callers that compare such rows.
//!
//! An update compares looks with cells instead, with what is in `showing.rt`.
//!
//! Both types are one `u32`, so eight places are compared at a time. The lanes are a filter: if they find a difference
//! among eight, or fewer than eight are left, the places are compared one by one.
ghost use Rattle.std.specs.Prelude.{ℕ, ◌≡◌, ◌≢◌, ◌+◌, ◌<◌, ◌≤◌, length, true};
ghost use Rattle.scr_cells.specs.Code.Lanes.{HasEight};
ghost use Rattle.scr_cells.specs.Code.Numbers.{look_of};
ghost use Rattle.scr_cells.specs.Differences.{IsFirstDifference, IsLastDifference, IsSameAt};

use crate::{Cell, Look};
use std::simd::prelude::*;

/// The lowest place at which two rows of cells differ in character, attributes or colour pair; `None` if they are the
/// same. The rows have one length.
pub fn first_difference(a: &[Cell], b: &[Cell]) -> Option<usize>
    requires { length a.now ≡ length b.now }
    ensures { IsFirstDifference a.now b.now result }
{
    first_place(a, b)
}

/// The highest place at which two rows of cells differ in character, attributes or colour pair; `None` if they are the
/// same. The rows have one length.
pub fn last_difference(a: &[Cell], b: &[Cell]) -> Option<usize>
    requires { length a.now ≡ length b.now }
    ensures { IsLastDifference a.now b.now result }
{
    last_place(a, b)
}

/// The lowest place at which two rows of looks differ in character, attributes or colours; `None` if they are the same.
/// The rows have one length.
pub fn first_look_difference(a: &[Look], b: &[Look]) -> Option<usize>
    requires { length a.now ≡ length b.now }
    ensures { IsFirstDifference a.now b.now result }
{
    first_place(a, b)
}

/// The highest place at which two rows of looks differ in character, attributes or colours; `None` if they are the
/// same. The rows have one length.
pub fn last_look_difference(a: &[Look], b: &[Look]) -> Option<usize>
    requires { length a.now ≡ length b.now }
    ensures { IsLastDifference a.now b.now result }
{
    last_place(a, b)
}

/// The numbers of eight looks. Two looks with one number are the same.
#[inline(always)]
pub fn look_numbers(looks: &[Look; 8]) -> u32x8
    ensures { HasEight look_of looks.now 0 result }
{
    eight(looks, 0)
}

/// An element that is one number.
pub(crate) trait Packed: Copy {
    ghost code: { Self → ℕ };

    ghost coded: { ℕ → Self };

    /// The number, which tells the element from all others.
    fn packed(self) -> u32
        ensures value { result ≡ code self }
        ensures back { coded result ≡ self };
}

fn first_place<T: Packed>(a: &[T], b: &[T]) -> Option<usize>
    requires { length a.now ≡ length b.now }
    ensures { IsFirstDifference a.now b.now result }
{
    for place in same_before(a, b)..a.len() {
        if a[place].packed() != b[place].packed() {
            return Some(place);
        }
    }
    None
}

fn last_place<T: Packed>(a: &[T], b: &[T]) -> Option<usize>
    requires { length a.now ≡ length b.now }
    ensures { IsLastDifference a.now b.now result }
{
    let mut end = same_after(a, b);
    while end > 0 {
        end -= 1;
        if a[end].packed() != b[end].packed() {
            return Some(end);
        }
    }
    None
}

// A place before which the rows are the same.
fn same_before<T: Packed>(a: &[T], b: &[T]) -> usize
    requires { length a.now ≡ length b.now }
    ensures inside { result ≤ length a.now }
    ensures same { (i : ℕ) → i < result → IsSameAt a.now b.now i }
{
    let mut at = 0;
    while a.len() - at >= 8 && same_eight(a, b, at) {
        at += 8;
    }
    at
}

// A place from which on the rows are the same.
fn same_after<T: Packed>(a: &[T], b: &[T]) -> usize
    requires { length a.now ≡ length b.now }
    ensures inside { result ≤ length a.now }
    ensures same { (i : ℕ) → result ≤ i → i < length a.now → IsSameAt a.now b.now i }
{
    let mut end = a.len();
    while end >= 8 && same_eight(a, b, end - 8) {
        end -= 8;
    }
    end
}

// Whether the rows are the same in the eight places from one on.
fn same_eight<T: Packed>(a: &[T], b: &[T], at: usize) -> bool
    requires a { at + 8 ≤ length a.now }
    requires b { at + 8 ≤ length b.now }
    ensures { result ≡ true → (i : ℕ) → at ≤ i → i < at + 8 → IsSameAt a.now b.now i }
{
    eight(a, at).simd_ne(eight(b, at)).to_bitmask() == 0
}

// The numbers of the eight elements from a place on.
#[inline(always)]
pub(crate) fn eight<T: Packed>(row: &[T], at: usize) -> u32x8
    requires { at + 8 ≤ length row.now }
    ensures { HasEight T.coded row.now at result }
{
    let row = &row[at..at + 8];
    u32x8::from_array([
        row[0].packed(),
        row[1].packed(),
        row[2].packed(),
        row[3].packed(),
        row[4].packed(),
        row[5].packed(),
        row[6].packed(),
        row[7].packed(),
    ])
}
