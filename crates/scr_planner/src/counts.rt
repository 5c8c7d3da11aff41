//! About what the places cost that differ between two rows of looks.

use crate::lengths::extra_of_looks;
use crate::scenes::Scene;
use scr_cells::{Look, look_numbers};
use scr_term::{FAR, Op};
use std::simd::prelude::*;

// How a row of looks becomes another: how many bytes the characters of the places have that differ, how many of these
// places become blank, and how many bytes the characters have that are not blank then.
#[derive(Clone, Copy)]
pub(crate) struct Counts {
    differing: u32,
    blanked: u32,
    filled: u32,
}

// Eight places at a time: how often each lane's place did not differ, was blank then, or both. A lane
// counts down.
#[derive(Clone, Copy)]
struct Lanes {
    same: i32x8,
    blank: i32x8,
    both: i32x8,
}

impl Lanes {
    fn none() -> Lanes {
        let none = i32x8::splat(0);
        Lanes {
            same: none,
            blank: none,
            both: none,
        }
    }

    // Adds eight places.
    #[inline(always)]
    fn add(&mut self, old: &[Look; 8], new: &[Look; 8]) {
        let numbers = look_numbers(new);
        let is_same = look_numbers(old).simd_eq(numbers);
        let is_blank = look_numbers(&[Look::blank(); 8]).simd_eq(numbers);
        self.same += is_same.to_simd();
        self.blank += is_blank.to_simd();
        self.both += (is_same & is_blank).to_simd();
    }

    // What was counted of so many places.
    fn counts(self, places: usize) -> Counts {
        let places = places.min(FAR as usize) as u32;
        let same = self.same.reduce_sum().unsigned_abs();
        let blank = self.blank.reduce_sum().unsigned_abs();
        let both = self.both.reduce_sum().unsigned_abs();
        Counts {
            differing: places.saturating_sub(same),
            blanked: blank.saturating_sub(both),
            filled: places.saturating_sub(blank),
        }
    }
}

impl Counts {
    // Of the looks before and after.
    pub(crate) fn of(scene: &Scene<'_>, before: &[Look], after: &[Look]) -> Counts {
        let mut counts = Counts::of_places(before, after);
        if scene.charset.is_utf8() {
            counts.add_extra(before, after);
        }
        counts
    }

    // The same where each character has one byte: eight places at a time, and those that are left one by one.
    #[inline(always)]
    fn of_places(before: &[Look], after: &[Look]) -> Counts {
        let (olds, old_rest) = before.as_chunks::<8>();
        let (news, new_rest) = after.as_chunks::<8>();
        let mut lanes = Lanes::none();
        for (old, new) in olds.iter().zip(news.iter()) {
            lanes.add(old, new);
        }
        let mut counts = lanes.counts(olds.len().min(news.len()).saturating_mul(8));
        for (old, new) in old_rest.iter().zip(new_rest.iter()) {
            counts.add(*old, *new);
        }
        counts
    }

    // Adds a place.
    fn add(&mut self, old: Look, new: Look) {
        let is_other = old != new;
        let is_filled = new != Look::blank();
        self.differing = self.differing.wrapping_add(u32::from(is_other));
        self.blanked = self.blanked.wrapping_add(u32::from(is_other & !is_filled));
        self.filled = self.filled.wrapping_add(u32::from(is_filled));
    }

    // Adds the bytes beyond one that characters have in UTF-8.
    #[inline(never)]
    fn add_extra(&mut self, before: &[Look], after: &[Look]) {
        let (of_differing, of_all) = extra_of_looks(before, after);
        self.differing = self.differing.saturating_add(of_differing);
        self.filled = self.filled.saturating_add(of_all);
    }

    // About what the places that differ cost: those that become blank may be erased together.
    pub(crate) fn price(self, scene: &Scene<'_>) -> u32 {
        if self.differing == 0 {
            return 0;
        }
        let erased = self.blanked.min(scene.prices.of(Op::EraseLine));
        self.differing
            .saturating_sub(self.blanked)
            .saturating_add(erased)
            .saturating_add(scene.jump)
    }

    // What the places that are filled cost over blanks.
    pub(crate) fn price_of_filled(self, scene: &Scene<'_>) -> u32 {
        if self.filled == 0 {
            return 0;
        }
        self.filled.saturating_add(scene.jump)
    }
}
