//! What the terminal shows once rows were shifted, and what a row shows once characters of it were moved: remembered
//! rows, lent, and one row that is put together.

use crate::scenes::Update;
use crate::shifts::Shift;
use crate::slides::Slide;
use scr_cells::{Look, NoMemory};

impl<'a> Update<'a> {
    // What a row shows after a shift, if there was one; `None` if it is blank because of it.
    pub(crate) fn shown_row(&self, shift: Option<Shift>, row: u32) -> Option<&'a [Look]> {
        match shift {
            Some(shift) => Some(self.looks(shift.source(row)?)),
            None => Some(self.looks(row)),
        }
    }
}

impl Shift {
    // The row whose looks come into a row; `None` if it becomes blank.
    fn source(self, row: u32) -> Option<u32> {
        if row < self.top || row >= self.end {
            return Some(row);
        }
        let source = if self.up {
            row.checked_add(self.count)?
        } else {
            row.checked_sub(self.count)?
        };
        if source < self.top || source >= self.end {
            return None;
        }
        Some(source)
    }
}

// Puts together what a row shows after a slide of its characters.
pub(crate) fn slide_into(
    slid: &mut Vec<Look>,
    looks: &[Look],
    slide: Slide,
) -> Result<(), NoMemory> {
    let column = (slide.column as usize).min(looks.len());
    let count = (slide.count as usize).min(looks.len() - column);
    let (left, right) = looks.split_at(column);
    slid.clear();
    slid.reserve(looks.len())?;
    slid.extend_from_slice(left)?;
    if slide.inserts {
        push_blanks(slid, count)?;
        slid.extend_from_slice(&right[..right.len() - count])?;
    } else {
        slid.extend_from_slice(&right[count..])?;
        push_blanks(slid, count)?;
    }
    Ok(())
}

// Adds blanks to a row that is put together.
fn push_blanks(slid: &mut Vec<Look>, count: usize) -> Result<(), NoMemory> {
    for _ in 0..count {
        slid.push(Look::blank())?;
    }
    Ok(())
}
