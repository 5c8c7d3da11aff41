//! The search for characters of a row that moved along it. Prices alone decide, and the choice
//! affects nothing but the number of bytes of an update.
ghost use Rattle.std.specs.Prelude.{◌≡◌, ◌+◌, ◌≤◌, length, true};

use crate::blanks::is_blank;
use crate::lengths::extra_between;
use crate::motions::cheapest_motion;
use crate::rows::{RowRuns, price_of_runs};
use crate::runs::{How, Run};
use crate::scenes::{Scene, Update};
use crate::ways::Cursor;
use scr_cells::{Cell, Charset, Look, NoMemory};
use scr_term::{FAR, Op, Prices};

// How many bytes the characters have to have from the first to the last place of a row that differs, at least.
const WORTH_LOOKING: u32 = 6;

// How many places in a row are looked for.
const PATTERN: usize = 12;

// How many bytes a slide has to save, at least.
const WORTH: i64 = 4;

// Places of a row from a column on that move by `count`: to the right, where blanks are inserted,
// or to the left, where characters are deleted.
#[derive(Clone, Copy)]
pub(crate) struct Slide {
    // The first of these columns, counted from 0.
    pub(crate) column: u32,
    // By how many columns they move.
    pub(crate) count: u32,
    // Whether blanks are inserted.
    pub(crate) inserts: bool,
}

// The price of a slide's operation.
fn price_of_operation(prices: &Prices, slide: Slide) -> u32 {
    if slide.inserts {
        prices.of(Op::InsertChars(slide.count))
    } else {
        prices.of(Op::DeleteChars(slide.count))
    }
}

// Whether the terminal can slide any characters.
pub(crate) fn can_slide_some(prices: &Prices) -> bool {
    least_operation(prices) < FAR
}

// The least price of an operation that slides characters.
fn least_operation(prices: &Prices) -> u32 {
    prices
        .of(Op::InsertChars(1))
        .min(prices.of(Op::DeleteChars(1)))
        .min(prices.of(Op::DeleteChars(2)))
}

// Whether it is far enough from the first place of a row that differs to the last: the characters there have enough
// bytes.
pub(crate) fn are_wide(shown: &RowRuns<'_>, charset: Charset) -> bool {
    let (Some(first), Some(last)) = (shown.runs.first(), shown.runs.last()) else {
        return false;
    };
    let end = end_of_differing(shown.looks, last);
    let places = end.saturating_sub(first.start);
    if places >= WORTH_LOOKING || !charset.is_utf8() {
        return places >= WORTH_LOOKING;
    }
    let extra = extra_between(shown.cells, first.start, end);
    places.saturating_add(extra) >= WORTH_LOOKING
}

// The slide of a row that saves most, if one saves enough. `room` is for a row that is put
// together. Fails only when memory runs out.
#[inline(never)]
pub(crate) fn cheapest_slide(
    update: &Update<'_>,
    cursor: &Cursor,
    shown: &RowRuns<'_>,
    room: &mut Vec<Look>,
) -> Result<Option<Slide>, NoMemory> {
    let price = price_without_way(&update.scene, cursor, shown);
    if price < i64::from(least_operation(update.scene.prices)).saturating_add(WORTH) {
        return Ok(None);
    }
    better_slide(update, shown, price, room)
}

// The better of inserting at the first column that differs and deleting there, if one saves enough.
// `price` is that of the row without a slide, less that of going there.
fn better_slide(
    update: &Update<'_>,
    shown: &RowRuns<'_>,
    price: i64,
    room: &mut Vec<Look>,
) -> Result<Option<Slide>, NoMemory> {
    let column = first_column(shown);
    let inserting = insertion(&update.scene, shown, column);
    let inserted = saved_by(update, shown, price, inserting, room)?;
    let deleting = deletion(&update.scene, shown, column);
    let deleted = saved_by(update, shown, price, deleting, room)?;
    if inserted < WORTH && deleted < WORTH {
        return Ok(None);
    }
    Ok(if deleted > inserted {
        deleting
    } else {
        inserting
    })
}

// The end of the places that differ of a run, the last one of a row that shows `looks`.
fn end_of_differing(looks: &[Look], run: &Run) -> u32 {
    if !matches!(run.how, How::EraseLine) {
        return run.end;
    }
    for after in 0..looks.len() {
        let column = looks.len() - 1 - after;
        if looks[column] != Look::blank() {
            return column.min(FAR as usize) as u32 + 1;
        }
    }
    run.start
}

// The price of a row as it stands, less that of going to the first of its places that differ with a
// plain pen.
fn price_without_way(scene: &Scene<'_>, cursor: &Cursor, shown: &RowRuns<'_>) -> i64 {
    let turn = scene.price_of_reset(cursor.pen);
    let column = first_column(shown);
    let motion = cheapest_motion(scene.prices, cursor.spot, shown.row, column).price;
    i64::from(price_of_runs(scene, shown.runs)) - i64::from(turn) - i64::from(motion)
}

// The first column of a row that differs.
fn first_column(shown: &RowRuns<'_>) -> u32 {
    match shown.runs.first() {
        Some(run) => run.start,
        None => 0,
    }
}

// The slide to the right that brings the first places from a column on to where they are wanted,
// if they are. At least as many places are moved as are inserted: where fewer are, tmux (3.3) leaves
// places between unchanged that terminfo(5) wants blank.
fn insertion(scene: &Scene<'_>, shown: &RowRuns<'_>, column: u32) -> Option<Slide> {
    let looks = shown.looks;
    let cells = shown.cells;
    let from = column as usize;
    if looks.len() != cells.len() || !has_places(looks.len(), from) {
        return None;
    }
    if are_blank(&looks[from..from + PATTERN]) {
        return None;
    }
    let code = looks[from].code();
    for at in from + 1..cells.len() - (PATTERN - 1) {
        if at - from > cells.len() - at {
            return None;
        }
        if scene.code_of(cells[at]) == code && are_seen(scene, looks, from, cells, at) {
            return Some(slide_from(column, at - from, true));
        }
    }
    None
}

// The slide to the left that brings places to where they are wanted from a column on, if they are
// in the row.
fn deletion(scene: &Scene<'_>, shown: &RowRuns<'_>, column: u32) -> Option<Slide> {
    let looks = shown.looks;
    let cells = shown.cells;
    let from = column as usize;
    if looks.len() != cells.len() || !has_places(looks.len(), from) {
        return None;
    }
    if is_blank(scene, &cells[from..from + PATTERN]) {
        return None;
    }
    let code = scene.code_of(cells[from]);
    for at in from + 1..looks.len() - (PATTERN - 1) {
        if looks[at].code() == code && are_seen(scene, looks, at, cells, from) {
            return Some(slide_from(column, at - from, false));
        }
    }
    None
}

// Whether a row of so many columns has all places that are looked for.
fn has_places(columns: usize, from: usize) -> bool
    ensures { result ≡ true → from + 12 ≤ columns }
{
    columns >= PATTERN && from <= columns - PATTERN
}

// A slide from a column on.
fn slide_from(column: u32, count: usize, inserts: bool) -> Slide {
    Slide {
        column,
        count: count.min(FAR as usize) as u32,
        inserts,
    }
}

// Whether looks from a column on are what is seen of cells from another on.
fn are_seen(scene: &Scene<'_>, looks: &[Look], from: usize, cells: &[Cell], at: usize) -> bool
    requires looks { from + 12 ≤ length looks.now }
    requires cells { at + 12 ≤ length cells.now }
{
    for place in 0..PATTERN {
        if !is_seen(scene, looks[from + place], cells[at + place]) {
            return false;
        }
    }
    true
}

// Whether a look is what is seen of a cell.
#[inline(always)]
fn is_seen(scene: &Scene<'_>, look: Look, cell: Cell) -> bool {
    look.code() == scene.code_of(cell) && look.pen() == scene.pen_of(cell)
}

// Whether looks are all blank.
pub(crate) fn are_blank(looks: &[Look]) -> bool {
    for look in looks {
        if *look != Look::blank() {
            return false;
        }
    }
    true
}

// What a slide saves; 0 if there is none, or not enough to be worth it. `price` is that of the row
// without the slide, less that of going there.
fn saved_by(
    update: &Update<'_>,
    shown: &RowRuns<'_>,
    price: i64,
    slide: Option<Slide>,
    room: &mut Vec<Look>,
) -> Result<i64, NoMemory> {
    let Some(slide) = slide else {
        return Ok(0);
    };
    let operation = price_of_operation(update.scene.prices, slide);
    let left = price.saturating_sub(i64::from(operation));
    if left < WORTH {
        return Ok(0);
    }
    let price = update.price_slid(shown.row, shown.looks, slide, room)?;
    Ok(left.saturating_sub(i64::from(price)))
}
