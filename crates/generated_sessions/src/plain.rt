//! A plain picture of what was copied from windows and pads, put together here, place by place: what a terminal has to
//! show after an update that ends well.

use crate::emulated::Emulated;
use check_harness::troubles::Trouble;
use curses::Screen;
use scr_cells::{Cell, Charset, Look, Size};
use scr_term::{Profile, Spot};
use scr_windows::{Win, WindowRef};
use screen_sessions::Call;
use std::alloc::Global;

/// The picture.
#[derive(Drop)]
pub struct Plain {
    size: Size,
    cells: Vec<Cell>,
    // The foreground and the background of each colour pair.
    pairs: Vec<(Option<u32>, Option<u32>)>,
    wish: Option<(u32, u32)>,
    // Which lines of the window that is copied next are touched. All of a pad are copied.
    touched: Vec<bool>,
}

// A part of a window: its first place, how many rows and columns it has, and where its first place comes on the screen.
#[derive(Clone, Copy)]
struct Part {
    first: (u32, u32),
    extent: (u32, u32),
    place: (u32, u32),
}

impl Plain {
    /// A blank picture, whose pairs are white on black.
    pub fn blank(alloc: Global, size: Size) -> Result<Plain, Trouble> {
        let places = (size.rows as usize).saturating_mul(size.columns as usize);
        Ok(Plain {
            size,
            cells: vec![in alloc; Cell::blank(); places]?,
            pairs: vec![in alloc; (Some(7), Some(0)); 64]?,
            wish: None,
            touched: Vec::new(alloc),
        })
    }

    /// Keeps which lines the next call copies.
    pub fn prepare(&mut self, screen: &Screen, call: &Call) -> Result<(), Trouble> {
        self.touched.clear();
        if let Call::Noutrefresh(win) = call
            && let Ok(window) = screen.window(*win)
        {
            for row in 0..window.size().0 {
                self.touched.push(is_touched(&window, row))?;
            }
        }
        Ok(())
    }

    /// Follows that call, which was not refused.
    pub fn follow(&mut self, screen: &Screen, call: &Call) {
        match call {
            Call::SetPair(pair, foreground, background) => {
                self.set_pair(*pair, (Some(*foreground), Some(*background)));
            }
            Call::SetPairOf(pair, foreground, background) => {
                self.set_pair(*pair, (*foreground, *background));
            }
            Call::Noutrefresh(win) => {
                if let (Ok(place), Ok(extent)) = (screen.origin(*win), screen.size(*win)) {
                    let first = (0, 0);
                    self.take(
                        screen,
                        *win,
                        Part {
                            first,
                            extent,
                            place,
                        },
                    );
                }
            }
            Call::PadNoutrefresh(win, row, column, top, left, bottom, right) => {
                let rows = bottom.saturating_sub(*top).saturating_add(1);
                let columns = right.saturating_sub(*left).saturating_add(1);
                let part = Part {
                    first: (*row, *column),
                    extent: (rows, columns),
                    place: (*top, *left),
                };
                self.take(screen, *win, part);
            }
            _ => {}
        }
    }

    fn set_pair(&mut self, pair: u32, colours: (Option<u32>, Option<u32>)) {
        if let Some(there) = self.pairs.get_mut(pair as usize) {
            *there = colours;
        }
    }

    // Copies a part of a window, and the window's cursor, where it lies in that.
    fn take(&mut self, screen: &Screen, win: Win, part: Part) {
        let Ok(window) = screen.window(win) else {
            return;
        };
        for row in 0..part.extent.0 {
            let line = part.first.0.saturating_add(row);
            if self.touched.get(line as usize) != Some(&false) {
                self.take_line(line_of(&window, line), part, row);
            }
        }
        self.wish = if window.leave_ok() {
            None
        } else {
            part.shown_at(window.cursor())
        };
    }

    fn take_line(&mut self, line: &[Cell], part: Part, row: u32) {
        let ((_, column), (_, columns), (top, left)) = (part.first, part.extent, part.place);
        let cells = line.iter().skip(column as usize).take(columns as usize);
        let first = self.place_of(top.saturating_add(row), left);
        for (place, cell) in self.cells.iter_mut().skip(first).zip(cells) {
            *place = *cell;
        }
    }

    // The place of a row and a column in the list of all.
    fn place_of(&self, row: u32, column: u32) -> usize {
        (row as usize)
            .saturating_mul(self.size.columns as usize)
            .saturating_add(column as usize)
    }

    /// Whether a terminal shows it, with the cursor where it is wished.
    pub fn is_shown(&self, emulated: &Emulated, profile: &Profile) -> bool {
        for row in 0..self.size.rows {
            if !self.is_row_shown(emulated, profile, row) {
                return false;
            }
        }
        match self.wish {
            Some((row, column)) => emulated.spot() == Spot::At(row, column),
            None => true,
        }
    }

    fn is_row_shown(&self, emulated: &Emulated, profile: &Profile, row: u32) -> bool {
        let looks = emulated.row(row);
        let cells = self.cells.iter().skip(self.place_of(row, 0));
        for (look, cell) in looks.iter().zip(cells) {
            if !self.is_seen(emulated, profile, *look, *cell) {
                return false;
            }
        }
        looks.len() == self.size.columns as usize
    }

    // Whether a look is what a terminal with these operations shows of a cell.
    fn is_seen(&self, emulated: &Emulated, profile: &Profile, look: Look, cell: Cell) -> bool {
        let (attrs, pair) = (cell.attrs().0, cell.pair());
        let wanted = match profile.charset() {
            Charset::Ascii => char::from(cell.stand_in()),
            Charset::Utf8 => cell.character(),
        };
        let (foreground, background) = match self.pairs.get(pair as usize) {
            Some(colours) if pair > 0 && profile.colours() => *colours,
            _ => (None, None),
        };
        look.character() == wanted
            && look.attrs().0 == emulated.seen(attrs & profile.shows().0)
            && look.foreground().map(u32::from) == foreground
            && look.background().map(u32::from) == background
    }
}

impl Part {
    // Where a place of the window is shown, if it is.
    fn shown_at(self, (row, column): (u32, u32)) -> Option<(u32, u32)> {
        let (down, across) = (
            row.checked_sub(self.first.0)?,
            column.checked_sub(self.first.1)?,
        );
        if down >= self.extent.0 || across >= self.extent.1 {
            return None;
        }
        let (top, left) = self.place;
        Some((top.saturating_add(down), left.saturating_add(across)))
    }
}

/// The cells of a line of a window, none where it has no such line.
pub fn line_of<'a>(window: &WindowRef<'a>, row: u32) -> &'a [Cell] {
    if row < window.size().0 {
        window.line(row)
    } else {
        &[]
    }
}

/// Whether a line of a window is touched.
pub fn is_touched(window: &WindowRef<'_>, row: u32) -> bool {
    row < window.size().0 && window.is_touched(row)
}
