//! The virtual screen. What is true of every one is in `specs/VirtualViews.antt`.
ghost use Rattle.std.specs.Prelude.{◌≡◌, ◌<◌, ◌≤◌, IfOk, IfErr, IfSome, true, false};
ghost use Rattle.scr_cells.specs.PenViews.{IsColour};
ghost use Rattle.scr_virtual.specs.Pairs.{is_no_colour, set_pair_call, set_pair_of_call};
ghost use Rattle.scr_virtual.specs.Ranges.{AreNoneOutside, IsRange};
ghost use Rattle.scr_virtual.specs.VirtualViews.{IsVirtual, altered_at, blank_virtual, marked_rows, range_at, settled};

use crate::ranges::Ranges;
use scr_cells::{Cell, NoMemory, Picture, Size};
use scr_windows::WinFault;
use std::alloc::Global;
use std::marker::Model;

/// What the terminal is to show after the next update: a picture, whether the whole screen is to be repainted, and what
/// may have changed (curs_refresh(3X), 'virtual screen'; X/Open Curses Issue 7, doupdate()).
///
/// For each row it has two ranges of columns, each a first and a last one: those that may have changed since `settle`,
/// and those that may look different.
///
/// Rows and columns are counted from 0. A refused call changes nothing; if several refusals hold, the first that the
/// call names is given. No call but `new` allocates memory.
#[derive(Drop)]
pub struct Virtual {
    pub(crate) picture: Picture,
    pub(crate) repaint: bool,
    pub(crate) changed: Ranges,
    pub(crate) altered: Ranges,
}

impl Model for Virtual {
    ghost use Rattle.scr_virtual.specs.VirtualViews.{IsVirtual, VirtualView};

    ghost Value = { VirtualView };

    ghost view = { λ a. record { picture = a.picture; repaint = a.repaint; changed = a.changed; altered = a.altered } };

    ghost invariant = { λ a. IsVirtual (record { picture = a.picture; repaint = a.repaint; changed = a.changed; altered = a.altered }) };
}

impl Virtual {
    /// Makes a blank picture, with no place where the cursor is wanted, nothing to repaint, and no ranges. Fails only
    /// when memory runs out.
    pub fn new(alloc: Global, size: Size) -> Result<Virtual, NoMemory>
        ensures { IfOk result (λ screen. screen ≡ blank_virtual size.rows size.columns) }
    {
        let picture = Picture::new(alloc, size)?;
        let changed = Ranges::new(alloc, size.rows)?;
        let altered = Ranges::new(alloc, size.rows)?;
        Ok(Virtual {
            picture,
            repaint: false,
            changed,
            altered,
        })
    }

    /// How many rows and columns there are.
    pub fn size(&self) -> Size
        ensures rows { result.rows ≡ self.now.picture.rows }
        ensures columns { result.columns ≡ self.now.picture.columns }
        ensures screen { IsVirtual self.now }
    {
        self.picture.size()
    }

    /// The cells that the screen is to show, the colours of their pairs, and where its cursor is wanted.
    pub fn picture(&self) -> &Picture
        ensures { result.now ≡ self.now.picture }
    {
        &self.picture
    }

    /// Whether the whole screen is to be repainted. X/Open Curses Issue 7, clearok().
    pub fn repaint(&self) -> bool
        ensures { result ≡ self.now.repaint }
    {
        self.repaint
    }

    /// The first and the last column of a row that may have changed since `settle`, both inside the range; `None` if
    /// the row has not changed. The screen has this row.
    pub fn changed(&self, row: u32) -> Option<(u32, u32)>
        requires { row < self.now.picture.rows }
        ensures value { result ≡ range_at self.now row }
        ensures inside { IfSome result (IsRange self.now.picture.columns) }
    {
        self.changed.at(row)
    }

    /// The first and the last column of a row that may look different than at `settle`, both inside the range; `None`
    /// if the row looks as it did. The screen has this row.
    ///
    /// A line that is copied to where it already is has changed, and looks as it did.
    pub fn altered(&self, row: u32) -> Option<(u32, u32)>
        requires { row < self.now.picture.rows }
        ensures value { result ≡ altered_at self.now row }
        ensures inside { IfSome result (IsRange self.now.picture.columns) }
    {
        self.altered.at(row)
    }

    /// The first row and the end (exclusive) of the rows that may look different than at `settle`. An update looks at
    /// these rows alone, and costs nothing where nothing changed.
    pub fn altered_rows(&self) -> (u32, u32)
        ensures order { result.0 ≤ result.1 }
        ensures end { result.1 ≤ self.now.picture.rows }
        ensures others { AreNoneOutside self.now.altered result.0 result.1 }
    {
        self.altered.rows()
    }

    /// Sets the foreground and the background of a colour pair. The picture has them at once, and every row may have
    /// changed in its whole width.
    ///
    /// Refused: BadPair if the pair is not 1 to 63; BadColour if a colour is above 7. X/Open Curses Issue 7,
    /// init_pair().
    pub fn set_pair(&mut self, pair: u32, foreground: u32, background: u32) -> Result<(), WinFault>
        ensures { (self.new, result) ≡ set_pair_call self.old pair foreground background }
    {
        self.set_pair_of(pair, Some(foreground), Some(background))
    }

    /// The same, where a colour that is `None` is the terminal's default.
    #[tactic(auto, unfolding(crate::specs::Pairs::set_pair_of_call))]
    pub fn set_pair_of(
        &mut self,
        pair: u32,
        foreground: Option<u32>,
        background: Option<u32>,
    ) -> Result<(), WinFault>
        ensures { (self.new, result) ≡ set_pair_of_call self.old pair foreground background }
    {
        if pair == 0 || pair > Cell::MOST_PAIR {
            return Err(WinFault::BadPair);
        }
        let (Ok(foreground), Ok(background)) = (colour(foreground), colour(background)) else {
            return Err(WinFault::BadColour);
        };
        self.picture.set_pair_of(pair, foreground, background);
        let size = self.picture.size();
        self.mark(0, size.rows);
        Ok(())
    }

    /// Records that an update ended well: the screen is not to be repainted, and no row has a range. The picture stays.
    /// X/Open Curses Issue 7, doupdate().
    pub fn settle(&mut self)
        ensures { self.new ≡ settled self.old }
    {
        self.changed.clear();
        self.altered.clear();
        self.repaint = false;
    }

    /// Makes the ranges of `n` rows, from `row` on, whole, because the terminal may show something else there. Rows
    /// past the last are left out. X/Open Curses Issue 7, wredrawln().
    pub fn mark(&mut self, row: u32, n: u32)
        ensures { self.new ≡ marked_rows row n self.old }
    {
        let size = self.picture.size();
        let first = row.min(size.rows);
        let end = first + n.min(size.rows - first);
        let whole = (0, size.columns - 1);
        self.changed.fill(first, end, whole);
        self.altered.fill(first, end, whole);
    }
}

// A colour in a byte, or the terminal's default. Refused if it is above 7.
fn colour(colour: Option<u32>) -> Result<Option<u8>, WinFault>
    ensures ok { IfOk result (λ c. c ≡ colour × IfSome c IsColour × is_no_colour colour ≡ false) }
    ensures err { IfErr result (λ _. is_no_colour colour ≡ true) }
{
    match colour {
        None => Ok(None),
        Some(colour) if colour > 7 => Err(WinFault::BadColour),
        Some(colour) => Ok(Some(colour as u8)),
    }
}
