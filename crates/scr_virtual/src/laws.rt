//! Laws of virtual screens, each the contract of a function that does nothing. A caller cites a law by calling its
//! function.
//!
//! They are stated in `specs/Laws.antt`.
ghost use Rattle.scr_virtual.specs.Laws.{OutsideStays, RangesHoldChanges, SizesStay, UntouchedChangesNothing};

use scr_cells::{Cell, grid_laws};

/// The ranges hold every change of a taking, a new pair or a mark: every place outside the new ranges has its old cell
/// and is seen as before, and no range loses a column. A screen that is settled has no ranges. curs_refresh(3X),
/// wnoutrefresh().
pub fn ranges_hold_changes()
    ensures { RangesHoldChanges }
{
    grid_laws::<Cell>();
}

/// Taking a window changes no place of the picture outside the window, and taking a pad none outside the rectangle that
/// shows it. curs_refresh(3X), wnoutrefresh(); curs_pad(3X), pnoutrefresh().
pub fn outside_stays()
    ensures { OutsideStays }
{
    grid_laws::<Cell>();
}

/// Taking a window of which no line is touched changes no cell of the picture. X/Open Curses Issue 7, untouchwin().
pub fn untouched_changes_nothing()
    ensures { UntouchedChangesNothing }
{
    grid_laws::<Cell>();
}

/// Every call keeps the sizes of the picture and of the desk. X/Open Curses Issue 7, wnoutrefresh(), pnoutrefresh(),
/// init_pair(), wredrawln().
pub fn sizes_stay()
    ensures { SizesStay }
{}
