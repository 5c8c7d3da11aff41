//! Laws of desks, each the contract of a function that does nothing. A caller cites a law by calling its function.
//!
//! They are stated in `specs/Laws.antt`.
ghost use Rattle.std.specs.Prelude.{◌≡◌, true};
ghost use Rattle.std.specs.List.{list_all};
ghost use Rattle.scr_cells.specs.Characters.{is_character};
ghost use Rattle.scr_windows.specs.Laws.{DeletingKeepsOthers, MovingChangesNoCell, ResizingKeepsOthers, SubwindowsShareCells, WindowsArePlaced, WritingStaysInside};
ghost use Rattle.scr_windows.specs.Surfaces.SurfaceLaws.{SurfaceLaws};

use crate::calls::{BOX, DOUBLE_BOX, ROUND_BOX};
use scr_cells::{Cell, grid_laws};

/// Deleting a window keeps every other window and its cells. X/Open Curses Issue 7, delwin().
pub fn deleting_keeps_others()
    ensures { DeletingKeepsOthers }
{}

/// A subwindow's cells are its parent's, shifted. X/Open Curses Issue 7, derwin().
pub fn subwindows_share_cells()
    ensures { SubwindowsShareCells }
{}

/// Writing in a window changes no place outside it.
pub fn writing_stays_inside()
    ensures { WritingStaysInside }
{
    surface_laws();
}

/// A window that is found has a part of its surface, and lies wholly on the screen if it has a place there. X/Open
/// Curses Issue 7, newwin().
pub fn windows_are_placed()
    ensures { WindowsArePlaced }
{}

/// Moving a window changes no cell. X/Open Curses Issue 7, mvwin().
pub fn moving_changes_no_cell()
    ensures { MovingChangesNoCell }
{}

/// Another size of a window keeps every other window and its cells, and that of a subwindow changes no cell.
pub fn resizing_keeps_others()
    ensures { ResizingKeepsOthers }
{}

/// The laws of surfaces: what holds for every surface that is filled in an area.
pub fn surface_laws()
    ensures { SurfaceLaws }
{
    grid_laws::<Cell>();
}

/// What `BOX`, `DOUBLE_BOX` and `ROUND_BOX` are made of is characters, so that `Desk::border_of` refuses none of them.
pub fn boxes_have_characters()
    ensures single { list_all is_character BOX ≡ true }
    ensures double { list_all is_character DOUBLE_BOX ≡ true }
    ensures round { list_all is_character ROUND_BOX ≡ true }
{}
