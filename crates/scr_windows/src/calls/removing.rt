//! The call that deletes a window. The definition is in `specs/Calls/Removing.antt`.
ghost use Rattle.std.specs.Prelude.{◌≡◌, ◌≢◌, ◌<◌, All, false, length, map};
ghost use Rattle.scr_windows.specs.DeskViews.{HasSameSize, WindowView, window_at};
ghost use Rattle.scr_windows.specs.Calls.Removing.{is_number, has_children, deleted, delete_call, moved_up, on_surface, without_surface, without_window};

use crate::desks::Desk;
use crate::faults::{Win, WinFault};
use crate::windows::Window;

impl Desk {
    /// Deletes a window, and its cells if no other window shares them.
    #[tactic(auto, unfolding(crate::specs::Calls::Removing::delete_call))]
    pub fn delete(&mut self, win: Win) -> Result<(), WinFault>
        ensures call { (self.new, result) ≡ delete_call self.old win.0 }
        ensures size { HasSameSize self.old self.new }
    {
        let index = self.index_of(win)?;
        if has_children(&self.windows, win.0) {
            return Err(WinFault::HasChildren);
        }
        self.remove(index);
        Ok(())
    }

    // Removes the window at an index, which has no subwindows, and its surface, if it is not a subwindow.
    fn remove(&mut self, index: usize)
        requires here { index < length self.old.windows }
        requires alone { has_children (window_at self.old index).frame.number self.old.windows ≡ false }
        ensures { self.new ≡ deleted self.old index }
    {
        let frame = self.windows[index].frame();
        self.remove_window(frame.number);
        match frame.parent {
            None => self.remove_surface(frame.surface),
            Some(_) => {}
        }
    }

    // Removes the window of a number, which has no subwindows.
    fn remove_window(&mut self, number: u32)
        requires { has_children number self.old.windows ≡ false }
        ensures { self.new ≡ without_window self.old number }
    {
        self.windows
            .retain(|window| window.frame().number != number);
    }

    // Removes the surface at an index, which no window is on.
    fn remove_surface(&mut self, gone: usize)
        requires there { gone < length self.old.surfaces }
        requires free { All (λ (w : WindowView). w.frame.surface ≢ gone) self.old.windows }
        ensures { self.new ≡ without_surface self.old gone }
    {
        let _ = self.surfaces.remove(gone);
        close_gap(&mut self.windows, gone);
    }
}

// Gives windows the indices of their surfaces when the one at `gone` is gone.
fn close_gap(windows: &mut [Window], gone: usize)
    ensures { windows.new ≡ map (λ (w : WindowView). on_surface (moved_up gone w.frame.surface) w) windows.old }
{
    for index in 0..windows.len() {
        let mut frame = windows[index].frame();
        frame.surface = moved_up(gone, frame.surface);
        windows[index].set_frame(frame);
    }
}

// The index of a surface when the one at `gone` is gone: those behind it move up by one.
fn moved_up(gone: usize, surface: usize) -> usize
    ensures { result ≡ moved_up gone surface }
{
    if surface > gone { surface - 1 } else { surface }
}

// Whether some window is a subwindow of the window of a number.
pub(crate) fn has_children(windows: &[Window], number: u32) -> bool
    ensures { result ≡ has_children number windows.now }
{
    windows
        .iter()
        .any(|window| is_number(number, window.frame().parent))
}

// Whether a parent is the window of a number.
fn is_number(number: u32, parent: Option<u32>) -> bool
    ensures { result ≡ is_number number parent }
{
    match parent {
        None => false,
        Some(parent) => parent == number,
    }
}
