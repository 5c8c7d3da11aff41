//! Writing characters of one column, beyond ASCII too, and backgrounds of them: each is the call of `curses::Screen`
//! that it names. C gives a character by its code.
ghost use Rattle.std.specs.Prelude.{◌≡◌, ℕ};
ghost use Rattle.scr_windows.specs.Calls.Adding.{add_character_call, insert_character_call};
ghost use Rattle.scr_windows.specs.Calls.Borders.{border_of_call};
ghost use Rattle.scr_windows.specs.DeskViews.{DeskView};
ghost use Rattle.huttavel_c.specs.Asking.{Asked, on_windows};
ghost use Rattle.huttavel_c.specs.Characters.{Answers, AreAlike, line_of_call, list_of};
ghost use Rattle.huttavel_c.specs.Giving.{background_call, character_cell_given, unchanged, with_given};
ghost use Rattle.huttavel_c.specs.Replies.{added_reply, done_number, refused};

use crate::answers::{Reply, added, done, refused};
use crate::faults::{BAD_PAIR, CLOSED, NOT_ONE_COLUMN};
use crate::handles::Handle;
use crate::sessions::Session;
use curses::{Attrs, Cell, Win, is_character};
use scr_cells::character_laws;

/// The codes of the eight characters of a border.
#[repr(C)]
#[derive(Clone, Copy)]
pub struct Border {
    /// On the left edge.
    pub left: u32,
    /// On the right edge.
    pub right: u32,
    /// On the top edge.
    pub top: u32,
    /// On the bottom edge.
    pub bottom: u32,
    /// In the top left corner.
    pub top_left: u32,
    /// In the top right corner.
    pub top_right: u32,
    /// In the bottom left corner.
    pub bottom_left: u32,
    /// In the bottom right corner.
    pub bottom_right: u32,
}

// The character of a code; one that no cell holds where the code is that of none.
fn character_of(code: u32) -> char
    ensures { AreAlike result code }
{
    character_laws();
    char::from_u32(code).unwrap_or('\0')
}

// The eight characters of a border.
fn characters_of(border: &Border) -> [char; 8]
    ensures { (desk : DeskView) (window : ℕ) → border_of_call desk window result ≡ border_of_call desk window (list_of border.now) }
{
    [
        character_of(border.left),
        character_of(border.right),
        character_of(border.top),
        character_of(border.bottom),
        character_of(border.top_left),
        character_of(border.top_right),
        character_of(border.bottom_left),
        character_of(border.bottom_right),
    ]
}

// The cell of a character, attributes and a pair, or the number of the fault that there is none.
fn cell_of(code: u32, attrs: u8, pair: u32) -> Result<Cell, u32>
    ensures { result ≡ character_cell_given code attrs pair }
{
    let character = character_of(code);
    if !is_character(character) {
        return Err(NOT_ONE_COLUMN);
    }
    match Cell::of(character, Attrs(attrs), pair) {
        Some(cell) => Ok(cell),
        None => Err(BAD_PAIR),
    }
}

impl Session {
    // `Screen::add_character`.
    fn add_character(&mut self, window: u32, code: u32, attrs: u8) -> Reply
        ensures { Answers (λ screen. on_windows screen (add_character_call screen.desk window code (record { 0 = attrs }))) added_reply self.old self.new result }
    {
        let character = character_of(code);
        added(
            self.screen
                .add_character(Win(window), character, Attrs(attrs)),
        )
    }

    // `Screen::insert_character`.
    fn insert_character(&mut self, window: u32, code: u32, attrs: u8) -> u32
        ensures { Answers (λ screen. on_windows screen (insert_character_call screen.desk window code (record { 0 = attrs }))) done_number self.old self.new result }
    {
        let character = character_of(code);
        done(
            self.screen
                .insert_character(Win(window), character, Attrs(attrs)),
        )
    }

    // `Screen::line_down_of`, or `Screen::line_across_of`.
    fn line_of(&mut self, window: u32, code: u32, n: u32, down: bool) -> u32
        ensures { Answers (λ screen. on_windows screen (line_of_call down screen.desk window code n)) done_number self.old self.new result }
    {
        let character = character_of(code);
        match down {
            true => done(self.screen.line_down_of(Win(window), character, n)),
            false => done(self.screen.line_across_of(Win(window), character, n)),
        }
    }

    // `Screen::border_of`.
    fn border_of(&mut self, window: u32, border: &Border) -> u32
        ensures { Answers (λ screen. on_windows screen (border_of_call screen.desk window (list_of border.now))) done_number self.old self.new result }
    {
        let characters = characters_of(border);
        done(self.screen.border_of(Win(window), characters))
    }
}

/// Adds a character at the cursor, with attributes as bits; gives 1 if a next line was needed and there was none, else
/// 0, by `Screen::add_character`. Refused: CLOSED; NO_WINDOW; NOT_ONE_COLUMN.
#[unsafe(no_mangle)]
pub extern "C" fn huttavel_held_add_character(
    handle: &mut Handle,
    window: u32,
    code: u32,
    attrs: u8,
) -> Reply
    ensures { Asked (λ screen. on_windows screen (add_character_call screen.desk window code (record { 0 = attrs }))) added_reply (refused 1) handle.old.held.value handle.new.held.value result }
{
    handle.lend(refused(CLOSED), |session| {
        session.add_character(window, code, attrs)
    })
}

/// Inserts a character at the cursor, with attributes as bits, by `Screen::insert_character`. Refused: CLOSED;
/// NO_WINDOW; NOT_ONE_COLUMN.
#[unsafe(no_mangle)]
pub extern "C" fn huttavel_held_insert_character(
    handle: &mut Handle,
    window: u32,
    code: u32,
    attrs: u8,
) -> u32
    ensures { Asked (λ screen. on_windows screen (insert_character_call screen.desk window code (record { 0 = attrs }))) done_number 1 handle.old.held.value handle.new.held.value result }
{
    handle.lend(CLOSED, |session| {
        session.insert_character(window, code, attrs)
    })
}

/// Writes a character in `n` places from the cursor down, by `Screen::line_down_of`, or to the right, by
/// `Screen::line_across_of`. Refused: CLOSED; NO_WINDOW; NOT_ONE_COLUMN.
#[unsafe(no_mangle)]
pub extern "C" fn huttavel_held_line_of(
    handle: &mut Handle,
    window: u32,
    code: u32,
    n: u32,
    down: bool,
) -> u32
    ensures { Asked (λ screen. on_windows screen (line_of_call down screen.desk window code n)) done_number 1 handle.old.held.value handle.new.held.value result }
{
    handle.lend(CLOSED, |session| session.line_of(window, code, n, down))
}

/// Writes characters along the edges and in the corners, by `Screen::border_of`. Refused: CLOSED; NO_WINDOW;
/// NOT_ONE_COLUMN.
#[unsafe(no_mangle)]
pub extern "C" fn huttavel_held_border_of(handle: &mut Handle, window: u32, border: &Border) -> u32
    ensures { Asked (λ screen. on_windows screen (border_of_call screen.desk window (list_of border.now))) done_number 1 handle.old.held.value handle.new.held.value result }
{
    handle.lend(CLOSED, |session| session.border_of(window, border))
}

/// Sets the background of a window, or replaces the old one in every cell, as `huttavel_held_background` does. The cell
/// is given by the code of its character, its attributes as bits, and its colour pair. Refused: CLOSED; NOT_ONE_COLUMN;
/// BAD_PAIR for a pair above 63; NO_WINDOW.
#[unsafe(no_mangle)]
pub extern "C" fn huttavel_held_background_with(
    handle: &mut Handle,
    window: u32,
    code: u32,
    attrs: u8,
    pair: u32,
    changes: bool,
) -> u32
    ensures { Asked (λ screen. on_windows screen (with_given (background_call changes screen.desk window) screen.desk (character_cell_given code attrs pair))) unchanged 1 handle.old.held.value handle.new.held.value result }
{
    let given = cell_of(code, attrs, pair);
    handle.lend(CLOSED, |session| session.background(window, given, changes))
}
