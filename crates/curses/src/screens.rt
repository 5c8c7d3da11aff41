//! The screen: its windows, what is to be shown, the terminal and its keys. What is true of every screen is in
//! `specs/ScreenStates.antt`.
//!
//! The calls on its windows are in the files of their kinds in `calls/`.
use scr_keys::KeyReader;
use scr_memory::{Memory, Spare};
use scr_term::Profile;
use scr_virtual::Virtual;
use scr_windows::Desk;
use std::fmt;
use std::marker::Model;

/// A curses screen: its windows, the virtual screen to which they are copied, the terminal that updates bring to it,
/// and the keys of its keyboard (X/Open Curses Issue 7, 'Screens, Windows and Terminals'; curs_refresh(3X)).
///
/// In every call rows and columns are counted from 0, from the window's first place unless the call says otherwise, and
/// the corners of a rectangle are both inside it. A refused call changes nothing; if several refusals hold, the first
/// that the call names is given.
#[derive(Drop)]
pub struct Screen {
    pub(crate) desk: Desk,
    pub(crate) wanted: Virtual,
    pub(crate) profile: Profile,
    // What is known of what the terminal shows.
    pub(crate) memory: Memory,
    // Where each plan is tried before it is sent. Between updates it shows what is remembered.
    pub(crate) spare: Spare,
    // What has been begun and is still to be sent, with room for the text of each operation and for each of the two
    // texts below.
    pub(crate) owed: Vec<u8>,
    pub(crate) keys: KeyReader,
    // What is sent before the first update and after the last.
    pub(crate) opening: Vec<u8>,
    pub(crate) closing: Vec<u8>,
}

impl Model for Screen {
    ghost use Rattle.std.specs.Prelude.{vec_capacity};
    ghost use Rattle.scr_virtual.specs.contracts.screens.Virtual as the_virtual;
    ghost use Rattle.scr_term.specs.contracts.operations.profiles.Profile as the_profile;
    ghost use Rattle.scr_windows.specs.contracts.desks.Desk as the_desk;
    ghost use Rattle.scr_memory.specs.contracts.memories.Memory as the_memory;
    ghost use Rattle.scr_memory.specs.Spares.{IsReady};
    ghost use Rattle.scr_keys.specs.contracts.readers.KeyReader as the_reader;
    ghost use Rattle.curses.specs.ScreenStates.{ScreenState, HasRoom, HasTextRoom, IsScreen, screen_code};

    ghost Value = { ScreenState };

    ghost coded = { screen_code the_desk.the_row.coded the_virtual.the_row.coded the_profile.the_row.coded the_memory.the_row.coded the_reader.the_row.coded };

    ghost view = { λ a. record { desk = a.desk; virtual = a.wanted; profile = a.profile; memory = a.memory; owed = a.owed.items; keys = a.keys; opening = a.opening.items; closing = a.closing.items } };

    ghost invariant = { λ a. IsScreen (record { desk = a.desk; virtual = a.wanted; profile = a.profile; memory = a.memory; owed = a.owed.items; keys = a.keys; opening = a.opening.items; closing = a.closing.items }) × HasRoom a.profile (vec_capacity a.owed) × HasTextRoom a.opening.items a.closing.items (vec_capacity a.owed) × IsReady a.memory a.spare };
}

/// The size of the screen and how many windows there are.
impl fmt::Debug for Screen {
    fn fmt<W: fmt::Write>(&self, f: &mut fmt::Formatter<W>) -> fmt::Result {
        write!(f, "Screen({:?})", self.desk)
    }
}
