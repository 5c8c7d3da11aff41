//! What an update is planned on, lent to whatever has a part in it.

use crate::looked::Looked;
use crate::painting::Painter;
use scr_cells::{Cell, Look, Picture};
use scr_memory::Memory;
use scr_term::Profile;
use scr_virtual::Virtual;

// What is painted: a picture, on the terminal of a profile, with what painting needs to know of it.
#[derive(Clone, Copy)]
pub(crate) struct Scene<'a> {
    pub(crate) painter: Painter,
    pub(crate) profile: &'a Profile,
    pub(crate) picture: &'a Picture,
}

// A row of a picture: its number, its cells, and what the terminal shows there before, or blanks.
#[derive(Clone, Copy)]
pub(crate) struct Line<'a> {
    pub(crate) row: u32,
    pub(crate) cells: &'a [Cell],
    pub(crate) before: Option<&'a [Look]>,
}

// What an update starts from: what is wanted, the scene of it, what is remembered of the terminal,
// and which columns are looked at.
#[derive(Clone, Copy)]
pub(crate) struct Update<'a> {
    pub(crate) scene: Scene<'a>,
    pub(crate) memory: &'a Memory,
    pub(crate) wanted: &'a Virtual,
    pub(crate) by: Looked,
}
