//! What a curses screen is made of: sizes, attribute sets, pens, cells, looks, grids of them and pictures.
//!
//! A *cell* is what a window holds in one place, and a *look* is what a terminal shows there. They are two types
//! because a cell has the number of a colour pair, while a look has colours, those of its *pen*: what a character is
//! written with.
#![tactic(auto)]

mod attributes;
mod cells;
mod characters;
mod charsets;
mod differences;
mod grids;
mod laws;
mod looks;
mod moves;
mod pens;
mod pictures;
mod showing;
mod sizes;

pub use attributes::Attrs;
pub use cells::Cell;
pub use characters::{is_ascii, is_beyond_ascii, is_character};
pub use charsets::Charset;
pub use differences::{
    first_difference, first_look_difference, last_difference, last_look_difference, look_numbers,
};
pub use grids::Grid;
pub use laws::{attribute_laws, character_laws, grid_laws};
pub use looks::Look;
pub use out_of_memory::NoMemory;
pub use pens::Pen;
pub use pictures::Picture;
pub use showing::{alike_before, shown_before, unshown_before};
pub use sizes::Size;
