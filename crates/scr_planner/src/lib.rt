//! The short plan of an update: operations that bring a terminal to a picture, in few bytes. It is made of choices:
//! which places are painted together, in which order, by which motions and turns; whether many lines are erased first;
//! and which rows, or characters of a row, are moved.
//!
//! | Word | Meaning |
//! |---|---|
//! | run | columns of one row that are painted together, with one pen |
//! | way | how the cursor comes to a place with a pen: by a motion and a turn, or by writing places |
//! | stop | a run in the order of painting, with the way to it |
//! | shift | rows that move up or down among themselves |
//! | slide | characters of a row that move along it |
//!
//! Nothing here promises anything but that it is safe and ends. Whether a plan shows the picture, and how many bytes it
//! has, is checked before it is sent (`scr_plan`).
#![tactic(auto)]

mod blanks;
mod counts;
mod cuts;
mod drafts;
mod erasures;
mod lengths;
mod lines;
mod motions;
mod moving;
mod order;
mod reaching;
mod repeating;
mod rows;
mod runs;
mod samples;
mod scenes;
mod scrolls;
mod settling;
mod shifting;
mod shifts;
mod short;
mod shown;
mod slides;
mod unknown_rows;
mod visiting;
mod ways;
mod wiping;
mod wipings;

pub use rows::RowChange;
pub use short::{short_anew, short_changes, short_partly};
pub use ways::Target;
