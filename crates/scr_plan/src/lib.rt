//! Plans: the operations that bring a terminal to a picture.
#![tactic(auto)]

mod bounds;
mod checked_plans;
mod checking;
mod comparing;
mod drafts;
mod joined_changes;
mod joined_rows;
mod joining;
mod lengths;
mod looked;
mod looking;
mod painting;
mod plain_repaint;
mod plan_laws;
mod plans;
mod scenes;
mod scratch_laws;
mod scratch_texts;

pub use bounds::{bound, check_whole};
pub use checked_plans::plan_checked;
pub use checking::{CheckFault, NotAPlan, check};
pub use joined_changes::joined;
pub use painting::scratch;
pub use plain_repaint::plain;
pub use plan_laws::{
    joined_is_cheap, joined_shows, plain_shows, plan_is_cheap, plans_are_made,
    plans_are_remembered, up_to_date_laws,
};
pub use plans::{plan, plan_altered};
pub use scratch_laws::{place_is_painted, scratch_bytes_show, scratch_is_bounded, scratch_shows};
pub use scratch_texts::scratch_bytes;
