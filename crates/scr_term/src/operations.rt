//! The operations of a terminal, its profile, the bytes that an operation sends, and the laws of
//! these.

mod admission;
mod capability;
mod ladders;
mod laws;
mod making;
mod operation;
mod pieces;
mod prices;
mod profile_faults;
mod profiles;
mod rendering;
mod spares;

pub use admission::{program_at, sent_at};
pub use capability::Capability;
pub use laws::{
    blank_laws, bundled_is_ecma48, bytes_act_as_their_operation, bytes_act_as_their_operations,
    defined_laws, ecma48_laws, look_grid_laws, moves_refuse_nothing, profiles_have, run_laws,
    shown_pen_laws, steps_keep_states,
};
pub use operation::{Op, Ops, Spot};
pub use prices::{FAR, Prices};
pub use profile_faults::ProfileFault;
pub use profiles::Profile;
