//! A terminal: its profile, its operations, what they do and which bytes they send.
#![tactic(auto)]

mod operations;

pub use operations::{
    Capability, FAR, Op, Ops, Prices, Profile, ProfileFault, Spot, blank_laws, bundled_is_ecma48,
    bytes_act_as_their_operation, bytes_act_as_their_operations, defined_laws, ecma48_laws,
    look_grid_laws, moves_refuse_nothing, profiles_have, program_at, run_laws, sent_at,
    shown_pen_laws, steps_keep_states,
};
