//! The error of the emulated terminals.
use thiserror::Error;

/// What an emulated terminal was asked to do is undefined. This is an operation that the terminal
/// does not have, or whose effect terminfo(5) leaves open there; in an ECMA-48 text, a control
/// function that the screen does not know or that leads off the screen, a scalar value that is no
/// character of one column, or a byte that belongs to no unit.
#[derive(Clone, Copy, Debug, PartialEq, Eq, Error)]
#[error("undefined")]
pub struct Undefined;
