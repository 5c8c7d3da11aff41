//! Why the program ends with a status other than 0.

use screen_scripts::DemoFault;
use thiserror::Error;

/// Why the program ends with a status other than 0.
#[derive(Debug, Drop, Error)]
pub enum DemoFailure {
    /// The command line is not as the usage says.
    #[error("{0}")]
    Words(String),
    /// A word of the command line is not text.
    #[error("the words are not all text")]
    NotText,
    /// Standard input cannot be read, or is too long.
    #[error("read failed")]
    Read,
    /// The script was not run to its end.
    #[error("{0}")]
    Demo(DemoFault),
    /// The script was not run to its end, since a line is bad for this reason.
    #[error("{0}: {1}")]
    Line(DemoFault, String),
    /// A line of the operations is none.
    #[error("operations, line {0}: bad operation")]
    Operation(u32),
    /// The operations are no plan, for this reason.
    #[error("not a plan: {0}")]
    NotAPlan(String),
    /// Memory ran out.
    #[error("out of memory")]
    NoMemory,
}

impl DemoFailure {
    /// 2 for a usage error, 1 for any other failure.
    pub fn status(&self) -> u8 {
        match self {
            DemoFailure::Words(_) | DemoFailure::NotText => 2,
            DemoFailure::Read
            | DemoFailure::Demo(_)
            | DemoFailure::Line(_, _)
            | DemoFailure::Operation(_)
            | DemoFailure::NotAPlan(_)
            | DemoFailure::NoMemory => 1,
        }
    }
}
