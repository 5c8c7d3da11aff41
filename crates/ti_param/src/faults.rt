//! Why a text is not a parameter string, and why a program cannot run.

use thiserror::Error;

/// Why a text is not a parameter string: its leftmost error, by the index of its `%`, in bytes from
/// 0 (terminfo(5), 'Parameterized Strings').
#[derive(Clone, Copy, Debug, PartialEq, Eq, Error)]
pub enum ParamFault {
    /// The text ends inside the directive at this index, whatever the size of its numbers.
    #[error("truncated directive at byte {0}")]
    Truncated(usize),
    /// At this index there is no valid directive; or a `%t`, `%e` or `%;` that cannot be there; or
    /// a width or precision above 99, or a constant above 2,147,483,647.
    #[error("bad directive at byte {0}")]
    BadDirective(usize),
    /// At this index there is `%s`, also with flags, width and precision, or `%l`: no parameter is
    /// a text here.
    #[error("string operator at byte {0}")]
    StringOperator(usize),
    /// A 33rd conditional (`%?`) would be open at once.
    #[error("conditionals nested too deep")]
    TooDeep,
    /// Memory ran out.
    #[error("out of memory")]
    NoMemory,
}

/// Why a program could not run; nothing has changed.
#[derive(Clone, Copy, Debug, PartialEq, Eq, Error)]
pub enum RunFault {
    /// The program pushes a 21st value.
    #[error("stack full")]
    StackFull,
    /// Memory ran out.
    #[error("out of memory")]
    NoMemory,
}
