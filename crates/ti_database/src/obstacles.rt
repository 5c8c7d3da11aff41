//! Why something that is there is not read.

use std::fmt;
use std::fmt::{Display, Formatter};

/// Why what is at a path cannot be read as a file.
#[derive(Clone, Copy, Debug, PartialEq, Eq)]
pub enum Obstacle {
    /// It is a folder.
    Folder,
    /// A permission is missing, for it or for a folder on the way to it.
    NotPermitted,
    /// Anything else.
    Unread,
}

impl Display for Obstacle {
    fn fmt<W: fmt::Write>(&self, f: &mut Formatter<W>) -> fmt::Result {
        f.write_str(match self {
            Obstacle::Folder => "is a folder",
            Obstacle::NotPermitted => "permission denied",
            Obstacle::Unread => "cannot be read",
        })
    }
}
