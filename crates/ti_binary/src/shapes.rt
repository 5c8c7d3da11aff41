//! The sizes of a file's sections, as in its header.
ghost use Rattle.std.specs.Prelude.{◌≡◌, ◌≤◌, ◌+◌, ◌*◌, ◌%◌, ◌==◌, length};
ghost use Rattle.ti_caps.specs.Description.{IsDescription};
ghost use Rattle.ti_binary.specs.Canonical.{renamed};
ghost use Rattle.ti_binary.specs.Shapes.{IsShape};

use crate::counts::{flag_count, number_count, table_size, text_count};
use ti_caps::Entry;

/// The sizes of a file's sections.
#[derive(Drop)]
pub(crate) struct Shape {
    /// The number of bytes of the names and their NUL.
    pub(crate) names: u16,
    /// The number of flags.
    pub(crate) flags: u16,
    /// The number of numbers.
    pub(crate) numbers: u16,
    /// The number of offsets of texts.
    pub(crate) texts: u16,
    /// The number of bytes of the string table, or one more than a file may have.
    pub(crate) table: u16,
}

impl Shape {
    /// String tables of this size and above are not distinguished.
    const MOST_TABLE: u16 = 4_097;

    /// The sizes for an entry with these names.
    pub(crate) fn of(entry: &Entry, names: &[u8]) -> Shape
        requires described { IsDescription entry.now }
        requires names { length names.now ≤ 511 }
        ensures { IsShape (renamed entry.now names.now) result }
    {
        let texts = text_count(entry);
        Shape {
            names: names.len() as u16 + 1,
            flags: flag_count(entry),
            numbers: number_count(entry),
            texts,
            table: table_size(entry, texts, Self::MOST_TABLE),
        }
    }

    /// Whether there is a byte between flags and numbers, so that the numbers begin at an even
    /// offset.
    pub(crate) fn is_odd(&self) -> bool
        requires names { self.now.names ≤ 512 }
        requires flags { self.now.flags ≤ 64 }
        ensures { result ≡ ((self.now.names + self.now.flags) % 2 == 1) }
    {
        (self.names + self.flags) % 2 == 1
    }

    /// The number of bytes of the file.
    pub(crate) fn file_size(&self) -> u16
        requires names { self.now.names ≤ 512 }
        requires flags { self.now.flags ≤ 64 }
        requires numbers { self.now.numbers ≤ 64 }
        requires texts { self.now.texts ≤ 512 }
        requires table { self.now.table ≤ 4097 }
        ensures { result ≡ 12 + self.now.names + self.now.flags + (self.now.names + self.now.flags) % 2 + 2 * self.now.numbers + 2 * self.now.texts + self.now.table }
    {
        let counted = 12 + self.names + self.flags + (self.names + self.flags) % 2;
        counted + 2 * self.numbers + 2 * self.texts + self.table
    }
}
