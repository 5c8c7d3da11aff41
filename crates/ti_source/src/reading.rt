//! Reading a source: lines, fields, the forms of fields, and the entries made of them.

pub(crate) mod entries;
pub(crate) mod entry_view;
pub(crate) mod escape;
pub(crate) mod field;
pub(crate) mod keyed_hasher;
pub(crate) mod line;
pub(crate) mod lines;
pub(crate) mod meaning;
pub(crate) mod number;
pub(crate) mod open_entry;
pub(crate) mod reader;
pub(crate) mod statement;
pub(crate) mod wanted;
