//! Printing an entry as source text.

pub(crate) mod printer;
