//! Resolving entries: following their `use=`.

pub(crate) mod fields;
pub(crate) mod first_fields;
pub(crate) mod leading;
pub(crate) mod listing;
pub(crate) mod marks;
pub(crate) mod merge;
pub(crate) mod resolver;
pub(crate) mod walk;
