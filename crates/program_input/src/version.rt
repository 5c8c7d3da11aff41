//! The version of the library and of its programs.

/// The version of the library and of its programs; `HUTTAVEL_VERSION` in `include/huttavel.h` is the
/// same.
pub const VERSION: &str = "0.1.0";
