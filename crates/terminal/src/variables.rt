//! What the environment says.

use scr_cells::NoMemory;
use std::env;
use std::env::VarError;
use std::rt::Env;

// What stands for a text that is not UTF-8: it is neither a number nor the name of a locale in UTF-8.
const UNREADABLE: &str = "\u{FFFD}";

/// What a variable says, if it is set and says a text. Fails only when memory runs out.
pub(crate) fn text_of<R: Env + AllocGlobal>(
    rt: &R,
    name: &str,
) -> Result<Option<String>, NoMemory> {
    match env::var(rt, name) {
        Ok(text) => Ok(Some(text)),
        Err(VarError::OutOfMemory) => Err(NoMemory),
        Err(_) => Ok(None),
    }
}

/// What a variable says: nothing if it is not set, and U+FFFD alone if that is not UTF-8. Fails only when memory runs
/// out.
pub(crate) fn said_by<R: Env + AllocGlobal>(rt: &R, name: &str) -> Result<String, NoMemory> {
    match env::var(rt, name) {
        Ok(text) => Ok(text),
        Err(VarError::NotPresent) => Ok(String::new(rt.alloc())),
        Err(VarError::NotUnicode) => match String::from_str(rt.alloc(), UNREADABLE) {
            Ok(text) => Ok(text),
            Err(_) => Err(NoMemory),
        },
        Err(VarError::OutOfMemory) => Err(NoMemory),
    }
}
