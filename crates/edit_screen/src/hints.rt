//! What the row of keys says.

use crate::editor::Mode;

/// A key, and what it does.
pub(crate) type Hint = (&'static str, &'static str);

/// What keys do while keys are read in this way, the most needed first.
pub(crate) fn hints_of(mode: Mode) -> &'static [Hint] {
    match mode {
        Mode::Text => &TEXT,
        Mode::Literal => &LITERAL,
        Mode::Find => &FIND,
        Mode::Name => &NAME,
        Mode::Leaving => &LEAVING,
        Mode::Overwriting => &OVERWRITING,
    }
}

const TEXT: [Hint; 9] = [
    ("^S", "Save"),
    ("^X", "Exit"),
    ("^F", "Find"),
    ("^K", "Cut"),
    ("^U", "Paste"),
    ("M-U", "Undo"),
    ("M-E", "Redo"),
    ("^O", "Save as"),
    ("^N", "Next"),
];

const LITERAL: [Hint; 1] = [("any key", "Inserts its byte")];

const FIND: [Hint; 2] = [("Enter", "Find, or find again"), ("^C", "Cancel")];

const NAME: [Hint; 2] = [("Enter", "Save"), ("^C", "Cancel")];

const LEAVING: [Hint; 3] = [
    ("^S", "Save"),
    ("^X", "Leave without saving"),
    ("^C", "Cancel"),
];

const OVERWRITING: [Hint; 3] = [("^S", "Save over it"), ("^O", "Save as"), ("^C", "Cancel")];
