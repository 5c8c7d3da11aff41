//! What was done to the text, so that it is undone, and done again, by words.

use crate::view::is_blank;
use edit_text::{TextPart, TextPlace};
use std::alloc::{AllocError, Global};

/// What ends a line.
pub(crate) const LINE_FEED: TextPart = TextPart::Byte(b'\n');

/// What an edit did at a place. A line feed that is inserted splits the line; one that is deleted joins the next line.
#[derive(Clone, Copy)]
pub(crate) enum Change {
    Inserted(TextPart),
    Deleted(TextPart),
}

impl Change {
    /// What undoes it at its place.
    pub(crate) fn opposite(self) -> Change {
        match self {
            Change::Inserted(part) => Change::Deleted(part),
            Change::Deleted(part) => Change::Inserted(part),
        }
    }
}

/// The step that an edit belongs to. What is undone, or done again, is a whole step.
#[derive(Clone, Copy)]
pub(crate) enum Step {
    /// A new one, unless it goes on typing, or deleting, the same word.
    Word,
    /// A new one.
    New,
    /// That of the edit before.
    Same,
}

/// An edit that was made.
#[derive(Clone, Copy)]
pub(crate) struct Made {
    pub(crate) place: TextPlace,
    pub(crate) change: Change,
    /// Whether a step begins with it.
    pub(crate) begins: bool,
}

/// The edits that were made, and those that were undone, the last one at the end.
#[derive(Drop)]
pub(crate) struct History {
    made: Vec<Made>,
    undone: Vec<Made>,
    // What was typed or deleted last, and where that ended, if the same word may go on.
    last_change: Option<(Change, TextPlace)>,
}

impl History {
    /// Nothing was done.
    pub(crate) fn new(alloc: Global) -> History {
        History {
            made: Vec::new(alloc),
            undone: Vec::new(alloc),
            last_change: None,
        }
    }

    /// Adds an edit before it is made. Fails only when memory runs out.
    pub(crate) fn add(
        &mut self,
        place: TextPlace,
        change: Change,
        step: Step,
    ) -> Result<(), AllocError> {
        let begins = match step {
            Step::Word => !self.goes_on(place, change),
            Step::New => true,
            Step::Same => false,
        };
        match self.made.push(Made {
            place,
            change,
            begins,
        }) {
            Ok(()) => Ok(()),
            Err(_) => Err(AllocError),
        }
    }

    /// Drops the edit that was added last, which could not be made.
    pub(crate) fn drop_last(&mut self) {
        let _ = self.made.pop();
    }

    /// An edit was made that ended at a place: what was undone before it cannot be done again.
    pub(crate) fn settle(&mut self, change: Change, end: TextPlace) {
        self.undone.clear();
        self.last_change = Some((change, end));
    }

    /// The next edit begins a step.
    pub(crate) fn end_step(&mut self) {
        self.last_change = None;
    }

    /// The last edit that is not undone.
    pub(crate) fn last(&self) -> Option<Made> {
        self.made.last().copied()
    }

    /// The last edit that was undone.
    pub(crate) fn last_undone(&self) -> Option<Made> {
        self.undone.last().copied()
    }

    /// The last edit was undone. Where memory runs out, nothing that was undone can be done again.
    pub(crate) fn take_back(&mut self) {
        self.end_step();
        if let Some(made) = self.made.pop()
            && self.undone.push(made).is_err()
        {
            self.undone.clear();
        }
    }

    /// Adds the edit that was undone last, before it is made again. Fails only when memory runs out.
    pub(crate) fn add_again(&mut self, made: Made) -> Result<(), AllocError> {
        self.end_step();
        match self.made.push(made) {
            Ok(()) => Ok(()),
            Err(_) => Err(AllocError),
        }
    }

    /// The edit that was undone last was made again.
    pub(crate) fn settle_again(&mut self) {
        let _ = self.undone.pop();
    }

    // Whether an edit goes on typing, or deleting, the word that the last one was in.
    fn goes_on(&self, place: TextPlace, change: Change) -> bool {
        match (self.last_change, change) {
            (Some((Change::Inserted(before), end)), Change::Inserted(part)) => {
                !begins_word(before, part) && place == end
            }
            (Some((Change::Deleted(before), end)), Change::Deleted(part)) => {
                !begins_word(before, part) && (place == end || place_after(place, part) == end)
            }
            _ => false,
        }
    }
}

// Whether a word begins with a part after another.
fn begins_word(before: TextPart, part: TextPart) -> bool {
    is_blank(before) && !is_blank(part)
}

/// The place after a part that is at a place.
pub(crate) fn place_after(place: TextPlace, part: TextPart) -> TextPlace {
    if part == LINE_FEED {
        return TextPlace {
            line: place.line.saturating_add(1),
            column: 0,
        };
    }
    TextPlace {
        line: place.line,
        column: place.column.saturating_add(part.len()),
    }
}

/// Whether a place is another one, or before it.
pub(crate) fn is_up_to(place: TextPlace, other: TextPlace) -> bool {
    place.line < other.line || place.line == other.line && place.column <= other.column
}
