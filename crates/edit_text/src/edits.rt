//! Edits, as what is kept of each to undo it. The definitions are in `specs/Code/Edits.antt`.
ghost use Rattle.std.specs.Prelude.{◌≡◌};
ghost use Rattle.edit_text.specs.Code.Edits.{place_of};

use crate::parts::TextPart;
use crate::places::TextPlace;

// An edit that was made at a place.
#[derive(Clone, Copy)]
pub(crate) enum Edit {
    // This part was inserted.
    Inserted(TextPlace, TextPart),
    // This part was deleted.
    Deleted(TextPlace, TextPart),
    // The line was split.
    Split(TextPlace),
    // The next line was joined to the line that ended there.
    Joined(TextPlace),
}

impl Edit {
    // Where it was made.
    pub(crate) fn place(self) -> TextPlace
        ensures { result ≡ place_of self }
    {
        match self {
            Edit::Inserted(place, _)
            | Edit::Deleted(place, _)
            | Edit::Split(place)
            | Edit::Joined(place) => place,
        }
    }
}
