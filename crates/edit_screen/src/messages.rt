//! What the editor says of the last key in its last row.

use crate::saving::SaveFault;

/// What is said of the last key.
#[derive(Clone, Copy, PartialEq, Eq)]
pub(crate) enum Message {
    Nothing,
    NewFile,
    // These name where what is typed is kept: beside the file nothing can be, or the file may not be written.
    ReadOnly,
    ClosedFolder,
    NewInClosedFolder,
    // These name the file that they are about: what was found of a text that was not saved.
    Recovered,
    RecoveredInPart,
    OfAnotherText,
    NotRecovered,
    ChangedElsewhere,
    Saved,
    SavedBefore,
    NotSaved,
    CannotSave(SaveFault),
    CannotSuspend,
    // Said by a script alone, which goes on.
    Left,
    NotFound,
    // What was looked for was found, but not after the cursor.
    Again,
    NothingToFind,
    NothingToUndo,
    NothingToRedo,
    NothingToCut,
    NothingToPaste,
    NoCommand,
    NoMemory,
}

/// A message, and the file that it names, if it names one.
#[derive(Drop)]
pub(crate) struct Said {
    pub(crate) message: Message,
    pub(crate) named: Option<String>,
}

impl Said {
    /// A message that names no file.
    pub(crate) fn plain(message: Message) -> Said {
        Said {
            message,
            named: None,
        }
    }

    /// A message that names a file.
    pub(crate) fn of(message: Message, name: String) -> Said {
        Said {
            message,
            named: Some(name),
        }
    }
}

impl Message {
    /// Whether there is nothing to say.
    pub(crate) fn is_empty(&self) -> bool {
        matches!(self, Message::Nothing)
    }

    /// What comes before the words.
    pub(crate) fn beginning(&self) -> &'static str {
        match self {
            Message::CannotSave(_) => "NOT SAVED: ",
            _ => "",
        }
    }

    /// Whether the name of a file ends it.
    pub(crate) fn names_file(&self) -> bool {
        matches!(
            self,
            Message::ReadOnly
                | Message::ClosedFolder
                | Message::NewInClosedFolder
                | Message::Recovered
                | Message::RecoveredInPart
                | Message::OfAnotherText
                | Message::NotRecovered
                | Message::ChangedElsewhere
                | Message::SavedBefore
                | Message::CannotSave(SaveFault::Torn)
        )
    }

    /// The words of a message.
    pub(crate) fn words(&self) -> &'static str {
        match self {
            Message::Nothing => "",
            Message::NewFile => "new file",
            Message::ReadOnly => "the file may not be written: kept in ",
            Message::ClosedFolder => "its folder may not be written: kept in ",
            Message::NewInClosedFolder => "new file; its folder may not be written: kept in ",
            Message::Recovered => "what was not saved is in ",
            Message::RecoveredInPart => "a damaged journal: what came before the damage is in ",
            Message::OfAnotherText => "the file was changed after these changes to it: ",
            Message::NotRecovered => "what was not saved cannot be read from ",
            Message::ChangedElsewhere => "another editor has changes that are not saved in ",
            Message::Saved => "saved",
            Message::SavedBefore => "saved; what another program wrote is in ",
            Message::NotSaved => "not saved: ^S saves, ^X leaves without saving",
            Message::CannotSave(fault) => fault.words(),
            Message::CannotSuspend => "cannot be suspended: not run by run-on-terminal",
            Message::Left => "left",
            Message::NotFound => "not found",
            Message::Again => "again from the beginning",
            Message::NothingToFind => "nothing to look for",
            Message::NothingToUndo => "nothing to undo",
            Message::NothingToRedo => "nothing to redo",
            Message::NothingToCut => "nothing to cut",
            Message::NothingToPaste => "nothing to paste: ^K cuts a line",
            Message::NoCommand => "this key does nothing",
            Message::NoMemory => "out of memory",
        }
    }
}
