//! The editor of a file, as it is when the program begins.

use crate::editor::Editor;
use crate::failures::EditFailure;
use crate::files::{
    ReadFault, Seen, Stamp, bytes_of, is_free, is_read_only, name_beside, stamp_at,
};
use crate::journals::{JOURNAL_SHELVES, Journal};
use crate::messages::{Message, Said};
use crate::recovering::{Base, recovered};
use crate::saving::SaveFault;
use crate::shelves::Shelf;
use edit_text::Text;

impl Editor {
    /// An editor of a file, or of an empty text if there is none of this name. A text of it that was not saved, because
    /// its editor was killed, is made again from its journal, and put aside.
    ///
    /// Refused with `File` if the file cannot be read, and with `NoMemory` if memory runs out.
    pub fn open(rt: &HostRuntime, path: &str) -> Result<Editor, EditFailure> {
        // Before the file is read: if another program writes it in between, its next stamp is another one.
        let stamp = stamp_at(rt, path);
        match bytes_of(rt, path) {
            Ok(Some(bytes)) => opened(rt, path, &bytes, Seen::of(&bytes), stamp),
            Ok(None) => opened(rt, path, &[], Seen::NOTHING, None),
            Err(ReadFault::NoMemory) => Err(EditFailure::NoMemory),
            Err(fault) => Err(EditFailure::File(fault)),
        }
    }
}

fn opened(
    rt: &HostRuntime,
    path: &str,
    bytes: &[u8],
    seen: Seen,
    stamp: Option<Stamp>,
) -> Result<Editor, EditFailure> {
    let text = Text::read(rt.alloc(), bytes)?;
    let Ok(said) = first_said(rt, &Base { path, bytes, seen }) else {
        return Err(EditFailure::NoMemory);
    };
    match Vec::from_slice(rt.alloc(), path.as_bytes()) {
        Ok(name) => Ok(Editor::new(rt.alloc(), name, text, seen, stamp, said)),
        Err(_) => Err(EditFailure::NoMemory),
    }
}

// What is to be said of a file that is opened: of a text that was not saved, or else what can be done with the file.
fn first_said(rt: &HostRuntime, base: &Base<'_>) -> Result<Said, SaveFault> {
    if let Some(said) = recovered(rt, base)? {
        return Ok(said);
    }
    for shelf in JOURNAL_SHELVES {
        if let Some(said) = recovered_before(rt, base.path, shelf)? {
            return Ok(said);
        }
    }
    said_of_place(rt, base)
}

// Whether a text that was not saved was put aside earlier.
fn recovered_before(rt: &HostRuntime, path: &str, shelf: Shelf) -> Result<Option<Said>, SaveFault> {
    let Some(stem) = shelf.stem(rt, path)? else {
        return Ok(None);
    };
    match format!(in rt.alloc(); "{stem}.recovered") {
        Ok(name) if is_free(rt, name.as_str()) => Ok(None),
        Ok(name) => Ok(Some(Said::of(Message::Recovered, name))),
        Err(_) => Err(SaveFault::NoMemory),
    }
}

// Where a copy goes if no place takes a journal.
fn copy_name(rt: &HostRuntime, path: &str) -> Result<String, SaveFault> {
    match Shelf::Temporary.stem(rt, path)? {
        Some(stem) => name_beside(rt, stem.as_str(), "recovered", 0),
        None => Err(SaveFault::NoMemory),
    }
}

// What can be done with a file, and where its journal goes.
fn said_of_place(rt: &HostRuntime, base: &Base<'_>) -> Result<Said, SaveFault> {
    let is_new = base.seen == Seen::NOTHING;
    let (name, is_beside) = match Journal::place(rt, base.path) {
        Ok(place) => place,
        Err(SaveFault::NoMemory) => return Err(SaveFault::NoMemory),
        Err(_) => (copy_name(rt, base.path)?, false),
    };
    if !is_new && is_read_only(rt, base.path) {
        return Ok(Said::of(Message::ReadOnly, name));
    }
    Ok(match (is_beside, is_new) {
        (true, true) => Said::plain(Message::NewFile),
        (true, false) => Said::plain(Message::Nothing),
        (false, true) => Said::of(Message::NewInClosedFolder, name),
        (false, false) => Said::of(Message::ClosedFolder, name),
    })
}
