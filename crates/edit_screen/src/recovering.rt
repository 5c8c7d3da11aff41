//! Texts that were not saved, because their editor was killed: they are made again from their journals when the file is
//! opened next, and put aside.

use crate::files::{Seen, free_name, name_beside};
use crate::journals::{JOURNAL_SHELVES, MOST_JOURNALS, is_lockable};
use crate::messages::{Message, Said};
use crate::replaying::{Trouble, base_of, replay};
use crate::saving::SaveFault;
use crate::shelves::put_aside;
use edit_text::Text;
use std::fs;
use std::fs::File;
use std::io::{ErrorKind, Read};

// What each journal begins with, of whatever version.
const BEGINNING: [u8; 12] = *b"edit journal";

/// A file, and what it has.
#[derive(Clone, Copy)]
pub(crate) struct Base<'a> {
    pub(crate) path: &'a str,
    pub(crate) bytes: &'a [u8],
    pub(crate) seen: Seen,
}

// What comes of a journal.
#[derive(Drop)]
enum Remade {
    // The text, with all of its changes.
    Whole(Vec<u8>),
    // The text with its changes up to a line that is damaged.
    InPart(Vec<u8>),
    // Its changes were made to another text.
    OfAnotherText,
    // It is no journal, or memory ran out.
    Nothing,
}

/// Makes texts of a file again that were not saved, and puts them aside. Gives what is to be said of the first, if
/// there is one. Journals that cannot be used stay.
///
/// Refused if memory runs out for names.
pub(crate) fn recovered(rt: &HostRuntime, base: &Base<'_>) -> Result<Option<Said>, SaveFault> {
    let mut first = None;
    for shelf in JOURNAL_SHELVES {
        if let Some(stem) = shelf.stem(rt, base.path)?
            && let Some(said) = recovered_beside(rt, stem.as_str(), base)?
            && first.is_none()
        {
            first = Some(said);
        }
    }
    Ok(first)
}

fn recovered_beside(
    rt: &HostRuntime,
    stem: &str,
    base: &Base<'_>,
) -> Result<Option<Said>, SaveFault> {
    let mut first = None;
    for number in 0..MOST_JOURNALS {
        let name = name_beside(rt, stem, "journal", number)?;
        let said = recovered_from(rt, name, base);
        if first.is_none() {
            first = said;
        }
    }
    Ok(first)
}

// Does so with one journal, unless its editor still runs.
fn recovered_from(rt: &HostRuntime, name: String, base: &Base<'_>) -> Option<Said> {
    if !is_journal(rt, name.as_str()) {
        return None;
    }
    match File::open(rt, name.as_str()) {
        Ok(file) if is_lockable(&file) => settled(rt, name, base),
        Ok(_) => Some(Said::of(Message::ChangedElsewhere, name)),
        Err(error) if error.kind() == ErrorKind::NotFound => None,
        Err(_) => Some(Said::of(Message::NotRecovered, name)),
    }
}

// Whether a file begins as journals do, or cannot be opened. Other files of such a name are let alone; a pipe is not
// even opened, since that may wait.
fn is_journal(rt: &HostRuntime, name: &str) -> bool {
    match fs::metadata(rt, name) {
        Ok(metadata) if metadata.is_file() => {}
        _ => return false,
    }
    let mut beginning = [0; BEGINNING.len()];
    match File::open(rt, name) {
        Ok(mut file) => file.read_exact(&mut beginning).is_ok() && beginning == BEGINNING,
        Err(_) => true,
    }
}

fn settled(rt: &HostRuntime, name: String, base: &Base<'_>) -> Option<Said> {
    match read_again(rt, name.as_str(), base) {
        Remade::Whole(bytes) if bytes.as_slice() == base.bytes => {
            let _ = fs::remove_file(rt, name.as_str());
            None
        }
        Remade::Whole(bytes) => Some(put(rt, name, base, &bytes, Message::Recovered)),
        Remade::InPart(bytes) => Some(put(rt, name, base, &bytes, Message::RecoveredInPart)),
        Remade::OfAnotherText => Some(Said::of(Message::OfAnotherText, name)),
        Remade::Nothing => Some(Said::of(Message::NotRecovered, name)),
    }
}

// Puts a text aside in the place of its journal; a journal that is damaged gets another name.
fn put(rt: &HostRuntime, name: String, base: &Base<'_>, bytes: &[u8], message: Message) -> Said {
    let Ok(recovered) = put_aside(rt, base.path, "recovered", bytes) else {
        return Said::of(Message::NotRecovered, name);
    };
    if message == Message::Recovered {
        let _ = fs::remove_file(rt, name.as_str());
    } else if let Ok(damaged) = free_name(rt, name.as_str(), "damaged") {
        let _ = fs::rename(rt, name.as_str(), damaged.as_str());
    }
    Said::of(message, recovered)
}

// Reads a journal, and makes its changes again.
fn read_again(rt: &HostRuntime, name: &str, base: &Base<'_>) -> Remade {
    let (Ok(journal), Ok(mut text)) = (fs::read(rt, name), Text::read(rt.alloc(), base.bytes))
    else {
        return Remade::Nothing;
    };
    match base_of(&journal) {
        Some((seen, lines)) if seen == base.seen => made_again(rt, &mut text, lines),
        Some(_) => Remade::OfAnotherText,
        None => Remade::Nothing,
    }
}

fn made_again(rt: &HostRuntime, text: &mut Text, lines: &[u8]) -> Remade {
    let made = replay(text, lines);
    match (made, text.bytes(rt.alloc())) {
        (Ok(()), Ok(bytes)) => Remade::Whole(bytes),
        (Err(Trouble::Damaged), Ok(bytes)) => Remade::InPart(bytes),
        _ => Remade::Nothing,
    }
}
