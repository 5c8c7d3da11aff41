//! What is kept of a text that was not saved: while it is edited, in case that the program is killed, and where the
//! editor cannot go on.

use crate::editor::Editor;
use crate::files::stamp_at;
use crate::journals::Journal;
use crate::saving::SaveFault;
use crate::shelves::put_aside;
use std::fs;

/// How often it is tried to save a text that would be lost, where memory runs out.
const MOST_RESCUES: u32 = 3;

/// What is kept of a text that was not saved.
#[derive(Drop)]
pub(crate) enum Kept {
    /// Its changes.
    Journal(Journal),
    /// The whole text, where a journal is not possible.
    Copy(Copied),
}

/// A copy of a text.
#[derive(Drop)]
pub(crate) struct Copied {
    name: String,
    // The version of the text that it has.
    version: u64,
}

impl Kept {
    /// The name of its file.
    pub(crate) fn name(&self) -> &str {
        match self {
            Kept::Journal(journal) => journal.name(),
            Kept::Copy(copied) => copied.name.as_str(),
        }
    }

    // Whether it is a copy of this version.
    fn is_copy_of(&self, version: u64) -> bool {
        match self {
            Kept::Journal(_) => false,
            Kept::Copy(copied) => copied.version == version,
        }
    }

    fn remove(self, rt: &HostRuntime) {
        match self {
            Kept::Journal(journal) => journal.remove(rt),
            Kept::Copy(copied) => {
                let _ = fs::remove_file(rt, copied.name.as_str());
            }
        }
    }
}

/// Keeps a copy of a text in place of what was kept of it before.
///
/// Refused if memory runs out, or if no place takes one.
pub(crate) fn keep_copy(
    rt: &HostRuntime,
    path: &str,
    bytes: &[u8],
    version: u64,
    kept: &mut Option<Kept>,
) -> Result<(), SaveFault> {
    if let Some(copy) = kept
        && copy.is_copy_of(version)
    {
        return Ok(());
    }
    let name = put_aside(rt, path, "recovered", bytes)?;
    if let Some(before) = kept.replace(Kept::Copy(Copied { name, version })) {
        before.remove(rt);
    }
    Ok(())
}

/// The name under which a text was saved last, or its file's first one.
pub(crate) fn path_now<'a>(renamed: &'a Option<String>, path: &'a str) -> &'a str {
    match renamed {
        Some(name) => name.as_str(),
        None => path,
    }
}

impl Editor {
    /// Whether there are changes that were not saved and not kept.
    pub(crate) fn is_to_keep(&self) -> bool {
        if !self.is_changed() {
            return false;
        }
        match &self.kept {
            Some(Kept::Copy(copied)) => copied.version != self.text.version(),
            _ => !self.notes.is_empty() || !self.notes.is_whole(),
        }
    }

    /// Appends the changes to the journal, and makes that before the first. Answers whether they are kept so: not if
    /// what they were made to is lost, since another program has written the file, or was to be; and not if no place
    /// takes a journal.
    pub(crate) fn keep_changes(&mut self, rt: &HostRuntime, path: &str) -> bool {
        self.begin_journal(rt, path);
        let is_kept = match (&mut self.kept, self.notes.lines()) {
            (Some(Kept::Journal(journal)), Some(lines)) => journal.append(lines),
            _ => false,
        };
        if is_kept {
            self.notes.clear();
        }
        is_kept
    }

    /// Looks whether the file is still what the changes were made to. If another program has written it, they are of no
    /// use.
    pub(crate) fn look_at_file(&mut self, rt: &HostRuntime, path: &str) {
        if stamp_at(rt, path_now(&self.renamed, path)) != self.stamp {
            self.notes.give_up();
        }
    }

    fn begin_journal(&mut self, rt: &HostRuntime, path: &str) {
        self.look_at_file(rt, path);
        let path = path_now(&self.renamed, path);
        if self.kept.is_none()
            && self.notes.is_whole()
            && let Ok(journal) = Journal::begin(rt, path, self.seen)
        {
            self.kept = Some(Kept::Journal(journal));
        }
    }

    /// Copies the text, where its changes alone cannot be kept. Nothing is said if it cannot be made: it is tried again
    /// later.
    pub(crate) fn keep_text(&mut self, rt: &HostRuntime, path: &str) {
        self.notes.count_anew();
        let Ok(bytes) = self.text.bytes(rt.alloc()) else {
            return;
        };
        let path = path_now(&self.renamed, path);
        if keep_copy(rt, path, &bytes, self.text.version(), &mut self.kept).is_ok() {
            self.notes.give_up();
        }
    }

    /// Brings the journal to its disk.
    pub(crate) fn sync_kept(&mut self) {
        if let Some(Kept::Journal(journal)) = &mut self.kept {
            journal.sync();
        }
    }

    /// Removes what is kept of the text, if anything: the text was saved, or is not wanted any more.
    pub(crate) fn forget_kept(&mut self, rt: &HostRuntime) {
        if let Some(kept) = self.kept.take() {
            kept.remove(rt);
        }
    }
}

/// Saves the text of an editor that has ended, which would be lost: beside the file, with `.recovered` after the name
/// that the text was saved under last, or `.recovered.1` and so on if that is there; where no file can be made or
/// written beside the file, in the user's folder for the state of programs, or else as `edit.recovered` in the folder
/// that `TMPDIR` names, or in `/tmp`. Gives the name; if no place takes the text, that of the journal of its changes.
///
/// Refused if memory runs out, if all of a hundred names are there, or if no file can be made or written anywhere.
pub fn rescue(rt: &HostRuntime, path: &str, editor: &mut Editor) -> Result<String, SaveFault> {
    if let Err(fault) = rescue_text(rt, path, editor)
        && editor.is_to_keep()
        && !editor.keep_changes(rt, path)
    {
        return Err(fault);
    }
    kept_name(rt, &editor.kept)
}

fn kept_name(rt: &HostRuntime, kept: &Option<Kept>) -> Result<String, SaveFault> {
    match kept {
        Some(kept) => String::from_str(rt.alloc(), kept.name()).map_err(|_| SaveFault::NoMemory),
        None => Err(SaveFault::CannotCreate),
    }
}

fn rescue_text(rt: &HostRuntime, path: &str, editor: &mut Editor) -> Result<(), SaveFault> {
    // The screen's memory is free by now, so where there was none it tries again.
    for _ in 1..MOST_RESCUES {
        match rescue_once(rt, path, editor) {
            Err(SaveFault::NoMemory) => {}
            saved => return saved,
        }
    }
    rescue_once(rt, path, editor)
}

fn rescue_once(rt: &HostRuntime, path: &str, editor: &mut Editor) -> Result<(), SaveFault> {
    let Ok(bytes) = editor.text.bytes(rt.alloc()) else {
        return Err(SaveFault::NoMemory);
    };
    let path = path_now(&editor.renamed, path);
    keep_copy(rt, path, &bytes, editor.text.version(), &mut editor.kept)
}
