//! What keys ask of the program around the editor: to save the text.

use crate::editor::{Editor, Mode, Request};
use crate::files::{seen_at, stamp_at};
use crate::keeping::path_now;
use crate::messages::Message;
use crate::saving::{SaveFault, Saved, save, save_as};

/// Does what a key asks for, if that is to save. What suspends a program is not given to it as a key.
pub(crate) fn answer_request(rt: &HostRuntime, path: &str, editor: &mut Editor, request: Request) {
    match request {
        Request::Save => save_text(rt, path, editor, false),
        Request::Overwrite => save_text(rt, path, editor, true),
        Request::SaveAs => save_named(rt, path, editor),
        Request::Suspend => editor.message = Message::CannotSuspend,
        Request::Nothing | Request::Leave | Request::Repaint => {}
    }
}

// Saves the text, and says how that ended.
fn save_text(rt: &HostRuntime, path: &str, editor: &mut Editor, overwrites: bool) {
    let saved = save(
        rt,
        path_now(&editor.renamed, path),
        &editor.text,
        editor.seen,
        overwrites,
        &mut editor.kept,
    );
    match saved {
        Ok(saved) => say_saved(rt, path, editor, saved),
        Err(fault) => say_not_saved(rt, path, editor, fault),
    }
}

fn say_saved(rt: &HostRuntime, path: &str, editor: &mut Editor, saved: Saved) {
    let stamp = stamp_at(rt, path_now(&editor.renamed, path));
    editor.forget_kept(rt);
    editor.mark_saved(saved.seen, stamp);
    editor.message = if saved.before.is_some() {
        Message::SavedBefore
    } else {
        Message::Saved
    };
    editor.named = saved.before;
}

// Where another program has changed the file, the next key may be to overwrite it.
fn say_not_saved(rt: &HostRuntime, path: &str, editor: &mut Editor, fault: SaveFault) {
    match fault {
        SaveFault::Changed => editor.mode = Mode::Overwriting,
        SaveFault::Torn => tell_copy(rt, path, editor),
        _ => {}
    }
    editor.message = Message::CannotSave(fault);
}

// A write left the file damaged: a copy has the text, and the next one may write over what is left.
fn tell_copy(rt: &HostRuntime, path: &str, editor: &mut Editor) {
    if let Ok(seen) = seen_at(rt, path_now(&editor.renamed, path)) {
        editor.seen = seen;
    }
    editor.named = match &editor.kept {
        Some(kept) => String::from_str(rt.alloc(), kept.name()).ok(),
        None => None,
    };
}

// Saves the text under the name that was typed, which it keeps if that ends well.
fn save_named(rt: &HostRuntime, path: &str, editor: &mut Editor) {
    match named(rt, editor) {
        Ok(saved) => say_saved(rt, path, editor, saved),
        Err(fault) => editor.message = Message::CannotSave(fault),
    }
}

fn named(rt: &HostRuntime, editor: &mut Editor) -> Result<Saved, SaveFault> {
    let Ok(name) = str::from_utf8(&editor.answer) else {
        return Err(SaveFault::NotText);
    };
    let saved = save_as(rt, name, &editor.text, &mut editor.kept)?;
    let (Ok(path), Ok(shown)) = (
        String::from_str(rt.alloc(), name),
        Vec::from_slice(rt.alloc(), name.as_bytes()),
    ) else {
        return Err(SaveFault::NoMemory);
    };
    editor.renamed = Some(path);
    editor.name = shown;
    Ok(saved)
}
