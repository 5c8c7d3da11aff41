//! Lines about what the terminal of a screen shows, what it is to show, and what was sent.

use crate::pictures::{add_seen, add_wish};
use crate::terminals::add_at;
use check_harness::answers::{add_count, add_name, add_text, add_text_shown, add_word};
use check_harness::buffers::Buffer;
use check_harness::texts::write_byte;
use check_harness::troubles::Trouble;
use check_harness::words::CallLine;
use generated_sessions::{Recorded, add_spot};
use scr_term::Op;

/// The lines `shown_rows`, `shown_cursor`, `shown R C` about the emulated screen, `picture_rows`, `picture_at R C` and
/// `wish` about the picture, `most`, how many bytes the next update may send, `sent`, what the last one sent,
/// `first_sent N`, the first N bytes of that, and `begun`, the operations that the last update began. Tells whether a
/// line is one of them.
pub fn answer_of_shown(opened: &Recorded, line: &mut CallLine<'_>) -> Result<bool, Trouble> {
    let (emulated, picture) = (&opened.emulated, opened.screen.picture());
    let (words, got) = (&mut line.words, &mut line.got);
    match line.name {
        "shown_rows" => {
            for row in 0..emulated.size().rows {
                add_text_shown(emulated.row(row), got);
            }
        }
        "shown_cursor" => add_spot(emulated.spot(), got),
        "shown" => add_at(emulated.row(words.number()), words.number(), got)?,
        "picture_rows" | "picture_at" => return add_seen(picture, line),
        "wish" => add_wish(picture, got),
        "most" => match opened.most()? {
            Some(bytes) => add_count(bytes as u64, got),
            None => add_word("unknown", got),
        },
        "sent" => add_text(opened.last_sent(), got),
        "first_sent" => {
            let (count, sent) = (words.number() as usize, opened.last_sent());
            add_text(sent.get(..count).unwrap_or(sent), got)
        }
        "begun" => add_begun(opened.last_begun(), got),
        _ => return Ok(false),
    }
    Ok(true)
}

// Adds operations, with characters one after another as a text, or `none`.
fn add_begun(ops: &[Op], got: &mut Buffer) {
    if ops.is_empty() {
        add_word("none", got);
    }
    let mut is_text = false;
    for op in ops {
        is_text = add_begun_op(*op, is_text, got);
    }
    if is_text {
        got.push(b'"');
    }
}

// Adds an operation after others, of which the last are characters of a text or not, and tells whether it is one.
fn add_begun_op(op: Op, is_text: bool, got: &mut Buffer) -> bool {
    if let Op::Put(byte) = op {
        if !is_text {
            got.extend(b" \"");
        }
        write_byte(byte, got);
        return true;
    }
    if is_text {
        got.push(b'"');
    }
    add_name(&op, got);
    false
}
