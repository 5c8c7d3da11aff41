//! Lines about a text that is edited.

use crate::subjects::{Subjects, keep};
use check_harness::answers::{
    add_any, add_count, add_done, add_flag, add_made, add_name, add_text, add_word,
};
use check_harness::buffers::Buffer;
use check_harness::troubles::Trouble;
use check_harness::words::{CallLine, Words};
use edit_text::{Text, TextPart, TextPlace};

/// The lines `new` and `read TEXT`, which make a text, and those that change it or ask. Tells whether a line is one of
/// them.
pub fn answer_of_text(subjects: &mut Subjects, line: &mut CallLine<'_>) -> Result<bool, Trouble> {
    let made = match (line.name, &mut subjects.text) {
        ("new", _) => Text::new(line.alloc),
        ("read", _) => Text::read(line.alloc, line.text().bytes()),
        (_, Some(text)) => return Ok(change(text, line) || ask(text, line)),
        (_, None) => return Ok(false),
    };
    match made {
        Ok(made) => keep(made, &mut subjects.text, &mut line.got),
        Err(fault) => add_name(&fault, &mut line.got),
    }
    Ok(true)
}

/// Adds every line, and the number of changes.
pub fn dump_text(text: &Text, bytes: &mut Buffer) {
    for line in 0..text.line_count() {
        bytes.extend(text.line(line).unwrap_or(b""));
        bytes.push(b'\n');
    }
    bytes.extend(&text.version().to_be_bytes());
}

// The lines `insert LINE COLUMN BYTE`, `insert_character LINE COLUMN CODE`, `split LINE COLUMN`, `delete LINE COLUMN`,
// which has what was deleted, and `undo`, which has a place or `none`.
fn change(text: &mut Text, line: &mut CallLine<'_>) -> bool {
    let (words, got) = (&mut line.words, &mut line.got);
    match line.name {
        "insert" => add_done(text.insert(place(words), TextPart::Byte(words.byte())), got),
        "insert_character" => {
            let place = place(words);
            let code = char::from_u32(words.number()).unwrap_or('\0');
            add_done(text.insert(place, TextPart::Character(code)), got);
        }
        "split" => add_done(text.split(place(words)), got),
        "delete" => add_made(text.delete(place(words)), got, add_part),
        "undo" => add_made(text.undo(), got, add_place),
        _ => return false,
    }
    true
}

// The lines `lines`, `line LINE`, `length LINE`, `inside LINE COLUMN`, `part LINE COLUMN`, `part_before LINE COLUMN`,
// `part_start LINE COLUMN`, `find LINE COLUMN TEXT`, `version` and `bytes`.
fn ask(text: &Text, line: &mut CallLine<'_>) -> bool {
    let (alloc, words, got) = (line.alloc, &mut line.words, &mut line.got);
    match line.name {
        "lines" => add_count(text.line_count() as u64, got),
        "line" => add_any(text.line(words.number() as usize), got, add_text),
        "length" => add_count(text.line_length(words.number() as usize) as u64, got),
        "inside" => add_flag(text.is_inside(place(words)), got),
        "part" => add_part(text.part_at(place(words)), got),
        "part_before" => add_part(text.part_before(place(words)), got),
        "part_start" => add_place(Some(text.part_start(place(words))), got),
        "find" => {
            let from = place(words);
            let sought = line.text();
            add_place(text.find(from, sought.bytes()), &mut line.got);
        }
        "version" => add_count(text.version(), got),
        "bytes" => add_made(text.bytes(alloc), got, |bytes, got| add_text(&bytes, got)),
        _ => return false,
    }
    true
}

fn place(words: &mut Words<'_>) -> TextPlace {
    let (line, column) = (words.number() as usize, words.number() as usize);
    TextPlace { line, column }
}

// Adds a part, `Character` with its code or `Byte`, or `none`.
fn add_part(part: Option<TextPart>, got: &mut Buffer) {
    add_any(part, got, |part, got| {
        let (word, number) = match part {
            TextPart::Character(character) => ("Character", u32::from(character)),
            TextPart::Byte(byte) => ("Byte", u32::from(byte)),
        };
        add_word(word, got);
        add_count(u64::from(number), got);
    });
}

// Adds a place, or `none`.
fn add_place(place: Option<TextPlace>, got: &mut Buffer) {
    add_any(place, got, |place, got| {
        add_count(place.line as u64, got);
        add_count(place.column as u64, got);
    });
}
