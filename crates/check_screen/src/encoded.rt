//! Lines about texts in UTF-8 that are made up, with bytes between their characters that belong to none: such texts are
//! typed, or fed to an emulated screen.

use crate::ecma_screens::print_state;
use crate::keys::add_items;
use check_harness::answers::{add_number, add_word};
use check_harness::buffers::{Buffer, are_same};
use check_harness::random::Random;
use check_harness::troubles::Trouble;
use check_harness::words::CallLine;
use generated_sessions::scalar;
use scr_cells::{Attrs, Cell, Charset, Size};
use scr_keys::{Key, TypedReader};
use scr_terminal::EcmaScreen;
use std::alloc::Global;

// How many parts a text has, and the columns of a screen that has room for them.
const PARTS: u32 = 24;

const COLUMNS: u32 = 40;

// What belongs to no character, byte by byte from the first to the last of its values (RFC 3629, sections 3 and 4): a
// byte that goes on where none began, one that is never used, a character that is spelled too long, a surrogate, and
// what is above U+10FFFF.
static BROKEN: [&[(u8, u8)]; 7] = [
    &[(0x80, 0xbf)],
    &[(0xf5, 0xff)],
    &[(0xc0, 0xc1), (0x80, 0xbf)],
    &[(0xe0, 0xe0), (0x80, 0x9f), (0x80, 0xbf)],
    &[(0xed, 0xed), (0xa0, 0xbf), (0x80, 0xbf)],
    &[(0xf0, 0xf0), (0x80, 0x8f), (0x80, 0xbf), (0x80, 0xbf)],
    &[(0xf4, 0xf4), (0x90, 0xbf), (0x80, 0xbf), (0x80, 0xbf)],
];

// A part of a text.
#[derive(Drop)]
struct TextPart {
    bytes: Buffer,
    // What the bytes encode; without it, each of them belongs to no character.
    value: Option<char>,
    // Whether the bytes begin a character of which no more comes.
    is_cut: bool,
}

/// The lines `typed_texts COUNT SEED` and `fed_texts COUNT SEED`: so many texts are typed, or fed to screens that speak
/// UTF-8. Of what is typed, each character beyond ASCII has to come as one, and every other byte as it is. Of what is
/// fed, each character of one column has to be shown; all else has to be undefined, with the screen as it was before.
/// Adds `agrees`, or the number of the first text that does not, with what came or what is shown.
pub fn check_texts(line: &mut CallLine<'_>) -> Result<(), Trouble> {
    let (count, seed) = (line.words.number(), line.words.number());
    let mut random = Random::new(seed);
    let mut got = Buffer::new(line.alloc);
    for number in 0..count {
        got.clear();
        let agrees = match line.name {
            "typed_texts" => is_typed(line.alloc, &mut random, &mut got)?,
            _ => is_fed(line.alloc, &mut random, &mut got)?,
        };
        if !agrees {
            add_number(i64::from(number), &mut line.got);
            line.got.extend(got.bytes());
            return Ok(());
        }
    }
    add_word("agrees", &mut line.got);
    Ok(())
}

// Types a text, and tells whether what comes is what it has.
fn is_typed(alloc: Global, random: &mut Random, got: &mut Buffer) -> Result<bool, Trouble> {
    let (mut reader, mut wanted) = (TypedReader::new(), Buffer::new(alloc));
    for _ in 0..PARTS {
        let part = next_part(alloc, random);
        part.bytes.done()?;
        for byte in part.bytes.bytes() {
            add_items(reader.key(Key::Byte(*byte)), got);
        }
        if part.is_cut {
            add_items(reader.idle(), got);
        }
        part.add_typed(&mut wanted);
    }
    are_same(got, &wanted)
}

// Feeds a text up to the first part that shows nothing, some of which are left out, and tells whether the screen shows
// what was before it.
fn is_fed(alloc: Global, random: &mut Random, got: &mut Buffer) -> Result<bool, Trouble> {
    let size = Size::new(1, COLUMNS).ok_or(Trouble::Bad("no size"))?;
    let mut screen = EcmaScreen::new_as(alloc, size, Charset::Utf8)?;
    let (mut row, mut column) = (Buffer::new(alloc), 0u32);
    for _ in 0..PARTS {
        let mut part = next_part(alloc, random);
        if part.is_cut {
            part.bytes.push(b'A');
        }
        part.bytes.done()?;
        if part.is_shown() {
            row.extend(part.bytes.bytes());
            column = column.saturating_add(1);
            if !takes(&mut screen, part.bytes.bytes()) {
                return Ok(false);
            }
        } else if random.below(4) == 0 {
            if screen.feed(part.bytes.bytes()).is_ok() {
                return Ok(false);
            }
            break;
        }
    }
    row.done()?;
    let mut wanted = Buffer::new(alloc);
    add_state(&row, column, &mut wanted);
    print_state(&screen, got);
    are_same(got, &wanted)
}

// Feeds the bytes of a character one at a time, and tells whether the screen waits after each but the last.
fn takes(screen: &mut EcmaScreen, bytes: &[u8]) -> bool {
    let mut left = bytes.len();
    for byte in bytes {
        left = left.saturating_sub(1);
        if screen.feed(&[*byte]).is_err() || screen.waiting() != (left > 0) {
            return false;
        }
    }
    true
}

// Adds the state of a screen that shows so many characters in its row, as `print_state` has it.
fn add_state(row: &Buffer, columns: u32, text: &mut Buffer) {
    text.push(b'|');
    text.extend(row.bytes());
    for _ in columns..COLUMNS {
        text.push(b' ');
    }
    text.extend(b"|\ncursor 0");
    add_number(i64::from(columns), text);
    text.extend(b"\non 0\n");
}

// A part of a text: a scalar value beyond ASCII, of any plane; a letter; the beginning of a character, of which the
// last byte does not come; or some bytes that belong to none.
fn next_part(alloc: Global, random: &mut Random) -> TextPart {
    let mut bytes = Buffer::new(alloc);
    let value = match scalar(random) {
        value if value.is_ascii() => 'é',
        value => value,
    };
    let mut encoded = [0; 4];
    let encoded = value.encode_utf8(&mut encoded).as_bytes();
    let kind = random.below(8);
    match kind {
        0..4 => bytes.extend(encoded),
        4 => bytes.push(b'x'),
        5 => {
            let count = encoded.len().saturating_sub(1);
            encoded
                .iter()
                .take(count)
                .for_each(|byte| bytes.push(*byte));
        }
        _ => add_broken(random, &mut bytes),
    }
    TextPart {
        bytes,
        value: match kind {
            0..4 => Some(value),
            4 => Some('x'),
            _ => None,
        },
        is_cut: kind == 5,
    }
}

// Adds bytes that belong to no character, whatever stands around them.
fn add_broken(random: &mut Random, bytes: &mut Buffer) {
    let kind = random.below(7) as usize;
    for (first, last) in BROKEN.get(kind).copied().unwrap_or(&[]) {
        let more = random.below(u32::from(last.saturating_sub(*first)).saturating_add(1));
        bytes.push(first.saturating_add(u8::try_from(more).unwrap_or(0)));
    }
}

impl TextPart {
    // Whether a screen that speaks UTF-8 shows it.
    fn is_shown(&self) -> bool {
        match self.value {
            Some(value) => Cell::of(value, Attrs(0), 0).is_some(),
            None => false,
        }
    }

    // Adds what comes where it is typed, as `add_items` does.
    fn add_typed(&self, wanted: &mut Buffer) {
        match self.value {
            Some(value) if !value.is_ascii() => {
                add_word("Character", wanted);
                add_number(i64::from(u32::from(value)), wanted);
            }
            _ => {
                for byte in self.bytes.bytes() {
                    add_word("Byte", wanted);
                    add_number(i64::from(*byte), wanted);
                }
            }
        }
    }
}
