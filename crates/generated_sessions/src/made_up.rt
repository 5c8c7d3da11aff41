//! Lines that are made up: calls, each by its name and by what kinds of arguments it has, most of which fit.

use check_harness::answers::{add_number, add_text, add_word};
use check_harness::buffers::Buffer;
use check_harness::random::Random;
use curses::Screen;
use scr_cells::Charset;
use scr_windows::Win;
use std::alloc::Global;

// How often lines are made up, and what they have. A letter stands for an argument: a window W, another window O, a row
// R or a column C of the window, a row T or a column L of the screen where the window has room, up to a half of the
// window's rows H or columns V, a small number N, a number E not much above the last but one, a count S with a sign, a
// flag F, a byte B, attributes A, a colour pair P, one of the first Q, a colour K, one or the default D, some bytes X,
// words Z, and a graphic byte G.
static LINES: &str = "\
    30 add_text 0 Z, 6 add_text 0 X, 24 move_cursor 0 R C, 8 attr_set 0 A, 6 color_set 0 P, \
    12 insert_delete_lines 0 S, 16 insert_byte 0 G A, 16 delete_byte 0, 4 clear_to_eol 0, 6 redraw_lines 0 R N, \
    2 set_pair N K K, 2 set_pair_of N D D, 4 add_byte 1 B A, 4 add_byte 2 B A, 6 noutrefresh 0, 3 noutrefresh 1, \
    6 pad_noutrefresh 2 0 N T L E E, 2 new_window H V H V, 1 new_pad H V, 3 derive W H V H V, 2 sub W H V T L, \
    1 sub_pad W H V H V, 1 resize_window W H V, 2 copy W O N N N V E E F, 2 overlay W O, 2 overwrite W O, \
    1 delete W, 2 move_window W T L, 1 move_derived W H V, 1 touch_window W, 1 untouch W, 1 touch_lines W R N F, \
    1 sync_up W, 1 sync_down W, 6 add_text W X, 2 add_byte W B A, 1 insert_byte W B A, 1 line_across W B V, \
    1 line_down W B H, 1 border W G G G G G G G B, 1 clear_to_bottom W, 1 erase W, 1 clear W, 1 delete_byte W, \
    1 insert_delete_lines W S, 2 scroll W S, 1 change_background W G A Q, 1 set_background W G A Q, \
    3 move_cursor W R C, 1 set_region W R R, 2 scroll_ok W F, 1 clear_ok W F, 1 leave_ok W F, 1 attr_on W A, \
    1 attr_off W A, 1 attr_set W A, 1 color_set W P, 1 cell_at W R C, 1 cursor W, 1 line_touched W R, \
    1 window_touched W, 1 redraw_window W, 1 set_pair P K K, 1 set_pair_of P D D, 1 pad_noutrefresh W N N H V E E";

// The same for characters beyond ASCII, on screens in UTF-8. U stands for a text, and J for the code of a character.
static BEYOND_ASCII: &str = "\
    24 add_str 0 U, 8 add_str W U, 4 add_character 0 J A, 8 insert_character 0 J A, 2 line_across_of W J V, \
    2 line_down_of W J H, 1 border_of W J J J J J J J J";

// What such texts are made of: Latin, Greek, Cyrillic, lines, blocks and braille; wide characters, one that is drawn
// over the one before it, control characters and one beyond the Basic Multilingual Plane.
static TEXTS: &str =
    "café |naïve |Ωμέγα |Жизнь |┌──┐|│  │|█▓▒░|⠿⠇|日本|e\u{301}|\u{1F600}\u{9B}|plain ";

// What texts are made of.
static WORDS: &str = "alpha |be |gamma delta |    |x|omicron\n|pi rho |                    ";

/// What makes up lines about the windows of a screen.
#[derive(Drop)]
pub struct Maker {
    alloc: Global,
    /// What it makes up.
    pub random: Random,
    /// The line that is made up.
    pub line: Buffer,
    // The window that it is about, its size, and the last two numbers that were made up.
    win: Win,
    size: (u32, u32),
    numbers: (u32, u32),
}

impl Maker {
    /// One whose numbers follow a seed, with an empty line.
    pub fn new(alloc: Global, seed: u32) -> Maker {
        Maker {
            alloc,
            random: Random::new(seed),
            line: Buffer::new(alloc),
            win: Win(0),
            size: (4, 9),
            numbers: (0, 0),
        }
    }

    /// Adds a call, in UTF-8 often one about characters beyond ASCII.
    pub fn add_call(&mut self, screen: &Screen, charset: Charset) {
        let is_beyond = charset == Charset::Utf8 && self.random.below(3) == 0;
        self.add_one_of(screen, if is_beyond { BEYOND_ASCII } else { LINES });
    }

    /// Adds a copy of a window to the virtual screen, most often of the first.
    pub fn add_taking(&mut self, screen: &Screen) {
        let taking = match self.random.below(8) {
            0 => "noutrefresh 1",
            1 => "noutrefresh W",
            2 => "pad_noutrefresh 2 0 N T L E E",
            _ => "noutrefresh 0",
        };
        self.add_words(screen, taking);
    }

    // Adds one of these lines, each as often as it says.
    fn add_one_of(&mut self, screen: &Screen, lines: &str) {
        let mut count: u32 = 0;
        for line in lines.split(',') {
            count = count.saturating_add(weighted(line).0);
        }
        let mut left = self.random.below(count);
        for line in lines.split(',') {
            let (often, words) = weighted(line);
            if left < often {
                self.add_words(screen, words);
                return;
            }
            left = left.saturating_sub(often);
        }
    }

    // Adds the words of a line, with arguments for its letters.
    fn add_words(&mut self, screen: &Screen, line: &str) {
        let win = next_window(screen, &mut self.random);
        self.be_about(screen, win);
        self.numbers = (0, 0);
        for word in line.split(' ') {
            self.add(screen, word);
        }
    }

    fn be_about(&mut self, screen: &Screen, win: Win) {
        self.win = win;
        self.size = screen.size(win).unwrap_or((4, 9));
    }

    // Adds what a letter stands for, or a word, which may be the number of a window.
    fn add(&mut self, screen: &Screen, word: &str) {
        match word {
            "S" => add_number(i64::from(self.random.signed()), &mut self.line),
            "X" | "Z" | "U" => self.add_pieces(word),
            "D" => self.add_colour(),
            _ => match self.number(screen, word) {
                Some(number) => {
                    self.numbers = (self.numbers.1, number);
                    add_number(i64::from(number), &mut self.line);
                }
                None => {
                    if let Ok(number) = word.parse::<u32>() {
                        self.be_about(screen, Win(number));
                    }
                    add_word(word, &mut self.line);
                }
            },
        }
    }

    // Adds a colour, or the default one.
    fn add_colour(&mut self) {
        if self.random.below(3) == 0 {
            add_word("-", &mut self.line);
        } else {
            add_number(i64::from(self.random.below(9)), &mut self.line);
        }
    }

    // The number that a letter stands for.
    fn number(&mut self, screen: &Screen, word: &str) -> Option<u32> {
        let (all, (rows, columns)) = (screen.screen(), self.size);
        let most = match word {
            "W" => return Some(self.win.0),
            "O" => return Some(next_window(screen, &mut self.random).0),
            "E" => return Some(self.numbers.0.saturating_add(self.random.below(5))),
            "R" => rows.saturating_sub(1),
            "C" => columns.saturating_sub(1),
            "T" => all.rows.saturating_sub(rows),
            "L" => all.columns.saturating_sub(columns),
            "H" => rows / 2,
            "V" => columns / 2,
            "N" => 2,
            _ => return plain_number(word, &mut self.random),
        };
        Some(self.random.about(most))
    }

    // Adds a text of some bytes of any kind, of words, or of characters in UTF-8.
    fn add_pieces(&mut self, kind: &str) {
        let mut text = Buffer::new(self.alloc);
        for _ in 0..self.random.below(if kind == "U" { 6 } else { 9 }) {
            match kind {
                "X" => text.push(self.random.any_byte()),
                "Z" => text.extend(piece(WORDS, 8, &mut self.random).as_bytes()),
                _ => add_characters(&mut self.random, &mut text),
            }
        }
        add_text(text.bytes(), &mut self.line);
        self.line.check(text.done().is_ok());
    }
}

// A window: most often one that is there, often one of the last four, and now and then none.
fn next_window(screen: &Screen, random: &mut Random) -> Win {
    let count = u32::try_from(screen.count()).unwrap_or(0);
    let last = count.saturating_sub(random.below(4).saturating_add(1));
    let any = random.below(count);
    let index = if random.below(2) == 0 { last } else { any };
    match screen.nth(index as usize) {
        Some(win) if random.below(16) > 0 => win,
        _ => Win(random.below(count.saturating_add(9))),
    }
}

// How often a line is made up, and its words.
fn weighted(line: &str) -> (u32, &str) {
    match line.trim_start().split_once(' ') {
        Some((often, words)) => (often.parse::<u32>().unwrap_or(0), words),
        None => (0, line),
    }
}

// The number that a letter stands for, if that does not depend on a window.
fn plain_number(word: &str, random: &mut Random) -> Option<u32> {
    Some(match word {
        "F" => random.below(2),
        "B" => u32::from(random.any_byte()),
        "G" => random.below(94).saturating_add(33),
        "A" => u32::from(random.attributes()),
        "P" => random.pair(),
        "Q" => random.below(4),
        "K" => random.below(9),
        "J" => code(random),
        _ => return None,
    })
}

// One of so many pieces of a text.
fn piece<'a>(pieces: &'a str, count: u32, random: &mut Random) -> &'a str {
    let wanted = random.below(count) as usize;
    for (place, piece) in pieces.split('|').enumerate() {
        if place == wanted {
            return piece;
        }
    }
    "x"
}

// Adds some characters, or one of any plane.
fn add_characters(random: &mut Random, text: &mut Buffer) {
    if random.below(4) == 0 {
        text.extend(scalar(random).encode_utf8(&mut [0; 4]).as_bytes());
    } else {
        text.extend(piece(TEXTS, 12, random).as_bytes());
    }
}

// The code of a character: most often a line, a block or a letter, and now and then one that is none.
fn code(random: &mut Random) -> u32 {
    match random.below(4) {
        0 => random.below(256).saturating_add(0x2500),
        1 => random.below(256).saturating_add(0x370),
        2 => random.below(256),
        _ => random.below(0x1_0000),
    }
}

/// A scalar value of any plane, most often of the first.
pub fn scalar(random: &mut Random) -> char {
    let number = match random.below(4) {
        0 => random.below(0x11_0000),
        1 => random.below(0x1_0000),
        _ => random.below(0x3000),
    };
    char::from_u32(number).unwrap_or(char::REPLACEMENT_CHARACTER)
}
