//! Sessions that are made up: what a program does with windows, pads, colours, marks and wishes, and updates that fail
//! now and then, or are cut after each number of their bytes.

use crate::calls::obey;
use crate::cuts::{count_cuts, cut_of};
use crate::entries::read_entry;
use crate::made_up::Maker;
use crate::recorded::Recorded;
use check_harness::answers::{add_count, add_number, add_word};
use check_harness::buffers::Buffer;
use check_harness::troubles::Trouble;
use check_harness::words::{CallLine, Words};
use curses::{KeySet, Opening};
use scr_cells::{Charset, Size};
use scr_term::Op;
use screen_sessions::WriterFailure;
use std::alloc::Global;
use std::io::Write;

// What each session begins with: two pairs of colours, a small window, a pad, a subwindow, and some rows of text.
static BEGIN: [&str; 8] = [
    "set_pair 1 3 4",
    "set_pair 2 1 0",
    "new_window 1 3 1 1",
    "new_pad 3 8",
    "add_text 2 \"pad one pad two\"",
    "derive 0 1 2 1 2",
    "add_text 0 \"alpha be gamma delta pi rho omicron\\ngamma delta pi rho omicron x be alpha\\n\"",
    "add_text 0 \"pi rho omicron alpha be gamma delta\\n\\nx be alpha rho gamma delta pi\\nbe\\n\"",
];

// The line of an update in a script.
const UPDATE: &[u8] = b"update\n";

// The sessions of a line, up to now.
#[derive(Drop)]
struct Sessions<'a> {
    alloc: Global,
    size: Size,
    opening: Opening,
    updates: u32,
    // How the bundled entry is changed.
    names: Words<'a>,
    // Whether the terminal's last column is left out.
    is_narrow: bool,
    // Whether each update is cut after each number of its bytes.
    is_cut: bool,
    // Whether others write on the terminal now and then, and whether they did in this session.
    has_others: bool,
    wrote: bool,
    maker: Maker,
    // How many updates sent something and ended well, failed, and moved rows or characters, and how often one was cut.
    counts: [u32; 4],
    answer: Buffer,
    // This session as a script.
    script: Buffer,
}

/// The line `sessions R C COUNT UPDATES SEED SENT FAILED MOVED NAME ..`: so many sessions on a screen as with `screen R
/// C NAME ..`, each of so many updates after calls that are made up, and now and then after others' bytes on a row that
/// is marked. Some updates fail after some of their bytes. After each that is Ok the terminal has to show the plain
/// picture, and all calls of a session, made again by `session`, have to answer and send the same. Adds `agrees`, where
/// at least so many updates sent something, failed, and moved rows or characters. Where something does not agree, adds
/// the number of the session, the answer of its last line, and a script of it for `screendemo --calls`.
///
/// The lines `utf8_sessions` and `utf8_cut_sessions` do so on a screen in UTF-8; `narrow_sessions` on a terminal
/// without `xenl`, whose last column the screen leaves out, and nothing may reach; `larger_sessions` on one of one row
/// and one column more than the screen, where no update may move rows or characters.
///
/// The line `cut_sessions R C COUNT UPDATES SEED CUTS NAME ..`: the same, but that no update fails and nothing is
/// written by others, and each update is cut as with `count_cuts`, which is at least so many cuts.
///
/// The line `session_script R C UPDATES SEED NAME ..`, or `utf8_session_script`: adds the script of such a session, in
/// which others write nothing.
pub fn check_sessions(
    opened: &mut Option<Recorded>,
    line: &mut CallLine<'_>,
) -> Result<(), Trouble> {
    let is_script = line.name.ends_with("session_script");
    let (mut sessions, count, least) = read_sessions(line, is_script)?;
    for number in 0..count {
        if !sessions.check(opened)? {
            add_word("session", &mut line.got);
            add_number(i64::from(number), &mut line.got);
            line.got.extend(sessions.answer.bytes());
            sessions.add_script(line);
            return Ok(());
        }
    }
    if is_script {
        sessions.add_script(line);
    } else {
        sessions.add_counts(least, &mut line.got);
    }
    Ok(())
}

// The sessions of a line, how many there are, and how many of each count there have to be. After this the call of the
// line is what changes the entry.
fn read_sessions<'a>(
    line: &mut CallLine<'a>,
    is_script: bool,
) -> Result<(Sessions<'a>, u32, [u32; 4]), Trouble> {
    let (is_cut, words) = (line.name.ends_with("cut_sessions"), &mut line.words);
    let size = words.size()?;
    let count = if is_script { 1 } else { words.number() };
    let (updates, seed) = (words.number(), words.number());
    let least = if is_script {
        [0; 4]
    } else if is_cut {
        [0, 0, 0, words.number()]
    } else {
        [words.number(), words.number(), words.number(), 0]
    };
    let sessions = Sessions {
        alloc: line.alloc,
        size,
        opening: opening_of(line.name),
        updates,
        names: *words,
        is_narrow: line.name == "narrow_sessions",
        is_cut,
        has_others: !is_script,
        wrote: false,
        maker: Maker::new(line.alloc, seed),
        counts: [0; 4],
        answer: Buffer::new(line.alloc),
        script: Buffer::new(line.alloc),
    };
    if !line.words.is_at_end() {
        line.rename();
    }
    line.words.skip();
    line.words.done()?;
    Ok((sessions, count, least))
}

/// How a line's screen is opened: in UTF-8 where the name begins with `utf8`, on a terminal that may be larger where it
/// begins with `larger`.
pub fn opening_of(name: &str) -> Opening {
    Opening {
        charset: if name.starts_with("utf8") {
            Charset::Utf8
        } else {
            Charset::Ascii
        },
        keys: KeySet::Table,
        is_larger: name.starts_with("larger"),
    }
}

// Whether an operation moves lines or characters.
fn has_moved(ops: &[Op]) -> bool {
    ops.iter().any(|op| {
        matches!(
            op,
            Op::InsertLines(_)
                | Op::DeleteLines(_)
                | Op::InsertChars(_)
                | Op::DeleteChars(_)
                | Op::ScrollUp(_)
                | Op::ScrollDown(_)
        )
    })
}

impl<'a> Sessions<'a> {
    // Adds the script of this session, after a line that says how it is run and what it leaves out.
    fn add_script(&self, line: &mut CallLine<'_>) {
        let names = line.call();
        let got = &mut line.got;
        got.extend(match self.opening.charset {
            Charset::Ascii => b"\nFor screendemo --calls",
            Charset::Utf8 => b"\nFor screendemo -u --calls",
        });
        if !self.names.is_at_end() {
            got.extend(b", without these changes of the entry: ");
            got.extend(names);
        }
        if self.opening.is_larger {
            got.extend(b", without the terminal's row and column more");
        }
        if self.wrote {
            got.extend(b", without what others wrote on marked rows");
        }
        got.extend(b":\n");
        got.extend(self.script.bytes());
    }

    // Adds `agrees`, or how many there are of each, where these are fewer than at least wanted.
    fn add_counts(&self, least: [u32; 4], got: &mut Buffer) {
        let mut counts = self.counts.iter().zip(&least);
        let is_still = !self.opening.is_larger || self.counts[2] == 0;
        if is_still && counts.all(|(count, least)| count >= least) {
            add_word("agrees", got);
            return;
        }
        for count in &self.counts {
            add_count(u64::from(*count), got);
        }
    }

    // Checks a session on a screen of its own.
    fn check(&mut self, opened: &mut Option<Recorded>) -> Result<bool, Trouble> {
        let mut names = self.names;
        let mut entry = read_entry(self.alloc, &mut names).ok_or(Trouble::NoMemory)?;
        names.done()?;
        let mut size = self.size;
        if self.is_narrow {
            let narrower = Size::new(size.rows, size.columns.saturating_sub(1));
            size = match narrower {
                Some(size) if entry.without_last_column() => size,
                _ => return Err(Trouble::Bad("no column can be left out")),
            };
        }
        if Recorded::open_into(self.alloc, entry, size, self.opening, opened)?.is_some() {
            return Err(Trouble::NoMemory);
        }
        self.script.clear();
        let first = write!(
            self.script.vector(),
            "size {} {}\n",
            size.rows,
            size.columns
        );
        self.script.check(first.is_ok());
        self.wrote = false;
        match opened {
            Some(opened) => self.check_opened(opened),
            None => Ok(false),
        }
    }

    fn check_opened(&mut self, opened: &mut Recorded) -> Result<bool, Trouble> {
        if self.is_narrow || self.opening.is_larger {
            opened.enlarge(u32::from(self.opening.is_larger))?;
        }
        for line in &BEGIN {
            self.maker.line.extend(line.as_bytes());
            self.make(opened)?;
        }
        for _ in 0..self.updates {
            if !self.check_update(opened)? {
                return Ok(false);
            }
        }
        self.answer.clear();
        opened.add_session(&mut self.answer)?;
        self.refuse_shortage()?;
        Ok(self.answer.bytes().ends_with(b" agrees"))
    }

    // Makes the next calls and an update, which may fail or is cut in each way.
    fn check_update(&mut self, opened: &mut Recorded) -> Result<bool, Trouble> {
        for _ in 0..=self.maker.random.below(8) {
            self.maker.add_call(&opened.screen, self.opening.charset);
            self.make(opened)?;
        }
        let is_marked = !self.is_cut && self.maker.random.below(16) == 0;
        if is_marked && self.has_others && opened.emulated.is_free() {
            self.write_as_others(opened)?;
        }
        self.maker.add_taking(&opened.screen);
        self.make(opened)?;
        self.add_update();
        self.make(opened)?;
        let (is_ok, ops) = (self.answer.bytes().starts_with(b" Ok"), opened.last_begun());
        let is_sent = is_ok && !ops.is_empty();
        let counts = [is_sent, !is_ok, has_moved(ops)];
        for (count, is_one) in self.counts.iter_mut().zip(&counts) {
            *count = count.saturating_add(u32::from(*is_one));
        }
        Ok(opened.trouble.is_none() && (!self.is_cut || self.cut(opened)?))
    }

    // Cuts the last update in each way, and tells whether all cuts agree; adds how many agree where not all do, and the
    // next one to the script, in place of the update.
    fn cut(&mut self, opened: &mut Recorded) -> Result<bool, Trouble> {
        let (agreeing, all) = count_cuts(opened)?;
        let added = u32::try_from(agreeing).unwrap_or(0);
        self.counts[3] = self.counts[3].saturating_add(added);
        if agreeing == all {
            return Ok(true);
        }
        add_word("cuts", &mut self.answer);
        add_count(agreeing as u64, &mut self.answer);
        let script = self.script.vector();
        script.truncate(script.len().saturating_sub(UPDATE.len()));
        let written = match cut_of(opened.last_sent().len(), agreeing) {
            (after, WriterFailure::Error) => write!(script, "update_writing {after}\n"),
            (after, WriterFailure::Zero) => write!(script, "update_stuck {after}\n"),
            (_, WriterFailure::Flush) => write!(script, "update_flushing\n"),
        };
        self.script.check(written.is_ok());
        self.script.extend(UPDATE);
        self.script.extend(UPDATE);
        Ok(false)
    }

    // Marks a row, and has others write there, if it could be marked: an attribute where it can be turned off, and a
    // character.
    fn write_as_others(&mut self, opened: &mut Recorded) -> Result<(), Trouble> {
        let row = self.maker.random.below(self.size.rows);
        let mark = write!(self.maker.line.vector(), "redraw_lines 0 {row} 1");
        self.maker.line.check(mark.is_ok());
        self.make(opened)?;
        if self.answer.bytes() != b" Ok".as_slice() {
            return Ok(());
        }
        let pen = if opened.profile.can_reset() {
            "\\e[7;32m"
        } else {
            ""
        };
        let number = row.saturating_add(1);
        let text = write!(self.maker.line.vector(), "others \"\\e[{number}H{pen}?\"");
        self.maker.line.check(text.is_ok());
        self.wrote = true;
        self.call(opened)
    }

    // Adds an update, which fails now and then, most often after a few bytes.
    fn add_update(&mut self) {
        let kind = if self.is_cut {
            9
        } else {
            self.maker.random.below(10)
        };
        let word = match kind {
            0..3 => "update_writing",
            3 => "update_stuck",
            4 => "update_flushing",
            _ => "update",
        };
        self.maker.line.extend(word.as_bytes());
        if kind < 4 {
            let most = if self.maker.random.below(4) == 0 {
                300
            } else {
                20
            };
            add_number(
                i64::from(self.maker.random.below(most)),
                &mut self.maker.line,
            );
        }
    }

    // Makes the line, and adds it to the script.
    fn make(&mut self, opened: &mut Recorded) -> Result<(), Trouble> {
        self.script
            .extend(self.maker.line.bytes().trim_ascii_start());
        self.script.push(b'\n');
        self.call(opened)
    }

    // Makes the line.
    fn call(&mut self, opened: &mut Recorded) -> Result<(), Trouble> {
        self.maker.line.done()?;
        let got = self.answer.take(self.alloc);
        let mut line = CallLine::new(self.alloc, Words::new(self.maker.line.bytes()), got);
        let obeyed = obey(opened, &mut line);
        let done = line.words.done();
        self.answer = line.got;
        self.maker.line.clear();
        self.refuse_shortage()?;
        obeyed.and(done)
    }

    // Refuses an answer that says that memory ran out.
    fn refuse_shortage(&self) -> Result<(), Trouble> {
        self.answer.done()?;
        if self.answer.bytes().ends_with(b" NoMemory") {
            Err(Trouble::NoMemory)
        } else {
            Ok(())
        }
    }
}
