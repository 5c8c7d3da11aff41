//! A script of calls with the answers that are wanted, line by line.

use crate::answers::{add_number, add_wanted, add_word};
use crate::buffers::{Buffer, are_same};
use crate::troubles::Trouble;
use crate::words::Words;
use program_input::{InputFault, read_input};
use std::alloc::Global;
use std::io;
use std::io::Write;
use std::process::ExitCode;

/// What the lines of a script work on.
pub trait Subject: Sized {
    /// Nothing is there yet.
    fn new(alloc: Global) -> Self;

    /// Makes the call of a line, and adds what it answers, in words. A line that is none fails.
    fn answer(&mut self, words: &mut Words<'_>, got: &mut Buffer);

    /// Adds all that can be seen.
    fn dump(&self, bytes: &mut Buffer);
}

/// Puts a value in the place of another. A function that would drop a large value, as a screen, takes long to prove;
/// this one is proved once for all values.
pub fn put<T: Drop>(place: &mut T, value: T) {
    *place = value;
}

// A script, and how far it was checked.
#[derive(Drop)]
struct Checker<'a, S: Subject + Drop> {
    alloc: Global,
    script: &'a [u8],
    subject: S,
    // Room for texts of what is wanted.
    text: Buffer,
    wanted: Buffer,
    got: Buffer,
    // The number of the line, from 1 on, and how many agree.
    line: u32,
    agree: u32,
    // Whether the last line is `end`, which says how many there are before it.
    is_whole: bool,
}

impl<'a, S: Subject + Drop> Checker<'a, S> {
    // A checker before a script's first line.
    fn new(alloc: Global, script: &'a [u8]) -> Checker<'a, S> {
        Checker {
            alloc,
            script,
            subject: S::new(alloc),
            text: Buffer::new(alloc),
            wanted: Buffer::new(alloc),
            got: Buffer::new(alloc),
            line: 0,
            agree: 0,
            is_whole: false,
        }
    }

    // Checks each line, up to the first that differs.
    fn check(&mut self) -> Result<bool, Trouble> {
        for line in self.script.split(|byte| *byte == b'\n') {
            self.line = self.line.saturating_add(1);
            let (times, words) = repeated(line)?;
            if !self.check_line(words, times)? {
                return Ok(false);
            }
            self.agree = self.agree.saturating_add(times.min(1));
        }
        Ok(true)
    }

    // Makes the call of a line, as often as it says, and compares.
    fn check_line(&mut self, words: Words<'_>, times: u32) -> Result<bool, Trouble> {
        for done in 0..times {
            self.call(words)?;
            if ran_out(self.got.bytes()) && !ran_out(self.wanted.bytes()) {
                self.call_again(words, done)?;
            }
            if !self.agrees() {
                return Ok(false);
            }
        }
        Ok(true)
    }

    // Makes a call again that was refused memory, if all is as before.
    fn call_again(&mut self, words: Words<'_>, done: u32) -> Result<(), Trouble> {
        if self.is_as_before(words, done)? {
            return self.call(words);
        }
        add_word("after which something is changed", &mut self.got);
        Ok(())
    }

    // Whether the answer is the one wanted; where none is given, whether it is not a refusal.
    fn agrees(&mut self) -> bool {
        if !self.wanted.bytes().is_empty() {
            return self.wanted.bytes() == self.got.bytes();
        }
        add_word("no refusal", &mut self.wanted);
        let got = self.got.bytes();
        matches!(got, b" Ok" | b" Done") || got.get(1).is_some_and(|first| first.is_ascii_digit())
    }

    // Makes a call, and reads what is wanted of it; `end` answers how many lines were before it.
    fn call(&mut self, line: Words<'_>) -> Result<(), Trouble> {
        let mut words = line;
        self.got.clear();
        self.wanted.clear();
        self.is_whole = words.peek() == b"end".as_slice();
        if self.is_whole {
            let _end = words.next();
            add_number(i64::from(self.agree), &mut self.got);
        } else {
            self.subject.answer(&mut words, &mut self.got);
        }
        match words.name() {
            "" => {}
            "=" => add_wanted(&mut words, &mut self.text, &mut self.wanted),
            _ => words.fail(Trouble::Bad("too many arguments")),
        }
        words.check(self.got.done());
        words.check(self.wanted.done());
        words.done()
    }

    // Whether the state is the one that the lines before this call make anew, and this call made so often.
    fn is_as_before(&self, words: Words<'_>, done: u32) -> Result<bool, Trouble> {
        let mut anew = S::new(self.alloc);
        let mut number: u32 = 0;
        for line in self.script.split(|byte| *byte == b'\n') {
            number = number.saturating_add(1);
            if number >= self.line {
                break;
            }
            let (times, words) = repeated(line)?;
            make(self.alloc, &mut anew, words, times)?;
        }
        make(self.alloc, &mut anew, words, done)?;
        self.looks_like(&anew)
    }

    // Whether all that can be seen of another subject is as it is here.
    fn looks_like(&self, anew: &S) -> Result<bool, Trouble> {
        let mut before = Buffer::new(self.alloc);
        let mut after = Buffer::new(self.alloc);
        anew.dump(&mut before);
        self.subject.dump(&mut after);
        are_same(&before, &after)
    }
}

// Makes the call of a line so often, whatever it answers.
fn make<S: Subject>(
    alloc: Global,
    subject: &mut S,
    line: Words<'_>,
    times: u32,
) -> Result<(), Trouble> {
    let mut got = Buffer::new(alloc);
    for _ in 0..times {
        let mut words = line;
        got.clear();
        subject.answer(&mut words, &mut got);
        words.done()?;
    }
    Ok(())
}

// How often the call of a line is made, and the call: `times N CALL`, or the call alone. An empty line and a comment
// are none.
fn repeated(line: &[u8]) -> Result<(u32, Words<'_>), Trouble> {
    let mut words = Words::new(line);
    let times = match line {
        [] | [b'#', ..] => 0,
        _ if words.peek() == b"times".as_slice() => {
            let _times = words.next();
            words.number()
        }
        _ => 1,
    };
    words.done()?;
    Ok((times, words))
}

fn ran_out(answer: &[u8]) -> bool {
    answer.ends_with(b" NoMemory")
}

/// Checks the script that the standard input has, and prints how many lines agree, or the first that does not with what
/// was wanted and what was answered.
pub fn check_input<S: Subject + Drop>(rt: &HostRuntime) -> ExitCode {
    match check_script::<S>(rt) {
        Ok(true) => return ExitCode::SUCCESS,
        Ok(false) => {}
        Err(trouble) => {
            let _ = eprintln!(rt; "{trouble}");
        }
    }
    ExitCode::from(1)
}

// Reads the script and checks it.
fn check_script<S: Subject + Drop>(rt: &HostRuntime) -> Result<bool, Trouble> {
    let script = match read_input(rt.alloc(), &mut rt.reader()) {
        Ok(script) => script,
        Err(InputFault::NoMemory) => return Err(Trouble::NoMemory),
        Err(InputFault::Failed) => return Err(Trouble::Bad("read failed")),
    };
    let mut checker = Checker::<S>::new(rt.alloc(), &script);
    let checked = checker.check();
    print_checked(rt, &checker, checked)
}

// Prints how a check ended, and tells whether all agree and that could be written.
fn print_checked<S: Subject + Drop>(
    rt: &HostRuntime,
    checker: &Checker<'_, S>,
    checked: Result<bool, Trouble>,
) -> Result<bool, Trouble> {
    let (line, agree) = (checker.line, checker.agree);
    match checked {
        Ok(true) if checker.is_whole => return Ok(println!(rt; "all lines agree").is_ok()),
        Ok(true) => return Ok(println!(rt; "{agree} lines agree").is_ok()),
        Ok(false) => {
            let _ = print!(rt; "line {line}: wanted");
            let _ = io::writer(rt).write_all(checker.wanted.bytes());
            let _ = print!(rt; ", got");
            let _ = io::writer(rt).write_all(checker.got.bytes());
            let _ = println!(rt; "");
        }
        Err(Trouble::Bad(cause)) => {
            let _ = println!(rt; "line {line}: {cause}");
        }
        Err(Trouble::NoMemory) => return Err(Trouble::NoMemory),
    }
    Ok(false)
}
