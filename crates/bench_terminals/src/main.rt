//! Uses parameter strings, a profile or an emulated screen again and again, so that the instructions of one time can be
//! counted (`benchmarks/terminals`, `benchmarks/refresh`). `bench_terminals run|length|read cup|sgr|clear|status COUNT`
//! runs, measures or reads a parameter string. `bench_terminals admit|feed|go|paint|address|price|scratch ROWS COLUMNS
//! COUNT` has the bundled entry on a terminal of this size: it makes a profile, feeds the emulated screen a line of 79
//! graphic characters after a cursor address or this alone, renders the operations for one place or a cursor address,
//! asks for the price of one, or makes the bytes that paint the screen from scratch. It prints the sum of all results.
#![tactic(auto)]

use scr_cells::{Attrs, Picture, Size};
use scr_plan::scratch_bytes;
use scr_term::{Op, Profile};
use scr_terminal::EcmaScreen;
use std::alloc::Global;
use std::process::ExitCode;
use ti_param::{Program, Vars};

const CUP: &[u8] = b"\x1b[%i%p1%d;%p2%dH";

const SGR: &[u8] =
    b"\x1b[0%?%p1%p3%|%t;7%;%?%p2%t;4%;%?%p4%t;5%;%?%p5%t;2%;%?%p6%t;1%;%?%p7%t;8%;m";

// Two texts without parameters: short, and long.
const CLEAR: &[u8] = b"\x1b[H\x1b[2J";

const STATUS: &[u8] =
    b"\x1b[?1049h\x1b[22;0;0t\x1b[?1h\x1b=\x1b[?7h\x1b[4l\x1b>\x1b[?1000l\x1b[?25h\x1b(B\x1b[m";

// A text and its parameters.
fn text_of(name: &str) -> Option<(&'static [u8], [i32; 9])> {
    match name {
        "cup" => Some((CUP, [23, 79, 0, 0, 0, 0, 0, 0, 0])),
        "sgr" => Some((SGR, [0, 1, 1, 0, 0, 1, 0, 0, 0])),
        "clear" => Some((CLEAR, [0; 9])),
        "status" => Some((STATUS, [0; 9])),
        _ => None,
    }
}

// The bytes that runs of a parameter string write.
fn run(alloc: Global, text: &[u8], params: [i32; 9], count: u32) -> Option<usize> {
    let program = Program::read(alloc, text).ok()?;
    let mut vars = Vars::new();
    let mut out = Vec::with_capacity(alloc, 256).ok()?;
    let mut sum = 0usize;
    for _ in 0..count {
        out.clear();
        program.run(params, &mut vars, &mut out).ok()?;
        sum = sum.wrapping_add(out.len());
    }
    Some(sum)
}

// The bytes that runs would write.
fn length(alloc: Global, text: &[u8], params: [i32; 9], count: u32) -> Option<usize> {
    let program = Program::read(alloc, text).ok()?;
    let vars = Vars::new();
    let mut sum = 0usize;
    for _ in 0..count {
        sum = sum.wrapping_add(program.length(params, &vars).ok()?);
    }
    Some(sum)
}

// The bounds of a parameter string that is read.
fn read(alloc: Global, text: &[u8], count: u32) -> Option<usize> {
    let mut sum = 0usize;
    for _ in 0..count {
        sum = sum.wrapping_add(Program::read(alloc, text).ok()?.bound());
    }
    Some(sum)
}

// The lengths of the longest texts of profiles.
fn admit(alloc: Global, size: Size, count: u32) -> Option<usize> {
    let mut sum = 0usize;
    for _ in 0..count {
        sum = sum.wrapping_add(Profile::ecma48(alloc, size).ok()?.longest());
    }
    Some(sum)
}

// How often a cursor address with so many graphic characters after it is defined.
fn feed(alloc: Global, size: Size, characters: u8, count: u32) -> Option<usize> {
    let mut screen = EcmaScreen::new(alloc, size).ok()?;
    let mut line = Vec::with_capacity(alloc, 128).ok()?;
    line.extend_from_slice(b"\x1b[1;1H").ok()?;
    for byte in 33..33u8.saturating_add(characters) {
        line.push(byte).ok()?;
    }
    let mut sum = 0usize;
    for _ in 0..count {
        sum = sum.wrapping_add(usize::from(screen.feed(&line).is_ok()));
    }
    Some(sum)
}

// The bytes of operations, those that the profile has.
fn render(alloc: Global, size: Size, ops: &[Op], count: u32) -> Option<usize> {
    let profile = Profile::ecma48(alloc, size).ok()?;
    let mut out = Vec::with_capacity(alloc, 256).ok()?;
    let mut sum = 0usize;
    for _ in 0..count {
        out.clear();
        for op in ops {
            if profile.has(*op) {
                profile.render(*op, &mut out).ok()?;
            }
        }
        sum = sum.wrapping_add(out.len());
    }
    Some(sum)
}

// The prices of cursor addresses. The row changes: the price of one address would be found once, before the loop.
fn price(alloc: Global, size: Size, count: u32) -> Option<usize> {
    let profile = Profile::ecma48(alloc, size).ok()?;
    let mut sum = 0usize;
    for index in 0..count {
        sum = sum.wrapping_add(profile.cost(Op::Move(index % 16, 78)).unwrap_or(0));
    }
    Some(sum)
}

// The bytes that paint a blank screen from scratch.
fn scratch(alloc: Global, size: Size, count: u32) -> Option<usize> {
    let profile = Profile::ecma48(alloc, size).ok()?;
    let picture = Picture::new(alloc, size).ok()?;
    let mut sum = 0usize;
    for _ in 0..count {
        sum = sum.wrapping_add(scratch_once(alloc, &profile, &picture)?);
    }
    Some(sum)
}

// How many bytes paint a picture from scratch; the profile has its size.
fn scratch_once(alloc: Global, profile: &Profile, picture: &Picture) -> Option<usize> {
    let (size, other) = (picture.size(), profile.size());
    if size.rows != other.rows || size.columns != other.columns {
        return None;
    }
    Some(scratch_bytes(alloc, profile, picture).ok()?.len())
}

// Does the work that is named on a parameter string.
fn on_text(alloc: Global, work: &str, name: &str, count: u32) -> Option<usize> {
    let (text, params) = text_of(name)?;
    match work {
        "run" => run(alloc, text, params, count),
        "length" => length(alloc, text, params, count),
        "read" => read(alloc, text, count),
        _ => None,
    }
}

// Does the work that is named on a terminal of a size.
fn on_terminal(alloc: Global, work: &str, size: Size, count: u32) -> Option<usize> {
    let address = Op::Move(23, 78);
    let place = [address, Op::Reset, Op::Enter(Attrs::BOLD), Op::Put(b'x')];
    match work {
        "admit" => admit(alloc, size, count),
        "feed" => feed(alloc, size, 79, count),
        "go" => feed(alloc, size, 0, count),
        "paint" => render(alloc, size, &place, count),
        "address" => render(alloc, size, &[address], count),
        "price" => price(alloc, size, count),
        "scratch" => scratch(alloc, size, count),
        _ => None,
    }
}

fn number(word: &String) -> Option<u32> {
    word.as_str().parse::<u32>().ok()
}

// Does what the words of the command line say.
fn measure(rt: &HostRuntime) -> Option<usize> {
    let words: Vec<String> = std::env::args(rt).ok()?.collect(rt.alloc()).ok()?;
    match words.as_slice() {
        [_, work, name, count] => on_text(rt.alloc(), work.as_str(), name.as_str(), number(count)?),
        [_, work, rows, columns, count] => {
            let size = Size::new(number(rows)?, number(columns)?)?;
            on_terminal(rt.alloc(), work.as_str(), size, number(count)?)
        }
        _ => None,
    }
}

fn main(rt: HostRuntime) -> ExitCode {
    let Some(sum) = measure(&rt) else {
        let _ = eprintln!(rt;
            "usage: bench_terminals WORK TEXT COUNT, or bench_terminals WORK ROWS COLUMNS COUNT"
        );
        return ExitCode::from(2);
    };
    match println!(rt; "{sum}") {
        Ok(()) => ExitCode::SUCCESS,
        Err(_) => ExitCode::from(1),
    }
}
