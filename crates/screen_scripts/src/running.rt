//! Running a script from its text to its output.
ghost use Rattle.std.specs.Prelude.{◌≡◌, ℕ, [], None, Some, false, not, IfOk, OnOk, IsErrOf};
ghost use Rattle.std.specs.Option.{ForSome};
ghost use Rattle.std.specs.Io.KnownBytes.{Appends, Keeps};
ghost use Rattle.screen_scripts.specs.Stories.{continued, line_outcome, opened, story_of};
ghost use Rattle.screen_scripts.specs.Printing.{Begins, GrewByBeginning, Writes, refusals_of};
ghost use Rattle.screen_scripts.specs.Showing.{AddsRefusals, CommandWrites, IsReady, IsReadyStage, LineWrites, stage_of, stages_of};
ghost use Rattle.screen_scripts.specs.Running.{BeginsLine, CommandRefuses, LineWritten, OpensOn};

use crate::call_runs::{Told, run_calls};
use crate::commands::{Command, read_command};
use crate::cuts::cut_line;
use crate::line_faults::LineFault;
use crate::obeying::obey;
use crate::showing::{effects_text, print_refusals};
use crate::stages::{Stage, open_stage};
use curses::Screen;
use scr_cells::{Charset, NoMemory};
use std::alloc::Global;
use std::io::{ErrorKind, Write};
use thiserror::Error;

/// Why a run ended before the script did.
#[derive(Debug, Drop, PartialEq, Eq, Error)]
pub enum DemoFault {
    /// A line is not a command, or not one that may be there. Lines count from 1, and 4,294,967,295
    /// stands for every line from there on.
    #[error("line {0}: bad command")]
    BadCommand(u32),
    /// Writing the output failed.
    #[error("write failed")]
    Write(ErrorKind),
    /// Memory ran out.
    #[error("out of memory")]
    NoMemory,
}

/// What a run writes.
#[derive(Clone, Copy, Debug, PartialEq, Eq)]
pub struct Output {
    /// The charset of the terminal.
    pub charset: Charset,
    /// Whether the bytes that the terminal is sent are written, and not what it shows.
    pub is_raw: bool,
    /// Whether lines may also be calls by the names of the screen's methods, and updates that fail (`parse_call_line`).
    pub reads_calls: bool,
}

/// Runs a script on a terminal in ASCII. Writes the lines that the terminal shows at each update, and the refusals; or,
/// if `raw`, the bytes that are sent to the terminal.
///
/// Refused at the first bad line, after writing the output of all lines before it; if a write or a
/// flush of `out` fails, or a write accepts nothing; and if memory runs out. The output is flushed
/// at the end of the script and before a bad line is reported; if that flush fails, its error is
/// returned instead, also at a bad line. Whatever is returned, what was written is a beginning of
/// the script's output.
pub fn run<W: Write>(alloc: Global, script: &[u8], raw: bool, out: &mut W) -> Result<(), DemoFault>
    ensures whole { OnOk result ((story_of script.now).bad_line ≡ None) }
    ensures written { OnOk result (Writes Charset.Ascii raw script.now (story_of script.now).events (W.contents out.old) (W.contents out.new)) }
    ensures bad { (n : ℕ) → IsErrOf result (DemoFault.BadCommand n) → (story_of script.now).bad_line ≡ Some n }
    ensures before_bad { (n : ℕ) → IsErrOf result (DemoFault.BadCommand n)
        → Writes Charset.Ascii raw script.now (story_of script.now).events (W.contents out.old) (W.contents out.new) }
    ensures beginning { Begins Charset.Ascii raw script.now (W.contents out.old) (W.contents out.new) }
{
    let output = Output {
        charset: Charset::Ascii,
        is_raw: raw,
        reads_calls: false,
    };
    run_as(alloc, script, output, out)
}

/// Like `run`, on a terminal with the charset of `output`, and raw if that says so.
///
/// If it says that lines may also be calls, a run goes on after an update that fails: that prints `failed`, its error,
/// how many operations it began and how many bytes were accepted, and then what the terminal shows. What such a run
/// writes is not proved.
pub fn run_as<W: Write>(
    alloc: Global,
    script: &[u8],
    output: Output,
    out: &mut W,
) -> Result<(), DemoFault>
    ensures whole { output.reads_calls ≡ false → OnOk result ((story_of script.now).bad_line ≡ None) }
    ensures written { output.reads_calls ≡ false
        → OnOk result (Writes output.charset output.is_raw script.now (story_of script.now).events (W.contents out.old) (W.contents out.new)) }
    ensures bad { output.reads_calls ≡ false → (n : ℕ) → IsErrOf result (DemoFault.BadCommand n) → (story_of script.now).bad_line ≡ Some n }
    ensures before_bad { output.reads_calls ≡ false → (n : ℕ) → IsErrOf result (DemoFault.BadCommand n)
        → Writes output.charset output.is_raw script.now (story_of script.now).events (W.contents out.old) (W.contents out.new) }
    ensures beginning { output.reads_calls ≡ false → Begins output.charset output.is_raw script.now (W.contents out.old) (W.contents out.new) }
{
    if output.reads_calls {
        let told = if output.is_raw {
            Told::Bytes
        } else {
            Told::Screens
        };
        return run_calls(alloc, script, output.charset, told, out);
    }
    let mut stage = None;
    run_lines(alloc, script, output, &mut stage, out)
}

/// The lines of a script's refusals, in order, up to the first bad line. Fails only when memory
/// runs out.
pub fn refusals(alloc: Global, script: &[u8]) -> Result<Vec<u8>, NoMemory>
    ensures { IfOk result (λ text. text.items ≡ refusals_of (story_of script.now).events) }
{
    let mut text = Vec::new(alloc);
    add_refusals(alloc, script, &mut text)?;
    Ok(text)
}

/// The same lines of a script of calls (`parse_call_line`), and one for each update that fails, on a terminal with this
/// charset: what an update began depends on it. Fails only when memory runs out.
pub fn call_refusals(alloc: Global, script: &[u8], charset: Charset) -> Result<Vec<u8>, NoMemory> {
    let mut text = Vec::new(alloc);
    match run_calls(alloc, script, charset, Told::Refusals, &mut text) {
        Ok(()) | Err(DemoFault::BadCommand(_)) => Ok(text),
        Err(_) => Err(NoMemory),
    }
}

// Runs the lines of a script on a stage that its first line opens.
fn run_lines<W: Write>(
    alloc: Global,
    script: &[u8],
    output: Output,
    stage: &mut Option<Stage>,
    out: &mut W,
) -> Result<(), DemoFault>
    requires { stage.old ≡ None }
    ensures whole { OnOk result ((story_of script.now).bad_line ≡ None) }
    ensures written { OnOk result (Writes output.charset output.is_raw script.now (story_of script.now).events (W.contents out.old) (W.contents out.new)) }
    ensures bad { (n : ℕ) → IsErrOf result (DemoFault.BadCommand n) → (story_of script.now).bad_line ≡ Some n }
    ensures before_bad { (n : ℕ) → IsErrOf result (DemoFault.BadCommand n)
        → Writes output.charset output.is_raw script.now (story_of script.now).events (W.contents out.old) (W.contents out.new) }
    ensures beginning { Begins output.charset output.is_raw script.now (W.contents out.old) (W.contents out.new) }
{
    let mut rest = script;
    let mut number: u32 = 1;
    while !rest.is_empty() {
        let (line, after) = cut_line(rest);
        write_line(alloc, output, number, line, stage, out)?;
        rest = after;
        number = number.saturating_add(1);
    }
    flush(out)
}

// Executes a line, and writes its output; if the line is bad, flushes the output.
fn write_line<W: Write>(
    alloc: Global,
    output: Output,
    number: u32,
    line: &[u8],
    stage: &mut Option<Stage>,
    out: &mut W,
) -> Result<(), DemoFault>
    requires { ForSome stage.old (IsReadyStage (not output.is_raw)) }
    ensures ok { OnOk result (LineWritten output.charset output.is_raw stage.old line.now (W.contents out.old) (W.contents out.new) stage.new) }
    ensures bad { (n : ℕ) → IsErrOf result (DemoFault.BadCommand n)
        → (number ≡ n) × (line_outcome (stages_of stage.old) line.now ≡ None) × Keeps (W.contents out.old) (W.contents out.new) }
    ensures beginning { BeginsLine output.charset output.is_raw stage.old line.now (W.contents out.old) (W.contents out.new) stage.new }
{
    match line_text(alloc, output, line, stage) {
        Ok(text) => write_text(&text, out),
        Err(LineFault::Bad) => {
            flush(out)?;
            Err(DemoFault::BadCommand(number))
        }
        Err(LineFault::NoMemory) => Err(DemoFault::NoMemory),
    }
}

// Adds the lines of a script's refusals to an empty text.
fn add_refusals(alloc: Global, script: &[u8], text: &mut Vec<u8>) -> Result<(), NoMemory>
    requires { text.old.items ≡ [] }
    ensures { OnOk result (text.new.items ≡ refusals_of (story_of script.now).events) }
{
    let mut stage = None;
    add_lines_refusals(alloc, script, &mut stage, text)
}

// Adds the lines of a script's refusals to an empty text; its first line opens the stage.
fn add_lines_refusals(
    alloc: Global,
    script: &[u8],
    stage: &mut Option<Stage>,
    text: &mut Vec<u8>,
) -> Result<(), NoMemory>
    requires stage { stage.old ≡ None }
    requires text { text.old.items ≡ [] }
    ensures { OnOk result (text.new.items ≡ refusals_of (story_of script.now).events) }
{
    let mut rest = script;
    while !rest.is_empty() {
        let (line, after) = cut_line(rest);
        match add_refusal(alloc, line, stage, text) {
            Ok(()) => rest = after,
            Err(LineFault::Bad) => break,
            Err(LineFault::NoMemory) => return Err(NoMemory),
        }
    }
    Ok(())
}

/// Writes a whole text. If a write fails or accepts nothing, what was accepted is a beginning of the
/// text.
pub(crate) fn write_text<W: Write>(text: &[u8], out: &mut W) -> Result<(), DemoFault>
    ensures written { OnOk result (Appends (W.contents out.old) (W.contents out.new) text.now) }
    ensures beginning { GrewByBeginning (W.contents out.old) (W.contents out.new) text.now }
    ensures fault { (n : ℕ) → IsErrOf result (DemoFault.BadCommand n) → ⊥ }
{
    let mut taken = 0;
    while taken < text.len() {
        match out.write(&text[taken..]) {
            Ok(0) => return Err(DemoFault::Write(ErrorKind::WriteZero)),
            Ok(count) => taken += count,
            Err(error) => return Err(DemoFault::Write(error.kind())),
        }
    }
    Ok(())
}

/// Flushes the output.
pub(crate) fn flush<W: Write>(out: &mut W) -> Result<(), DemoFault>
    ensures kept { Keeps (W.contents out.old) (W.contents out.new) }
    ensures fault { (n : ℕ) → IsErrOf result (DemoFault.BadCommand n) → ⊥ }
{
    match out.flush() {
        Ok(()) => Ok(()),
        Err(error) => Err(DemoFault::Write(error.kind())),
    }
}

// Executes a line, and returns its output.
fn line_text(
    alloc: Global,
    output: Output,
    line: &[u8],
    stage: &mut Option<Stage>,
) -> Result<Vec<u8>, LineFault>
    requires { ForSome stage.old (IsReadyStage (not output.is_raw)) }
    ensures text { IfOk result (λ text. LineWrites output.charset output.is_raw stage.old line.now text.items stage.new) }
    ensures bad { IsErrOf result LineFault.Bad → line_outcome (stages_of stage.old) line.now ≡ None }
{
    let command = read_command(alloc, line)?;
    match stage {
        None => {
            open(alloc, output.charset, command, stage)?;
            Ok(Vec::new(alloc))
        }
        Some(stage) => command_text(alloc, output.is_raw, command, stage),
    }
}

// Executes a command on an open stage, and returns its output.
fn command_text(
    alloc: Global,
    raw: bool,
    command: Command,
    stage: &mut Stage,
) -> Result<Vec<u8>, LineFault>
    requires { IsReadyStage (not raw) stage.old }
    ensures text { IfOk result (λ text. CommandWrites raw stage.old command text.items stage.new) }
    ensures bad { IsErrOf result LineFault.Bad → continued (stage_of stage.old.screen) command ≡ None }
{
    let effects = obey(alloc, &mut stage.screen, command)?;
    Ok(effects_text(alloc, raw, effects, stage)?)
}

// Executes a line, and adds the lines of its refusals, which are the same on a terminal with any charset.
fn add_refusal(
    alloc: Global,
    line: &[u8],
    stage: &mut Option<Stage>,
    text: &mut Vec<u8>,
) -> Result<(), LineFault>
    requires { ForSome stage.old (IsReadyStage false) }
    ensures ok { OnOk result (AddsRefusals stage.old line.now text.old.items text.new.items stage.new) }
    ensures bad { IsErrOf result LineFault.Bad → (line_outcome (stages_of stage.old) line.now ≡ None) × (text.new.items ≡ text.old.items) }
{
    let command = read_command(alloc, line)?;
    match stage {
        None => open(alloc, Charset::Ascii, command, stage),
        Some(stage) => add_command_refusals(alloc, command, &mut stage.screen, text),
    }
}

// Opens the stage with a script's first command.
fn open(
    alloc: Global,
    charset: Charset,
    command: Command,
    stage: &mut Option<Stage>,
) -> Result<(), LineFault>
    ensures ok { OnOk result (OpensOn charset command stage.new) }
    ensures bad { IsErrOf result LineFault.Bad → opened command ≡ None }
{
    *stage = Some(open_stage(alloc, charset, command)?);
    Ok(())
}

// Executes a command on an open screen, and adds the lines of its refusals.
fn add_command_refusals(
    alloc: Global,
    command: Command,
    screen: &mut Screen,
    text: &mut Vec<u8>,
) -> Result<(), LineFault>
    requires { IsReady screen.old }
    ensures ok { OnOk result (CommandRefuses screen.old command text.old.items text.new.items screen.new) }
    ensures bad { IsErrOf result LineFault.Bad → (continued (stage_of screen.old) command ≡ None) × (text.new.items ≡ text.old.items) }
{
    let effects = obey(alloc, screen, command)?;
    print_refusals(&effects.notes, text)?;
    Ok(())
}
