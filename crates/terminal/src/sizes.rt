//! Sizes of terminals as text.
ghost use Rattle.std.specs.Prelude.{◌≡◌, ◌≢◌, ◌∷◌, ◌++◌, [], List, ℕ, IfErr, IfOk, MatchOption, length, take, ◌≤◌};
ghost use Rattle.terminal.specs.Sizes.{AreFields, Finds, IsCapped, IsNumber, SaySize, Tells, TellsSize};
ghost use Rattle.terminal.specs.declared.sizes.SizeMessage.TheVariants as SizeMessage;

use scr_cells::Size;
use std::io;

/// What the file `size` says.
#[derive(Clone, Copy, Debug, PartialEq, Eq)]
pub(crate) enum SizeMessage {
    /// The terminal has this size.
    Size(Size),
    /// The program is to end.
    End,
    /// The program is to be suspended.
    Stop,
    /// Nothing that can be used.
    Nothing,
}

/// What one read of the file `size` tells, which is the beginning of the piece; nothing if it failed.
pub(crate) fn told_of(read: io::Result<usize>, piece: &[u8]) -> SizeMessage
    requires { IfOk read (λ count. count ≤ length piece.now) }
    ensures read { IfOk read (λ count. Tells (take count piece.now) result) }
    ensures failed { IfErr read (λ _. result ≡ SizeMessage.Nothing) }
{
    match read {
        Ok(count) => told_by(&piece[..count]),
        Err(_) => SizeMessage::Nothing,
    }
}

/// What a text tells: the size of the line `ROWS COLUMNS`, the end that the line `end` asks for, or the stop that `stop`
/// asks for.
pub(crate) fn told_by(text: &[u8]) -> SizeMessage
    ensures { Tells text.now result }
{
    match str::from_utf8(text) {
        Ok(line) => told_in(line),
        Err(_) => SizeMessage::Nothing,
    }
}

// The same of a line.
fn told_in(line: &str) -> SizeMessage
    ensures { Tells line.now result }
{
    if line == "end\n" {
        return SizeMessage::End;
    }
    if line == "stop\n" {
        return SizeMessage::Stop;
    }
    match size_told(line) {
        Some(size) => SizeMessage::Size(size),
        None => SizeMessage::Nothing,
    }
}

// The size that a line tells: `ROWS COLUMNS` in decimal digits, and a line feed. `None` if it tells none.
fn size_told(line: &str) -> Option<Size>
    ensures { Finds (TellsSize line.now) result }
{
    let (rows, columns) = fields(line)?;
    size_said(rows, columns)
}

// The two fields of such a line.
fn fields(line: &str) -> Option<(&str, &str)>
    ensures { MatchOption result ((rows columns : List ℕ) → line.now ≢ rows ++ 32 ∷ columns ++ 10 ∷ []) (λ both. AreFields line.now both.0.now both.1.now) }
{
    line.strip_suffix('\n')?.split_once(' ')
}

/// The size of a terminal of as many rows and columns as two texts say. `None` if either is not a number, or 0.
pub(crate) fn size_said(rows: &str, columns: &str) -> Option<Size>
    ensures { Finds (SaySize rows.now columns.now) result }
{
    capped(number(rows)?, number(columns)?)
}

// The number that a text is.
fn number(text: &str) -> Option<u32>
    ensures { Finds (IsNumber text.now) result }
{
    text.parse::<u32>().ok()
}

// The size of a terminal of so many rows and columns, with 500 for more of either; `None` if either is 0, as where the
// size is not known.
fn capped(rows: u32, columns: u32) -> Option<Size>
    ensures { IsCapped rows columns result }
{
    Size::new(rows.min(Size::MOST), columns.min(Size::MOST))
}
