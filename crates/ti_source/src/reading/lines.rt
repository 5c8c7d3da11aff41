//! The lines of a source that are not read yet.

ghost use Rattle.std.specs.Prelude.{◌≡◌, IfNone};
ghost use Rattle.ti_source.specs.Reading.Sources.{numbered, source_lines};
ghost use Rattle.ti_source.specs.Code.Lines.{EndsBlock, after_fields, lines_left, unskipped};

use crate::reading::line::{SourceLine, line_of};
use bstr::ByteSlice;
use std::marker::Model;

/// The lines that are left, with their numbers, without those that are skipped. Lines count from 1;
/// the count stops at 4,294,967,295.
#[derive(Drop)]
pub struct Lines<'a> {
    /// The first of them and its number, unless none is left.
    first: Option<(u32, SourceLine<'a>)>,
    /// The number of the first line of `rest`.
    number: u32,
    rest: bstr::Lines<'a>,
}

impl<'a> Model for Lines<'a> {
    ghost use Rattle.std.specs.Prelude.{ℕ, List};
    ghost use Rattle.ti_source.specs.Reading.SourceLine as spec;
    ghost use Rattle.ti_source.specs.Reading.Sources.{numbered};
    ghost use Rattle.ti_source.specs.Code.Lines.{lines_left, unskipped};

    ghost Value = { List (ℕ × spec.SourceLine) };

    ghost view = { λ l. lines_left l.first (unskipped (numbered l.number l.rest)) };
}

impl<'a> Lines<'a> {
    /// The lines of a source.
    pub fn new(bytes: &'a [u8]) -> Lines<'a>
        ensures { result ≡ unskipped (source_lines bytes.now) }
    {
        let mut number = 1;
        let mut rest = bytes.lines();
        let first = next_unskipped(&mut number, &mut rest);
        Lines {
            first,
            number,
            rest,
        }
    }

    /// The next line and its number.
    pub fn next(&mut self) -> Option<(u32, SourceLine<'a>)>
        ensures { self.old ≡ lines_left result self.new }
    {
        let line = self.first?;
        self.first = next_unskipped(&mut self.number, &mut self.rest);
        Some(line)
    }

    /// The fields of the next line and its number, if it continues the entry before it.
    pub(crate) fn next_fields(&mut self) -> Option<(u32, &'a [u8])>
        ensures lines { self.old ≡ after_fields result self.new }
        ensures end { IfNone result (EndsBlock self.new) }
    {
        match self.first {
            Some((number, SourceLine::Continues(text))) => {
                self.first = next_unskipped(&mut self.number, &mut self.rest);
                Some((number, text))
            }
            _ => None,
        }
    }
}

/// Takes lines until one is not skipped: that line and its number.
fn next_unskipped<'a>(number: &mut u32, rest: &mut bstr::Lines<'a>) -> Option<(u32, SourceLine<'a>)>
    ensures { unskipped (numbered number.old rest.old) ≡ lines_left result (unskipped (numbered number.new rest.new)) }
{
    while let Some(bytes) = rest.next() {
        let here = *number;
        *number = here.saturating_add(1);
        if let Some(line) = line_of(bytes) {
            return Some((here, line));
        }
    }
    None
}
