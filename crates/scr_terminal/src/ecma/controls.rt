//! Control functions: what a whole unit of an ECMA-48 text changes. `parameters` reads the
//! parameters of a control sequence, and `terminal` makes the changes.
ghost use Rattle.std.specs.Prelude.{◌≡◌, ◌≤◌, ℕ, List, ◌∷◌, None, option_and_then, option_map, IfSome, unwrap_or};
ghost use Rattle.scr_cells.specs.declared.charsets.Charset.TheVariants.{Utf8};
ghost use Rattle.scr_cells.specs.PenViews.{IsColour, with_attribute};
ghost use Rattle.scr_term.specs.Operations.Abilities.{full_abilities};
ghost use Rattle.scr_term.specs.Operations.States.{IsShownPen, IsSpot};
ghost use Rattle.scr_term.specs.Ecma.Units.{Control, Sequence};
ghost use Rattle.scr_term.specs.Ecma.Meanings.{meaning, choice_of, control_character, control_function, count_of, cursor_at, cursor_character_absolute, cursor_position, erase_in_line, erase_in_page, line_position_absolute, rendition, rendition_attribute, renditions};
ghost use Rattle.scr_terminal.specs.Code.Changes.{IsChange, Makes, MakesAt, MakesWith};
ghost use Rattle.scr_terminal.specs.Code.Readings.{IsLast};

use crate::changes::{
    Change, characters_erased, moved_down, moved_left, moved_right, moved_to, moved_to_column,
    moved_to_row, moved_up, rest_of_line_erased,
};
use crate::ecma::parameters::parameters;
use bitflags::Flags;
use scr_cells::{Attrs, Pen, Size};
use scr_term::{Spot, shown_pen_laws};

/// What a control sequence changes; `part` is all of it but its final byte, `last`. `None` if it is
/// undefined (ECMA-48, 5.4 'Control sequences').
pub(crate) fn control_sequence(
    size: Size,
    spot: Spot,
    pen: Pen,
    part: &[u8],
    last: u8,
) -> Option<Change>
    requires spot { IsSpot size.rows size.columns spot }
    requires shown { IsShownPen (full_abilities Utf8 size.rows size.columns) pen }
    requires sequence { IsLast part.now last }
    ensures value { (ps : List ℕ) → part.now ≡ 27 ∷ 91 ∷ ps → MakesWith size.rows size.columns spot pen result (λ state. meaning size.rows size.columns state (Sequence ps last)) }
    ensures change { IfSome result (IsChange size.rows size.columns) }
{
    let list = parameters(&part[2..])?;
    control_function(size, spot, pen, list.as_slice(), last)
}

/// What a control function of one byte changes: BS moves the cursor one column left, CR to the
/// first column (ECMA-48, 8.3.5 and 8.3.15).
pub(crate) fn control_character(size: Size, spot: Spot, byte: u8) -> Option<Change>
    requires { IsSpot size.rows size.columns spot }
    ensures value { MakesAt size.rows size.columns spot result (λ state. meaning size.rows size.columns state (Control byte)) }
    ensures change { IfSome result (IsChange size.rows size.columns) }
{
    match byte {
        0x08 => moved_left(size, spot, 1),
        0x0D => moved_to_column(size, spot, 0),
        _ => None,
    }
}

/// The one parameter of a motion or of ECH, 1 if it is absent; `None` if it is 0 or there are
/// several.
fn count_of(parameters: &[Option<u16>]) -> Option<u32>
    ensures value { result ≡ count_of parameters.now }
    ensures few { IfSome result (λ count. count ≤ 65535) }
{
    match parameters {
        [parameter] => {
            let count = parameter.unwrap_or(1);
            if count >= 1 {
                Some(u32::from(count))
            } else {
                None
            }
        }
        _ => None,
    }
}

/// The one parameter of ED or EL, 0 if it is absent; `None` if there are several.
fn choice_of(parameters: &[Option<u16>]) -> Option<u32>
    ensures { result ≡ choice_of parameters.now }
{
    match parameters {
        [parameter] => Some(u32::from(parameter.unwrap_or(0))),
        _ => None,
    }
}

/// CHA: moves the cursor to a column of the same line, counted from 1 (ECMA-48, 8.3.9).
fn cursor_character_absolute(size: Size, spot: Spot, column: u32) -> Option<Change>
    ensures value { MakesAt size.rows size.columns spot result (λ state. cursor_character_absolute size.rows size.columns state column) }
    ensures change { IfSome result (IsChange size.rows size.columns) }
{
    moved_to_column(size, spot, column.saturating_sub(1))
}

/// VPA: moves the cursor to a line, counted from 1, in the same column (ECMA-48, 8.3.158).
fn line_position_absolute(size: Size, spot: Spot, row: u32) -> Option<Change>
    ensures value { MakesAt size.rows size.columns spot result (λ state. line_position_absolute size.rows size.columns state row) }
    ensures change { IfSome result (IsChange size.rows size.columns) }
{
    moved_to_row(size, spot, row.saturating_sub(1))
}

/// Moves the cursor to a row and a column, which count from 1.
fn cursor_at(size: Size, row: u16, column: u16) -> Option<Change>
    ensures value { Makes size.rows size.columns result (λ state. cursor_at size.rows size.columns state row column) }
    ensures change { IfSome result (IsChange size.rows size.columns) }
{
    if row >= 1 && column >= 1 {
        moved_to(size, u32::from(row) - 1, u32::from(column) - 1)
    } else {
        None
    }
}

/// CUP: moves the cursor to a row and a column, each 1 if it is absent (ECMA-48, 8.3.21).
fn cursor_position(size: Size, parameters: &[Option<u16>]) -> Option<Change>
    ensures value { Makes size.rows size.columns result (λ state. cursor_position size.rows size.columns state parameters.now) }
    ensures change { IfSome result (IsChange size.rows size.columns) }
{
    match parameters {
        [row] => cursor_at(size, row.unwrap_or(1), 1),
        [row, column] => cursor_at(size, row.unwrap_or(1), column.unwrap_or(1)),
        _ => None,
    }
}

/// ED: erases from the cursor to the end of the screen, or the whole screen (ECMA-48, 8.3.39).
fn erase_in_page(size: Size, spot: Spot, choice: u32) -> Option<Change>
    requires { IsSpot size.rows size.columns spot }
    ensures value { MakesAt size.rows size.columns spot result (λ state. erase_in_page size.rows size.columns state choice) }
    ensures change { IfSome result (IsChange size.rows size.columns) }
{
    match (choice, spot) {
        (0, Spot::At(row, column)) => Some(Change::ErasedFrom(row, column)),
        (2, _) => Some(Change::ErasedAll),
        _ => None,
    }
}

/// EL: erases from the cursor to the end of the line (ECMA-48, 8.3.41).
fn erase_in_line(size: Size, spot: Spot, choice: u32) -> Option<Change>
    requires { IsSpot size.rows size.columns spot }
    ensures value { MakesAt size.rows size.columns spot result (λ state. erase_in_line size.rows size.columns state choice) }
    ensures change { IfSome result (IsChange size.rows size.columns) }
{
    if choice == 0 {
        rest_of_line_erased(size, spot)
    } else {
        None
    }
}

/// The attribute that a parameter of SGR turns on (ECMA-48, 8.3.117).
fn rendition_attribute(parameter: u16) -> Option<Attrs>
    ensures { option_map (λ a. a.0) result ≡ rendition_attribute parameter }
{
    match parameter {
        1 => Some(Attrs::BOLD),
        2 => Some(Attrs::DIM),
        4 => Some(Attrs::UNDERLINE),
        5 => Some(Attrs::BLINK),
        7 => Some(Attrs::REVERSE),
        8 => Some(Attrs::INVIS),
        _ => None,
    }
}

/// The pen after one parameter of SGR, which makes it plain, sets a colour or adds an attribute
/// (ECMA-48, 8.3.117).
fn rendition(pen: Pen, parameter: u16) -> Option<Pen>
    ensures { result ≡ rendition pen parameter }
{
    match parameter {
        0 => Some(Pen::plain()),
        30..=37 => Some(pen.with_foreground(Some((parameter - 30) as u8))),
        39 => Some(pen.with_foreground(None)),
        40..=47 => Some(pen.with_background(Some((parameter - 40) as u8))),
        49 => Some(pen.with_background(None)),
        _ => {
            let attribute = rendition_attribute(parameter)?;
            Some(pen.with_attrs(pen.attrs().union(attribute)))
        }
    }
}

/// SGR: applies its parameters one after another, each 0 if it is absent (ECMA-48, 8.3.117).
fn renditions(mut pen: Pen, parameters: &[Option<u16>]) -> Option<Pen>
    ensures { result ≡ renditions pen parameters.now }
{
    for parameter in parameters {
        pen = rendition(pen, parameter.unwrap_or(0))?;
    }
    Some(pen)
}

/// What a control sequence changes, by its final byte: CUU, CUD, CUF, CUB, CHA, CUP, ED, EL, ECH,
/// VPA or SGR. `None` if it is undefined (ECMA-48, 8.3).
#[tactic(auto, unfolding(scr_term::specs::Ecma::Meanings::control_function))]
fn control_function(
    size: Size,
    spot: Spot,
    pen: Pen,
    parameters: &[Option<u16>],
    last: u8,
) -> Option<Change>
    requires spot { IsSpot size.rows size.columns spot }
    requires shown { IsShownPen (full_abilities Utf8 size.rows size.columns) pen }
    ensures value { MakesWith size.rows size.columns spot pen result (λ state. control_function size.rows size.columns state parameters.now last) }
    ensures change { IfSome result (IsChange size.rows size.columns) }
{
    shown_pen_laws();
    match last {
        b'A' => moved_up(size, spot, count_of(parameters)?),
        b'B' => moved_down(size, spot, count_of(parameters)?),
        b'C' => moved_right(size, spot, count_of(parameters)?),
        b'D' => moved_left(size, spot, count_of(parameters)?),
        b'G' => cursor_character_absolute(size, spot, count_of(parameters)?),
        b'H' => cursor_position(size, parameters),
        b'J' => erase_in_page(size, spot, choice_of(parameters)?),
        b'K' => erase_in_line(size, spot, choice_of(parameters)?),
        b'X' => characters_erased(size, spot, count_of(parameters)?),
        b'd' => line_position_absolute(size, spot, count_of(parameters)?),
        b'm' => Some(Change::Rendered(renditions(pen, parameters)?)),
        _ => None,
    }
}
