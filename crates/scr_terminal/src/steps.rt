//! What each operation changes on an emulated terminal, except for writing characters.
ghost use Rattle.std.specs.Option.{is_none};
ghost use Rattle.std.specs.Prelude.{◌≡◌, ◌≢◌, ◌||◌, ◌&&◌, ℕ, true, Some, None, IsTrue, IfSome, if◌then◌else◌};
ghost use Rattle.scr_cells.specs.declared.charsets.Charset.TheVariants.{Utf8};
ghost use Rattle.scr_cells.specs.PenViews.{is_plain_pen, plain_pen};
ghost use Rattle.scr_term.specs.declared.operations.operation.Op.TheVariants.{Put, Write, Repeat};
ghost use Rattle.scr_term.specs.Operations.Abilities.{full_abilities};
ghost use Rattle.scr_term.specs.Operations.States.{IsShownPen, IsSpot, from_place};
ghost use Rattle.scr_term.specs.Operations.Steps.{act, lines_below_erased};
ghost use Rattle.scr_term.specs.Operations.Texts.{has};
ghost use Rattle.scr_terminal.specs.Leading.{is_motion};
ghost use Rattle.scr_terminal.specs.Code.Changes.{IsChange, IsMoved, MakesAt, MakesWith, next_pen};

use crate::changes::{
    Change, characters_deleted, characters_erased, characters_inserted, lines_deleted,
    lines_inserted, moved_down, moved_left, moved_right, moved_to, moved_to_column, moved_to_row,
    moved_up, rest_of_line_erased, scrolled_down, scrolled_up,
};
use bitflags::Flags;
use scr_cells::{Pen, Size};
use scr_term::{Op, Profile, Spot, shown_pen_laws};

/// What an operation changes that the terminal has and that writes no characters; `None` if it is
/// undefined.
#[tactic(auto, unfolding(scr_term::specs::Operations::Texts::has))]
pub(crate) fn change_of(profile: &Profile, spot: Spot, pen: Pen, op: Op) -> Option<Change>
    requires has { IsTrue (has profile.now op) }
    requires spot { IsSpot profile.now.rows profile.now.columns spot }
    requires pen { IsShownPen (full_abilities Utf8 profile.now.rows profile.now.columns) pen }
    requires one { (byte : ℕ) → op ≢ Put byte }
    requires written { (code : ℕ) → op ≢ Write code }
    requires several { (byte n : ℕ) → op ≢ Repeat byte n }
    ensures value { MakesWith profile.now.rows profile.now.columns spot pen result (λ state. act profile.now state op) }
    ensures change { IfSome result (IsChange profile.now.rows profile.now.columns) }
    ensures motion { is_motion op ≡ true → IfSome result IsMoved }
{
    let size = profile.size();
    shown_pen_laws();
    match op {
        Op::Home => motion(profile, pen, moved_to(size, 0, 0)),
        Op::Move(row, column) => motion(profile, pen, moved_to(size, row, column)),
        Op::Column(column) => motion(profile, pen, moved_to_column(size, spot, column)),
        Op::Line(row) => motion(profile, pen, moved_to_row(size, spot, row)),
        Op::Up(count) => motion(profile, pen, moved_up(size, spot, count)),
        Op::Down(count) => motion(profile, pen, moved_down(size, spot, count)),
        Op::Left(count) => motion(profile, pen, moved_left(size, spot, count)),
        Op::Right(count) => motion(profile, pen, moved_right(size, spot, count)),
        Op::UpBy(count) => motion(profile, pen, moved_up(size, spot, count)),
        Op::DownBy(count) => motion(profile, pen, moved_down(size, spot, count)),
        Op::LeftBy(count) => motion(profile, pen, moved_left(size, spot, count)),
        Op::RightBy(count) => motion(profile, pen, moved_right(size, spot, count)),
        Op::Return => motion(profile, pen, moved_to_column(size, spot, 0)),
        Op::Clear => erasure(pen, Some(Change::Cleared)),
        Op::EraseLine => erasure(pen, rest_of_line_erased(size, spot)),
        Op::EraseBelow => erasure(pen, lines_below_erased(size, spot)),
        Op::EraseChars(count) => erasure(pen, characters_erased(size, spot, count)),
        Op::InsertLines(count) => erasure(pen, lines_inserted(size, spot, count)),
        Op::DeleteLines(count) => erasure(pen, lines_deleted(size, spot, count)),
        Op::InsertChars(count) => erasure(pen, characters_inserted(size, spot, count)),
        Op::DeleteChars(count) => erasure(pen, characters_deleted(size, spot, count)),
        Op::ScrollUp(count) => erasure(pen, scrolled_up(size, spot, count)),
        Op::ScrollDown(count) => erasure(pen, scrolled_down(size, spot, count)),
        Op::Reset | Op::Enter(_) | Op::Set(_) => Some(Change::Rendered(next_pen(pen, op))),
        Op::ExitAttributes => exited(pen),
        Op::Fore(colour) => coloured(spot, pen.with_foreground(Some(colour))),
        Op::Back(colour) => coloured(spot, pen.with_background(Some(colour))),
        Op::Put(_) | Op::Write(_) | Op::Repeat(..) => None,
    }
}

// A motion. With an attribute or a colour on, it is defined only if the terminal has `msgr`.
fn motion(profile: &Profile, pen: Pen, change: Option<Change>) -> Option<Change>
    requires { IfSome change (IsChange profile.now.rows profile.now.columns) }
    ensures value { result ≡ if profile.now.msgr || is_plain_pen pen then change else None }
    ensures change { IfSome result (IsChange profile.now.rows profile.now.columns) }
    ensures moved { IfSome change IsMoved → IfSome result IsMoved }
{
    if profile.moves_in_any_rendition() || pen.is_plain() {
        change
    } else {
        None
    }
}

// An erasure, an insertion, a deletion or a scroll. With an attribute or a colour on, it is undefined.
fn erasure(pen: Pen, change: Option<Change>) -> Option<Change>
    ensures { result ≡ if is_plain_pen pen then change else None }
{
    if pen.is_plain() { change } else { None }
}

// Erases the cursor's row and those below it; `None` unless the cursor is in the first column.
fn lines_below_erased(size: Size, spot: Spot) -> Option<Change>
    requires { IsSpot size.rows size.columns spot }
    ensures value { MakesAt size.rows size.columns spot result (λ state. lines_below_erased size.rows size.columns state) }
    ensures change { IfSome result (IsChange size.rows size.columns) }
{
    match spot {
        Spot::At(row, 0) => Some(Change::ErasedFrom(row, 0)),
        _ => None,
    }
}

// The pen after an operation that turns attributes on or off.
pub(crate) fn next_pen(pen: Pen, op: Op) -> Pen
    ensures { result ≡ next_pen pen op }
{
    match op {
        Op::Reset => Pen::plain(),
        Op::Enter(attribute) => pen.with_attrs(pen.attrs().union(attribute)),
        Op::Set(attributes) => Pen::plain().with_attrs(attributes),
        _ => pen,
    }
}

// The plain pen, for one without a colour; `None` for one with a colour.
pub(crate) fn without_attributes(pen: Pen) -> Option<Pen>
    ensures { result ≡ if is_none pen.foreground && is_none pen.background then Some plain_pen else None }
{
    if pen.foreground().is_none() && pen.background().is_none() {
        Some(Pen::plain())
    } else {
        None
    }
}

// Turns attributes off. With a colour on, it is undefined.
fn exited(pen: Pen) -> Option<Change>
    ensures value { result ≡ if is_none pen.foreground && is_none pen.background then Some (Change.Rendered plain_pen) else None }
    ensures change { (rows columns : ℕ) → IfSome result (IsChange rows columns) }
{
    match without_attributes(pen) {
        Some(pen) => Some(Change::Rendered(pen)),
        None => None,
    }
}

// Sets the pen; `None` at the margin.
fn coloured(spot: Spot, pen: Pen) -> Option<Change>
    ensures { result ≡ from_place spot (λ _ _. Some (Change.Rendered pen)) }
{
    match spot {
        Spot::At(..) => Some(Change::Rendered(pen)),
        Spot::Margin(_) => None,
    }
}
