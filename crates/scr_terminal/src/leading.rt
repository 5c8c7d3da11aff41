//! Where operations lead that change no cell: motions to another spot, renditions to another pen.
ghost use Rattle.std.specs.Prelude.{◌≡◌, ◌↔◌, ℕ, IsTrue, IfNone, IfSome, true};
ghost use Rattle.scr_cells.specs.declared.charsets.Charset.TheVariants.{Utf8};
ghost use Rattle.scr_term.specs.Operations.Abilities.{full_abilities};
ghost use Rattle.scr_terminal.specs.Leading.{GoesTo, IsUndefinedAt, TurnsTo, is_motion, is_turn};
ghost use Rattle.scr_term.specs.Operations.States.{IsShownPen, IsSpot};
ghost use Rattle.scr_term.specs.Operations.Texts.{has};

use crate::changes::Change;
use crate::steps::{change_of, next_pen, without_attributes};
use bitflags::Flags;
use scr_cells::{Attrs, Pen};
use scr_term::{Op, Profile, Spot};

/// The spot to which a motion leads from `spot` with `pen`: `Home`, `Move`, `Column`, `Line`,
/// `Up`, `Down`, `Left`, `Right`, `UpBy`, `DownBy`, `LeftBy`, `RightBy` or `Return`. The motion
/// changes nothing else. The terminal has to have the operation; `cost` is `Some` if it does.
///
/// `None` if the operation is none of these or is undefined: it leads off the screen; the
/// cursor is at the margin, and it is neither `Home` nor `Move`; or an attribute or a colour is
/// on, and the terminal has no `msgr`. Also `None` if `spot` is off the screen, or `pen` has an
/// unknown attribute.
pub fn moved_by(profile: &Profile, spot: Spot, pen: Pen, op: Op) -> Option<Spot>
    requires { IsTrue (has profile.now op) }
    ensures goes { IfSome result (GoesTo profile.now spot pen op) }
    ensures undefined { IfNone result (is_motion op ≡ true → IsSpot profile.now.rows profile.now.columns spot → IsShownPen (full_abilities Utf8 profile.now.rows profile.now.columns) pen → IsUndefinedAt profile.now spot pen op) }
{
    if !is_on_screen(profile, spot) {
        return None;
    }
    if !is_shown_by_all(pen) {
        return None;
    }
    match op {
        Op::Put(_) | Op::Write(_) | Op::Repeat(..) => None,
        _ => match change_of(profile, spot, pen, op) {
            Some(Change::Moved(next)) => Some(next),
            _ => None,
        },
    }
}

/// The pen after an operation that turns attributes on or off or sets a colour, from `spot`
/// with `pen`: `Reset`, `ExitAttributes`, `Enter`, `Set`, `Fore` or `Back`. The operation changes
/// nothing else.
///
/// `None` if the operation is none of these, if the terminal does not have it, or if it is
/// undefined: it sets a colour while the cursor is at the margin, or it is `ExitAttributes` and a
/// colour is on.
#[tactic(auto, unfolding(scr_term::specs::Operations::Texts::has))]
pub fn turned(profile: &Profile, spot: Spot, pen: Pen, op: Op) -> Option<Pen>
    ensures turns { IfSome result (TurnsTo profile.now spot pen op) }
    ensures undefined { IfNone result (is_turn op ≡ true → IsUndefinedAt profile.now spot pen op) }
{
    if !profile.has(op) {
        return None;
    }
    match op {
        Op::Reset | Op::Enter(_) | Op::Set(_) => Some(next_pen(pen, op)),
        Op::ExitAttributes => without_attributes(pen),
        Op::Fore(colour) => match spot {
            Spot::At(..) => Some(pen.with_foreground(Some(colour))),
            Spot::Margin(_) => None,
        },
        Op::Back(colour) => match spot {
            Spot::At(..) => Some(pen.with_background(Some(colour))),
            Spot::Margin(_) => None,
        },
        _ => None,
    }
}

// Whether a spot is on the screen.
fn is_on_screen(profile: &Profile, spot: Spot) -> bool
    ensures { IsTrue result ↔ IsSpot profile.now.rows profile.now.columns spot }
{
    let size = profile.size();
    match spot {
        Spot::At(row, column) => row < size.rows && column < size.columns,
        Spot::Margin(row) => row < size.rows,
    }
}

// Whether a terminal that shows everything shows a pen.
fn is_shown_by_all(pen: Pen) -> bool
    ensures shown { (rows columns : ℕ) → IsTrue result → IsShownPen (full_abilities Utf8 rows columns) pen }
    ensures hidden { (rows columns : ℕ) → IsShownPen (full_abilities Utf8 rows columns) pen → IsTrue result }
{
    Attrs::EVERY.contains(pen.attrs())
}
