//! Painting a whole picture from scratch, row by row and place by place.
ghost use Rattle.std.specs.Prelude.{◌≡◌, ◌+◌, ◌<◌, ◌++◌, ◌∷◌, ◌==◌, ◌&&◌, [], IfOk, OnOk, map, filter, bit_and, vec_capacity, vec_len, if◌then◌else◌};
ghost use Rattle.std.specs.List.{flat_map};
ghost use Rattle.scr_cells.specs.Attributes.{attributes_of};
ghost use Rattle.scr_cells.specs.Characters.{IsCharacter, seen_character};
ghost use Rattle.scr_term.specs.Operations.Texts.{put_of};
ghost use Rattle.scr_term.specs.declared.operations.operation.Op.TheVariants.{Enter};
ghost use Rattle.scr_plan.specs.Repaints.{look_eq};
ghost use Rattle.scr_plan.specs.Scratch.{scratch_of, row_places, renders, enter, places_cursor, sets_background, sets_foreground, Fits};
ghost use Rattle.scr_plan.specs.Code.Painters.{moves_unless_there, painter_goes, painter_leads, painter_of, painter_paints, painter_paints_place, painter_resets, painter_sees, resets_unless_plain};

use scr_cells::{Attrs, Cell, Charset, Look, NoMemory, Pen, Picture, character_laws};
use scr_planner::Target;
use scr_term::{Op, Ops, Profile, Spot};
use std::alloc::Global;

/// The operations that paint a whole picture on a terminal that may show anything
/// (curs_refresh(3X)).
///
/// First all attributes are turned off, in default colours, and the screen is cleared. Then every
/// place is painted, row by row: the cursor moves there, attributes are turned off, in default
/// colours, each attribute and each colour that is seen of the cell is turned on, and the character
/// that is seen is written. At the end attributes are turned off, in default colours, and the cursor moves to where
/// it is wanted. If the terminal has no `msgr`, attributes and colours are turned off before the
/// cursor moves; if it has no `sgr0`, there are none.
///
/// The picture has the profile's size. Fails only when memory runs out.
pub fn scratch(alloc: Global, profile: &Profile, picture: &Picture) -> Result<Ops, NoMemory>
    requires { Fits profile.now picture.now }
    ensures { IfOk result (λ ops. ops ≡ scratch_of profile.now picture.now) }
{
    let painter = Painter::of(profile);
    let size = picture.size();
    let places = size.rows as usize * size.columns as usize;
    // Most places take three operations.
    let mut ops = Vec::with_capacity(alloc, places * 3 + 4)?;
    painter.reset(&mut ops)?;
    ops.push(Op::Clear)?;
    for row in 0..size.rows {
        painter.paint_row(picture, row, &mut ops)?;
    }
    painter.finish(picture.wish(), &mut ops)?;
    Ok(Ops(ops))
}

// What painting needs to know of a profile, fetched once.
#[derive(Clone, Copy)]
pub(crate) struct Painter {
    pub(crate) charset: Charset,
    pub(crate) shown: Attrs,
    colours: bool,
    can_reset: bool,
    moves_in_any_rendition: bool,
}

impl Painter {
    // The painter for a profile.
    pub(crate) fn of(profile: &Profile) -> Painter
        ensures { result ≡ painter_of profile.now }
    {
        Painter {
            charset: profile.charset(),
            shown: profile.shows(),
            colours: profile.colours(),
            can_reset: profile.can_reset(),
            moves_in_any_rendition: profile.moves_in_any_rendition(),
        }
    }

    // Adds the operations for every place of a row.
    fn paint_row(self, picture: &Picture, row: u32, ops: &mut Vec<Op>) -> Result<(), NoMemory>
        requires { row < picture.now.rows }
        ensures { OnOk result (ops.new.items
            ≡ ops.old.items ++ flat_map (painter_paints_place self picture.now) (row_places picture.now.columns row)) }
    {
        let cells = picture.row(row);
        for column in 0..picture.size().columns {
            self.paint_cell(picture, (row, column), cells[column as usize], ops)?;
        }
        Ok(())
    }

    // Adds the operations for a cell of a picture in a place.
    pub(crate) fn paint_cell(
        self,
        picture: &Picture,
        place: (u32, u32),
        cell: Cell,
        ops: &mut Vec<Op>,
    ) -> Result<(), NoMemory>
        ensures { OnOk result (ops.new.items ≡ ops.old.items ++ painter_paints self picture.now.pairs place cell) }
    {
        self.begin(
            &Target {
                row: place.0,
                column: place.1,
                pen: self.pen_of(picture, cell),
            },
            ops,
        )?;
        ops.reserve(1)?;
        self.push_written(cell, ops);
        Ok(())
    }

    // Adds what leads to a place with a pen.
    #[inline(always)]
    pub(crate) fn begin(self, to: &Target, ops: &mut Vec<Op>) -> Result<(), NoMemory>
        ensures { OnOk result (ops.new.items ≡ ops.old.items ++ painter_goes self (to.now.row, to.now.column) ++ renders to.now.pen) }
    {
        self.go(to.row, to.column, ops)?;
        enter_each(to.pen.attrs().0, ops)?;
        set_colours(to.pen.foreground(), to.pen.background(), ops)
    }

    // Adds what leads to a place with a pen from a known spot and pen, without what would change
    // nothing.
    pub(crate) fn lead(
        self,
        spot: Spot,
        now: Pen,
        to: &Target,
        ops: &mut Vec<Op>,
    ) -> Result<(), NoMemory>
        ensures { OnOk result (ops.new.items ≡ ops.old.items ++ painter_leads self spot now (to.now.row, to.now.column) to.now.pen) }
    {
        let moves_first = self.moves_in_any_rendition;
        if moves_first {
            self.move_unless_there(spot, to.row, to.column, ops)?;
            self.reset_unless_plain(now, ops)?;
        } else {
            self.reset_unless_plain(now, ops)?;
            self.move_unless_there(spot, to.row, to.column, ops)?;
        }
        enter_each(to.pen.attrs().0, ops)?;
        set_colours(to.pen.foreground(), to.pen.background(), ops)
    }

    // Adds what moves the cursor to a place, unless it is there.
    pub(crate) fn move_unless_there(
        self,
        spot: Spot,
        row: u32,
        column: u32,
        ops: &mut Vec<Op>,
    ) -> Result<(), NoMemory>
        ensures { OnOk result (ops.new.items ≡ ops.old.items ++ moves_unless_there spot (row, column)) }
    {
        if spot != Spot::At(row, column) {
            ops.push(Op::Move(row, column))?;
        }
        Ok(())
    }

    // Adds what turns attributes off and makes colours default, unless they are.
    pub(crate) fn reset_unless_plain(self, now: Pen, ops: &mut Vec<Op>) -> Result<(), NoMemory>
        ensures { OnOk result (ops.new.items ≡ ops.old.items ++ resets_unless_plain self now) }
    {
        if now.is_plain() {
            return Ok(());
        }
        self.reset(ops)
    }

    // Adds the operations for a cell of a picture in a place, unless the place is known to show
    // what is seen of the cell.
    pub(crate) fn paint_unless_shown(
        self,
        picture: &Picture,
        place: (u32, u32),
        cell: Cell,
        known: bool,
        look: Look,
        ops: &mut Vec<Op>,
    ) -> Result<(), NoMemory>
        ensures { OnOk result (ops.new.items
            ≡ ops.old.items ++ (if known && look_eq look (painter_sees self picture.now.pairs cell) then [] else painter_paints self picture.now.pairs place cell)) }
    {
        if known && self.is_seen(picture, look, cell) {
            return Ok(());
        }
        self.paint_cell(picture, place, cell, ops)
    }

    // Whether a look is what is seen of a cell. Pens are compared as a whole, since most places
    // that are looked at need nothing.
    #[inline(always)]
    pub(crate) fn is_seen(self, picture: &Picture, look: Look, cell: Cell) -> bool
        ensures { result ≡ look_eq look (painter_sees self picture.now.pairs cell) }
    {
        look.code() == self.code_of(cell) && look.pen() == self.pen_of(picture, cell)
    }

    // The code of the character that is seen of a cell.
    #[inline(always)]
    pub(crate) fn code_of(self, cell: Cell) -> u32
        ensures value { result ≡ seen_character self.charset cell.character }
        ensures character { IsCharacter result }
    {
        self.charset.seen(cell)
    }

    // Adds what writes the character that is seen of a cell to operations that have room for it. Most are of ASCII:
    // with either charset they are seen as they are, and what is added is made in its place.
    #[inline(always)]
    #[tactic(auto, unfolding(scr_term::specs::Operations::Texts::put_of))]
    pub(crate) fn push_written(self, cell: Cell, ops: &mut Vec<Op>)
        requires { vec_len ops.old < vec_capacity ops.old }
        ensures items { ops.new.items ≡ ops.old.items ++ put_of (seen_character self.charset cell.character) ∷ [] }
        ensures len { vec_len ops.new ≡ vec_len ops.old + 1 }
        ensures capacity { vec_capacity ops.new ≡ vec_capacity ops.old }
    {
        character_laws();
        let code = cell.code();
        if code < 128 {
            ops.push_reserved(Op::Put(code as u8));
        } else {
            push_beyond(self.code_of(cell), ops);
        }
    }

    // The pen that a cell is seen with.
    #[inline(always)]
    pub(crate) fn pen_of(self, picture: &Picture, cell: Cell) -> Pen
        ensures { result ≡ (painter_sees self picture.now.pairs cell).pen }
    {
        picture.seen_pen(cell, self.shown, self.colours)
    }

    // Adds what moves the cursor to a place, with no attribute and default colours.
    #[inline(always)]
    fn go(self, row: u32, column: u32, ops: &mut Vec<Op>) -> Result<(), NoMemory>
        ensures { OnOk result (ops.new.items ≡ ops.old.items ++ painter_goes self (row, column)) }
    {
        if self.moves_in_any_rendition {
            ops.push(Op::Move(row, column))?;
            return self.reset(ops);
        }
        self.reset(ops)?;
        ops.push(Op::Move(row, column))?;
        Ok(())
    }

    // Adds what ends a repaint: no attribute and default colours, and the cursor where it is
    // wanted.
    pub(crate) fn finish(self, wish: Option<(u32, u32)>, ops: &mut Vec<Op>) -> Result<(), NoMemory>
        ensures { OnOk result (ops.new.items ≡ ops.old.items ++ painter_resets self ++ places_cursor wish) }
    {
        self.reset(ops)?;
        if let Some((row, column)) = wish {
            ops.push(Op::Move(row, column))?;
        }
        Ok(())
    }

    // Adds what turns attributes off and makes colours default.
    pub(crate) fn reset(self, ops: &mut Vec<Op>) -> Result<(), NoMemory>
        ensures { OnOk result (ops.new.items ≡ ops.old.items ++ painter_resets self) }
    {
        if self.can_reset {
            ops.push(Op::Reset)?;
        }
        Ok(())
    }
}

// What writes the character of a code.
#[inline(always)]
#[tactic(auto, unfolding(scr_term::specs::Operations::Texts::put_of))]
pub(crate) fn written_by(code: u32) -> Op
    requires { IsCharacter code }
    ensures { result ≡ put_of code }
{
    character_laws();
    if code < 128 {
        return Op::Put(code as u8);
    }
    // There is one, since no character is a surrogate.
    Op::Write(char::from_u32(code).unwrap_or(' '))
}

// Adds what writes the character of a code to operations that have room for it.
#[inline(never)]
fn push_beyond(code: u32, ops: &mut Vec<Op>)
    requires character { IsCharacter code }
    requires room { vec_len ops.old < vec_capacity ops.old }
    ensures items { ops.new.items ≡ ops.old.items ++ put_of code ∷ [] }
    ensures len { vec_len ops.new ≡ vec_len ops.old + 1 }
    ensures capacity { vec_capacity ops.new ≡ vec_capacity ops.old }
{
    ops.push_reserved(written_by(code));
}

// Adds an operation for each attribute of a set.
fn enter_each(set: u8, ops: &mut Vec<Op>) -> Result<(), NoMemory>
    ensures { OnOk result (ops.new.items ≡ ops.old.items ++ map enter (attributes_of set)) }
{
    if set == 0 {
        return Ok(());
    }
    enter_each_of(set, &Attrs::EACH, ops)
}

// Adds an operation for each of these attributes that is in the set.
fn enter_each_of(set: u8, attributes: &[Attrs], ops: &mut Vec<Op>) -> Result<(), NoMemory>
    ensures { OnOk result (ops.new.items
        ≡ ops.old.items ++ map Enter (filter (λ a. bit_and set a.0 == a.0) attributes.now)) }
{
    for attribute in attributes {
        if set & attribute.0 == attribute.0 {
            ops.push(Op::Enter(*attribute))?;
        }
    }
    Ok(())
}

// Adds what sets these colours, unless they are the default ones.
fn set_colours(
    foreground: Option<u8>,
    background: Option<u8>,
    ops: &mut Vec<Op>,
) -> Result<(), NoMemory>
    ensures { OnOk result (ops.new.items ≡ ops.old.items ++ sets_foreground foreground ++ sets_background background) }
{
    if let Some(colour) = foreground {
        ops.push(Op::Fore(colour))?;
    }
    if let Some(colour) = background {
        ops.push(Op::Back(colour))?;
    }
    Ok(())
}
