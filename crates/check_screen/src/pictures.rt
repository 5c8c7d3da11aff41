//! Lines about a picture.
ghost use Rattle.std.specs.Prelude.{IfOk, IfSome};
ghost use Rattle.scr_cells.specs.PenViews.{IsColour};

use crate::subjects::Subjects;
use crate::terminals::add_size;
use check_harness::answers::{
    add_any, add_any_place, add_cell, add_colour, add_place, add_text_of, add_word, read_cell,
};
use check_harness::buffers::Buffer;
use check_harness::troubles::Trouble;
use check_harness::words::{CallLine, Words};
use scr_cells::{Cell, Picture};

/// The lines `put R C B A P`, `put_row R C B A P`, `fill R C E B A P`, `wish R C`, `wish none`, `set_pair P F G`, and `set_pair_of P F G`,
/// where a foreground and a background are set; and those that ask. `put_row` puts a blank after the cell, `fill` puts
/// a cell in the columns from C up to E. Tells whether a line is one of them.
pub fn answer_of_picture(
    subjects: &mut Subjects,
    line: &mut CallLine<'_>,
) -> Result<bool, Trouble> {
    let Some(picture) = &mut subjects.picture else {
        return Ok(false);
    };
    match line.name {
        "put" | "put_row" | "fill" => put(picture, line.name, &mut line.words)?,
        "wish" => wish(picture, &mut line.words)?,
        "set_pair" => set_pair(picture, &mut line.words)?,
        "set_pair_of" => set_pair_of(picture, &mut line.words)?,
        _ => return add_seen(picture, line),
    }
    add_word("Ok", &mut line.got);
    Ok(true)
}

/// The lines `wished`, `picture_size`, `picture_rows`, `picture_at R C` and `pair P`. Tells whether a line is one of
/// them.
pub fn add_seen(picture: &Picture, line: &mut CallLine<'_>) -> Result<bool, Trouble> {
    let (words, got) = (&mut line.words, &mut line.got);
    match line.name {
        "wished" => add_wish(picture, got),
        "picture_size" => add_size(picture.size(), got),
        "picture_rows" => {
            for row in 0..picture.size().rows {
                add_text_of(row_of(picture, row), got);
            }
        }
        "picture_at" => match row_of(picture, words.number()).get(words.number() as usize) {
            Some(cell) => add_cell(*cell, got),
            None => return Err(Trouble::Bad("no place of the picture")),
        },
        "pair" => add_any(picture.pair(words.number()), got, |(fore, back), got| {
            add_place(u32::from(fore), u32::from(back), got);
        }),
        "pair_of" => add_any(picture.pair_of(words.number()), got, |(fore, back), got| {
            add_colour(fore, got);
            add_colour(back, got);
        }),
        _ => return Ok(false),
    }
    Ok(true)
}

/// The cells of a row, none where there is no such row.
pub fn row_of(picture: &Picture, row: u32) -> &[Cell] {
    if row < picture.size().rows {
        picture.row(row)
    } else {
        &[]
    }
}

// A cell, by itself, with a blank after it as a run, or in each column of a part of a row.
fn put(picture: &mut Picture, word: &str, words: &mut Words<'_>) -> Result<(), Trouble> {
    let (row, column) = (words.number(), words.number());
    let end = match word {
        "fill" => words.number(),
        _ => column.saturating_add(1),
    };
    let cell = read_cell(words);
    if word == "put_row" {
        return put_row(picture, row, column, cell);
    }
    for column in column..end {
        let size = picture.size();
        if row >= size.rows || column >= size.columns {
            return Err(Trouble::Bad("no place of the picture"));
        }
        picture.put(row, column, cell);
    }
    Ok(())
}

fn put_row(picture: &mut Picture, row: u32, column: u32, cell: Cell) -> Result<(), Trouble> {
    let size = picture.size();
    if row >= size.rows || column >= size.columns.saturating_sub(1) {
        return Err(Trouble::Bad("no places of the picture"));
    }
    picture.put_row(row, column, &[cell, Cell::blank()]);
    Ok(())
}

fn wish(picture: &mut Picture, words: &mut Words<'_>) -> Result<(), Trouble> {
    if words.peek() == b"none".as_slice() {
        let _none = words.next();
        picture.set_wish(None);
        return Ok(());
    }
    let (row, column) = (words.number(), words.number());
    let size = picture.size();
    if row >= size.rows || column >= size.columns {
        return Err(Trouble::Bad("no place of the picture"));
    }
    picture.set_wish(Some((row, column)));
    Ok(())
}

fn set_pair(picture: &mut Picture, words: &mut Words<'_>) -> Result<(), Trouble> {
    let pair = words.number();
    let (foreground, background) = (words.byte(), words.byte());
    if pair == 0 || pair > 63 || foreground > 7 || background > 7 {
        return Err(Trouble::Bad("no colours of a pair"));
    }
    picture.set_pair(pair, foreground, background);
    Ok(())
}

fn set_pair_of(picture: &mut Picture, words: &mut Words<'_>) -> Result<(), Trouble> {
    let pair = words.number();
    let (foreground, background) = (colour(words)?, colour(words)?);
    if pair == 0 || pair > 63 {
        return Err(Trouble::Bad("no colours of a pair"));
    }
    picture.set_pair_of(pair, foreground, background);
    Ok(())
}

// A colour, or `-` for the default one.
fn colour(words: &mut Words<'_>) -> Result<Option<u8>, Trouble>
    ensures { IfOk result (λ colour. IfSome colour IsColour) }
{
    if words.peek() == b"-".as_slice() {
        let _dash = words.next();
        return Ok(None);
    }
    match words.byte() {
        colour if colour < 8 => Ok(Some(colour)),
        _ => Err(Trouble::Bad("no colour")),
    }
}

/// Adds where the cursor is wanted.
pub fn add_wish(picture: &Picture, got: &mut Buffer) {
    add_any_place(picture.wish(), got);
}
