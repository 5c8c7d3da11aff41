//! Lines about sizes, sets of attributes, cells and looks, and rows of these.

use bitflags::Flags;
use check_harness::answers::{add_any, add_cell, add_count, add_flag, add_look, add_number};
use check_harness::buffers::Buffer;
use check_harness::troubles::Trouble;
use check_harness::words::{CallLine, Words};
use scr_cells::{
    Attrs, Cell, Charset, Look, Size, first_difference, first_look_difference, last_difference,
    last_look_difference, shown_before,
};

/// The lines `new_size R C`, `union A B`, `difference A B`, `contains A B`, `all_attributes`, `new_cell B A`, `paired B
/// A P`, `cell_of CODE A P`, `new_look B A F G`, `blank_cell`, `blank_look` and `same_look B A F G B A F G`, where a
/// look is a byte, attributes, a foreground and a background; and those about rows. Tells whether a line is one of
/// them.
pub fn answer_of_values(line: &mut CallLine<'_>) -> Result<bool, Trouble> {
    let (words, got) = (&mut line.words, &mut line.got);
    match line.name {
        "new_size" => add_flag(Size::new(words.number(), words.number()).is_some(), got),
        "all_attributes" => add_number(i64::from(Attrs::all().0), got),
        "union" | "difference" | "contains" => add_of_sets(line.name, words, got),
        "new_cell" => add_any(Cell::new(words.byte(), Attrs(words.byte())), got, add_cell),
        "paired" => {
            let cell = Cell::paired(words.byte(), Attrs(words.byte()), words.number());
            add_any(cell, got, add_cell);
        }
        "cell_of" => {
            let code = words.number();
            let (attrs, pair) = (Attrs(words.byte()), words.number());
            let cell = char::from_u32(code).and_then(|character| Cell::of(character, attrs, pair));
            add_any(cell, got, add_whole_cell);
        }
        "blank_cell" => add_cell(Cell::blank(), got),
        "new_look" => add_any(read_look(words), got, add_look),
        "blank_look" => add_look(Look::blank(), got),
        "same_look" => match (read_look(words), read_look(words)) {
            (Some(one), Some(other)) => add_flag(one == other, got),
            _ => return Err(Trouble::Bad("no look")),
        },
        "differences" | "shown_before" => add_of_rows(line)?,
        _ => return Ok(false),
    }
    Ok(true)
}

// The line `differences TEXT TEXT`: the first and the last place in which two rows of cells differ, and then two rows
// of looks; and the line `shown_before TEXT TEXT A`: how far the looks of the first surely show the cells of the second
// on a terminal that shows these attributes.
fn add_of_rows(line: &mut CallLine<'_>) -> Result<(), Trouble> {
    let (one, other) = (read_row(line)?, read_row(line)?);
    if one.cells.len() != other.cells.len() || one.looks.len() != other.looks.len() {
        return Err(Trouble::Bad("rows of different lengths"));
    }
    let got = &mut line.got;
    if line.name == "differences" {
        add_place(first_difference(&one.cells, &other.cells), got);
        add_place(last_difference(&one.cells, &other.cells), got);
        add_place(first_look_difference(&one.looks, &other.looks), got);
        add_place(last_look_difference(&one.looks, &other.looks), got);
        return Ok(());
    }
    let shown = Attrs(line.words.byte());
    if one.looks.len() == other.cells.len() {
        add_place(
            Some(shown_before(
                Some(one.looks.as_slice()),
                &other.cells,
                Charset::Ascii,
                shown,
            )),
            got,
        );
    }
    Ok(())
}

// A row of plain cells, and what a terminal shows of it.
#[derive(Drop)]
struct Row {
    cells: Vec<Cell>,
    looks: Vec<Look>,
}

fn read_row(line: &mut CallLine<'_>) -> Result<Row, Trouble> {
    let text = line.text();
    let mut row = Row {
        cells: Vec::new(line.alloc),
        looks: Vec::new(line.alloc),
    };
    for byte in text.bytes() {
        row.cells
            .push(Cell::new(*byte, Attrs(0)).unwrap_or(Cell::blank()))?;
        row.looks.push(Look::new(*byte, Attrs(0), None, None).unwrap_or(Look::blank()))?;
    }
    Ok(row)
}

// Adds what a cell holds, by its stand-in, and then the code of its character.
fn add_whole_cell(cell: Cell, got: &mut Buffer) {
    add_cell(cell, got);
    add_number(i64::from(u32::from(cell.character())), got);
}

fn add_place(place: Option<usize>, got: &mut Buffer) {
    add_any(place, got, |place, got| add_count(place as u64, got));
}

fn add_of_sets(word: &str, words: &mut Words<'_>, got: &mut Buffer) {
    let (one, other) = (Attrs(words.byte()), Attrs(words.byte()));
    match word {
        "union" => add_number(i64::from(one.union(other).0), got),
        "difference" => add_number(i64::from(one.difference(other).0), got),
        _ => add_flag(one.contains(other), got),
    }
}

// Reads a look: a byte, attributes, a foreground and a background.
fn read_look(words: &mut Words<'_>) -> Option<Look> {
    let (byte, attrs) = (words.byte(), Attrs(words.byte()));
    Look::new(byte, attrs, read_colour(words), read_colour(words))
}

// Reads a colour; `-` is the default one.
fn read_colour(words: &mut Words<'_>) -> Option<u8> {
    if words.peek() == b"-".as_slice() {
        let _default = words.next();
        return None;
    }
    Some(words.byte())
}
