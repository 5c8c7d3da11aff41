//! The picture of a screen: an SVG of its rows, attributes, colours and cursor.

use crate::pages::Page;
use crate::scripts::first_size;
use scr_cells::{Attrs, Charset, Look, NoMemory, Size};
use scr_term::Spot;
use scr_terminal::EcmaScreen;
use screen_scripts::{DemoFault, Output, cut_line, run_as};
use std::alloc::Global;

// A place in pixels, and how far below its top the characters stand, and what underlines them.
const WIDTH: u32 = 8;

const HEIGHT: u32 = 17;

const BASE: u32 = 13;

const UNDERLINE: u32 = 15;

// The colours from black to white, and the default ones.
const COLOURS: [&[u8]; 8] = [
    b"#000000", b"#cc0000", b"#4e9a06", b"#c4a000", b"#3465a4", b"#75507b", b"#06989a", b"#d3d7cf",
];

const INK: &[u8] = b"#d3d7cf";

const PAPER: &[u8] = b"#1d1f21";

// A rectangle in pixels.
#[derive(Clone, Copy)]
struct Area {
    left: u32,
    top: u32,
    width: u32,
    height: u32,
}

/// The picture of the screen that a terminal shows after a script; nothing for an empty script. A blinking character is
/// slanted, a dim one pale, and an invisible one left out. Each character says where it stands, so that the columns are
/// kept whatever the font.
///
/// `output` is that of a raw run. Refused at a bad line of the script, or with `NoMemory`.
pub fn picture(alloc: Global, output: Output, script: &[u8]) -> Result<Vec<u8>, DemoFault> {
    if script.is_empty() {
        return Ok(Vec::new(alloc));
    }
    let (line, _) = cut_line(script);
    let size = first_size(alloc, line)?;
    let mut bytes = Vec::new(alloc);
    run_as(alloc, script, output, &mut bytes)?;
    match shown(alloc, output.charset, size, &bytes) {
        Ok(terminal) => drawn(alloc, &terminal).map_err(|_| DemoFault::NoMemory),
        Err(_) => Err(DemoFault::NoMemory),
    }
}

// A terminal that was sent bytes. All that updates send is defined.
fn shown(
    alloc: Global,
    charset: Charset,
    size: Size,
    bytes: &[u8],
) -> Result<EcmaScreen, NoMemory> {
    let mut terminal = EcmaScreen::new_as(alloc, size, charset)?;
    let _ = terminal.feed(bytes);
    Ok(terminal)
}

fn drawn(alloc: Global, terminal: &EcmaScreen) -> Result<Vec<u8>, NoMemory> {
    let mut page = Page::new(alloc);
    let size = terminal.size();
    let (width, height) = (
        size.columns.saturating_mul(WIDTH),
        size.rows.saturating_mul(HEIGHT),
    );
    page.add(b"<svg xmlns=\"http://www.w3.org/2000/svg\" viewBox=\"0 0 ");
    page.add_value(&width);
    page.add(b" ");
    page.add_value(&height);
    page.add(
        b"\" font-family=\"monospace\" font-size=\"13\">\n<rect width=\"100%\" height=\"100%\" fill=\"",
    );
    page.add(PAPER);
    page.add(b"\"/>\n");
    for row in 0..size.rows {
        draw_row(row, terminal.row(row), &mut page);
    }
    draw_cursor(size, terminal.spot(), &mut page);
    page.add(b"</svg>\n");
    page.done()
}

// Draws the stretches of a row whose places have one rendition.
fn draw_row(row: u32, looks: &[Look], page: &mut Page) {
    let mut start = 0;
    for end in 1..looks.len().saturating_add(1) {
        if ends_at(looks, start, end) {
            draw_stretch(row, start, looks.get(start..end).unwrap_or(&[]), page);
            start = end;
        }
    }
}

// Whether a stretch that begins at a place ends before another.
fn ends_at(looks: &[Look], start: usize, end: usize) -> bool {
    match (looks.get(start), looks.get(end)) {
        (Some(first), Some(look)) => first.pen() != look.pen(),
        _ => true,
    }
}

fn draw_stretch(row: u32, column: usize, looks: &[Look], page: &mut Page) {
    let Some(first) = looks.first() else {
        return;
    };
    let attrs = first.attrs();
    let (ink, paper) = inks(*first);
    let area = Area {
        left: width_of(column),
        top: row.saturating_mul(HEIGHT),
        width: width_of(looks.len()),
        height: HEIGHT,
    };
    if paper != PAPER {
        add_rectangle(area, page);
        add_fill(paper, page);
        page.add(b"/>\n");
    }
    if has(attrs, Attrs::INVIS) {
        return;
    }
    if has(attrs, Attrs::UNDERLINE) {
        draw_underline(area, ink, attrs, page);
    }
    if looks.iter().any(|look| look.character() != ' ') {
        draw_text(area, ink, looks, page);
    }
}

// Draws the line below the characters of an area. No font has it, so that it goes on from each character to the next.
fn draw_underline(area: Area, ink: &[u8], attrs: Attrs, page: &mut Page) {
    let line = Area {
        top: area.top.saturating_add(UNDERLINE),
        height: 1,
        ..area
    };
    add_rectangle(line, page);
    add_fill(ink, page);
    add_paleness(attrs, page);
    page.add(b"/>\n");
}

// Draws the characters of an area, all of one rendition.
fn draw_text(area: Area, ink: &[u8], looks: &[Look], page: &mut Page) {
    page.add(b"<text y=\"");
    page.add_value(&area.top.saturating_add(BASE));
    page.add(b"\" ");
    add_fill(ink, page);
    if let Some(first) = looks.first() {
        add_styles(first.attrs(), page);
    }
    page.add(b">");
    let mut left = area.left;
    for look in looks {
        add_character(left, look.character(), page);
        left = left.saturating_add(WIDTH);
    }
    page.add(b"</text>\n");
}

// The width of so many places.
fn width_of(places: usize) -> u32 {
    u32::try_from(places)
        .unwrap_or(u32::MAX)
        .saturating_mul(WIDTH)
}

// The colours of a place's character and of what is around it.
fn inks(look: Look) -> (&'static [u8], &'static [u8]) {
    let ink = colour_of(look.foreground(), INK);
    let paper = colour_of(look.background(), PAPER);
    let attrs = look.attrs();
    if has(attrs, Attrs::STANDOUT) || has(attrs, Attrs::REVERSE) {
        (paper, ink)
    } else {
        (ink, paper)
    }
}

fn colour_of(colour: Option<u8>, default: &'static [u8]) -> &'static [u8] {
    match colour {
        Some(number) => COLOURS.get(usize::from(number)).copied().unwrap_or(default),
        None => default,
    }
}

fn has(attrs: Attrs, attr: Attrs) -> bool {
    attrs.0 & attr.0 != 0
}

fn add_fill(colour: &[u8], page: &mut Page) {
    page.add(b"fill=\"");
    page.add(colour);
    page.add(b"\"");
}

fn add_styles(attrs: Attrs, page: &mut Page) {
    if has(attrs, Attrs::BOLD) {
        page.add(b" font-weight=\"bold\"");
    }
    if has(attrs, Attrs::BLINK) {
        page.add(b" font-style=\"italic\"");
    }
    add_paleness(attrs, page);
}

fn add_paleness(attrs: Attrs, page: &mut Page) {
    if has(attrs, Attrs::DIM) {
        page.add(b" opacity=\"0.6\"");
    }
}

// Adds a character at its place, unless it is blank.
fn add_character(left: u32, character: char, page: &mut Page) {
    if character == ' ' {
        return;
    }
    page.add(b"<tspan x=\"");
    page.add_value(&left);
    page.add(b"\">");
    match character {
        '&' => page.add(b"&amp;"),
        '<' => page.add(b"&lt;"),
        '>' => page.add(b"&gt;"),
        _ => page.add(character.encode_utf8(&mut [0; 4]).as_bytes()),
    }
    page.add(b"</tspan>");
}

// Draws the cursor around its place. Past the last column it is at that column's right edge.
fn draw_cursor(size: Size, spot: Spot, page: &mut Page) {
    let (row, column, width) = match spot {
        Spot::At(row, column) => (row, column, WIDTH),
        Spot::Margin(row) => (row, size.columns, 1),
    };
    let area = Area {
        left: column.saturating_mul(WIDTH),
        top: row.saturating_mul(HEIGHT),
        width,
        height: HEIGHT,
    };
    add_rectangle(area, page);
    page.add(b"fill=\"none\" stroke=\"");
    page.add(INK);
    page.add(b"\"/>\n");
}

// Begins a rectangle, up to its colours.
fn add_rectangle(area: Area, page: &mut Page) {
    page.add(b"<rect x=\"");
    page.add_value(&area.left);
    page.add(b"\" y=\"");
    page.add_value(&area.top);
    page.add(b"\" width=\"");
    page.add_value(&area.width);
    page.add(b"\" height=\"");
    page.add_value(&area.height);
    page.add(b"\" ");
}
