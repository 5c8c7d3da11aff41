//! Printing the lines that show a screen.
ghost use Rattle.std.specs.Prelude.{◌≡◌, ◌==◌, ◌++◌, ◌<◌, IfSome, OnOk};
ghost use Rattle.std.specs.Fmt.{decimal};
ghost use Rattle.std.specs.List.{list_all};
ghost use Rattle.scr_cells.specs.PenViews.{IsColour};
ghost use Rattle.ti_caps.specs.Table.{name_at};
ghost use Rattle.ti_caps.specs.declared.table.Kind.TheVariants as KindView;
ghost use Rattle.screen_scripts.specs.Printing.{attribute_line, character_line, colour_line, cursor_line, has_default_colours, key_line, name_or_none, refusal_line, row_lines, screen_lines, colour_digit as colour_digit_of, hexadecimal_digit as hexadecimal_digit_of};

use scr_cells::{Look, NoMemory};
use scr_keys::Key;
use scr_term::Spot;
use scr_terminal::EcmaScreen;
use ti_caps::{Kind, Slot, name_of};

/// Adds the lines of a screen: for each row its characters, its attributes if it has any and its
/// colours if it has any; then the cursor. Fails only when memory runs out; what was added until
/// then stays.
pub fn print_screen(screen: &EcmaScreen, text: &mut Vec<u8>) -> Result<(), NoMemory>
    ensures { OnOk result (text.new.items ≡ text.old.items ++ screen_lines screen.now.state.grid screen.now.state.spot) }
{
    for row in 0..screen.size().rows {
        print_row(screen.row(row), text)?;
    }
    print_cursor(screen.spot(), text)
}

/// Adds the line for a refusal.
pub fn print_refusal(name: &str, text: &mut Vec<u8>) -> Result<(), NoMemory>
    ensures { OnOk result (text.new.items ≡ text.old.items ++ refusal_line name.now) }
{
    text.extend_from_slice(b"refused ")?;
    text.extend_from_slice(name.as_bytes())?;
    text.push(b'\n')?;
    Ok(())
}

/// Adds the line for a key.
pub fn print_key(key: Key, text: &mut Vec<u8>) -> Result<(), NoMemory>
    ensures { OnOk result (text.new.items ≡ text.old.items ++ key_line key) }
{
    text.extend_from_slice(b"key ")?;
    match key {
        Key::Slot(slot) => print_capability(slot, text)?,
        Key::Byte(byte) => print_number(u32::from(byte), text)?,
    }
    text.push(b'\n')?;
    Ok(())
}

// Adds the name of the text capability at a position, if it has one.
fn print_capability(slot: u16, text: &mut Vec<u8>) -> Result<(), NoMemory>
    ensures { OnOk result (text.new.items ≡ text.old.items ++ name_or_none (name_at KindView.Text slot)) }
{
    if let Some(name) = name_of(Kind::Text, Slot(slot)) {
        text.extend_from_slice(name.as_bytes())?;
    }
    Ok(())
}

// Adds a row's characters, its attributes if it has any, and its colours if one is not the default.
fn print_row(looks: &[Look], text: &mut Vec<u8>) -> Result<(), NoMemory>
    ensures { OnOk result (text.new.items ≡ text.old.items ++ row_lines looks.now) }
{
    print_characters(looks, text)?;
    print_attributes(looks, text)?;
    print_colours(looks, text)
}

// Adds the characters of a row between two bars, in UTF-8.
fn print_characters(looks: &[Look], text: &mut Vec<u8>) -> Result<(), NoMemory>
    ensures { OnOk result (text.new.items ≡ text.old.items ++ character_line looks.now) }
{
    text.push(b'|')?;
    for look in looks {
        let mut buffer = [0; 4];
        let character = look.character();
        text.extend_from_slice(character.encode_utf8(&mut buffer).as_bytes())?;
    }
    text.extend_from_slice(b"|\n")?;
    Ok(())
}

// Adds the attributes of a row between two colons, or nothing if it has none.
fn print_attributes(looks: &[Look], text: &mut Vec<u8>) -> Result<(), NoMemory>
    ensures { OnOk result (text.new.items ≡ text.old.items ++ attribute_line looks.now) }
{
    if are_plain(looks) {
        return Ok(());
    }
    text.push(b':')?;
    for look in looks {
        let attrs = look.attrs().0;
        text.push(hexadecimal_digit(attrs / 16))?;
        text.push(hexadecimal_digit(attrs % 16))?;
    }
    text.extend_from_slice(b":\n")?;
    Ok(())
}

// Whether no place has an attribute.
fn are_plain(looks: &[Look]) -> bool
    ensures { result ≡ list_all (λ look. look.pen.attrs == 0) looks.now }
{
    looks.iter().all(|look| look.attrs().0 == 0)
}

// Adds the colours of a row between two `=`, or nothing if all are the default.
fn print_colours(looks: &[Look], text: &mut Vec<u8>) -> Result<(), NoMemory>
    ensures { OnOk result (text.new.items ≡ text.old.items ++ colour_line looks.now) }
{
    if have_default_colours(looks) {
        return Ok(());
    }
    text.push(b'=')?;
    for look in looks {
        text.push(colour_digit(look.foreground()))?;
        text.push(colour_digit(look.background()))?;
    }
    text.extend_from_slice(b"=\n")?;
    Ok(())
}

// Whether every place has the default colours.
fn have_default_colours(looks: &[Look]) -> bool
    ensures { result ≡ list_all has_default_colours looks.now }
{
    looks.iter().all(|look| look.foreground().is_none() && look.background().is_none())
}

// The digit of a colour, or a dash for the default.
fn colour_digit(colour: Option<u8>) -> u8
    requires { IfSome colour IsColour }
    ensures { result ≡ colour_digit_of colour }
{
    match colour {
        Some(colour) => b'0' + colour,
        None => b'-',
    }
}

// The digit of a number below 16.
fn hexadecimal_digit(n: u8) -> u8
    requires { n < 16 }
    ensures { result ≡ hexadecimal_digit_of n }
{
    if n < 10 { b'0' + n } else { b'a' + (n - 10) }
}

// Adds the line that says where the cursor is.
fn print_cursor(spot: Spot, text: &mut Vec<u8>) -> Result<(), NoMemory>
    ensures { OnOk result (text.new.items ≡ text.old.items ++ cursor_line spot) }
{
    text.extend_from_slice(b"cursor ")?;
    match spot {
        Spot::At(row, column) => {
            print_number(row, text)?;
            text.push(b' ')?;
            print_number(column, text)?;
        }
        Spot::Margin(row) => {
            print_number(row, text)?;
            text.extend_from_slice(b" margin")?;
        }
    }
    text.push(b'\n')?;
    Ok(())
}

// Adds a number in decimal digits.
fn print_number(n: u32, text: &mut Vec<u8>) -> Result<(), NoMemory>
    ensures { OnOk result (text.new.items ≡ text.old.items ++ decimal n) }
{
    let mut digits = itoa::Buffer::new();
    text.extend_from_slice(digits.format(n).as_bytes())?;
    Ok(())
}
