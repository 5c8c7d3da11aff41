//! Calls by the short names that scripts have for them. The definitions are in `specs/ShortCalls.antt`.
ghost use Rattle.std.specs.Prelude.{◌≡◌, false, map};
ghost use Rattle.screen_calls.specs.Fields.{colour as colour_of, graphic as graphic_of, integer as integer_of, number as number_of, setting as setting_of, up_to as up_to_of};
ghost use Rattle.screen_calls.specs.Reading.{read};
ghost use Rattle.screen_calls.specs.ShortCalls.{attributes, background_read, change_call, copy_call, copy_read, five_numbers, four_numbers, one_read, pad_read, pair_read, refresh_call, resize_read, setting_call, seven_numbers, short_call, subwindow_call, three_read, two_read, window};
ghost use Rattle.screen_calls.specs.declared.calls.Call.TheVariants.{AddByte, AttrSet, ChangeBackground, Copy, Derive, PadNoutrefresh, ResizeWindow, Scroll, ScrollOk, SetPairOf, Sub, SubPad};

use crate::calls::Call;
use crate::fields::{colour, count_fault, graphic, integer, number, setting, up_to};
use crate::reasons::Reason;
use scr_cells::{Attrs, Cell};
use scr_windows::{BOX, Win};

/// The call by this name with these fields.
#[tactic(auto, unfolding(crate::specs::ShortCalls::short_call))]
pub(crate) fn short_call<'a>(name: &'a [u8], fields: &[&'a [u8]]) -> Result<Call, Reason<'a>>
    ensures { read result ≡ short_call name.now (map (λ field. field.now) fields.now) }
{
    if name == b"win".as_slice() {
        let (rows, columns, row, column) = four(fields)?;
        Ok(Call::NewWindow(rows, columns, row, column))
    } else if name == b"pad".as_slice() {
        let (rows, columns) = two(fields)?;
        Ok(Call::NewPad(rows, columns))
    } else if name == b"del".as_slice() {
        Ok(Call::Delete(Win(one(fields)?)))
    } else if name == b"touch".as_slice() {
        Ok(Call::TouchWindow(Win(one(fields)?)))
    } else if name == b"untouch".as_slice() {
        Ok(Call::Untouch(Win(one(fields)?)))
    } else {
        subwindow_call(name, fields)
    }
}

// Calls that make subwindows or give windows another size, and those after them.
#[tactic(auto, unfolding(crate::specs::ShortCalls::subwindow_call))]
fn subwindow_call<'a>(name: &'a [u8], fields: &[&'a [u8]]) -> Result<Call, Reason<'a>>
    ensures { read result ≡ subwindow_call name.now (map (λ field. field.now) fields.now) }
{
    if name == b"sub".as_slice() {
        sub(fields)
    } else if name == b"derive".as_slice() {
        derived(fields)
    } else if name == b"subpad".as_slice() {
        sub_pad(fields)
    } else if name == b"resize".as_slice() {
        resized(fields)
    } else {
        change_call(name, fields)
    }
}

// Calls that change cells, and those after them.
#[tactic(auto, unfolding(crate::specs::ShortCalls::change_call))]
fn change_call<'a>(name: &'a [u8], fields: &[&'a [u8]]) -> Result<Call, Reason<'a>>
    ensures { read result ≡ change_call name.now (map (λ field. field.now) fields.now) }
{
    if name == b"byte".as_slice() {
        byte(fields)
    } else if name == b"bkgd".as_slice() {
        background(fields)
    } else if name == b"erase".as_slice() {
        Ok(Call::Erase(Win(one(fields)?)))
    } else if name == b"clear".as_slice() {
        Ok(Call::Clear(Win(one(fields)?)))
    } else if name == b"lines".as_slice() {
        Ok(Call::BorderOf(Win(one(fields)?), BOX))
    } else if name == b"scroll".as_slice() {
        moving(fields)
    } else {
        copy_call(name, fields)
    }
}

// Calls that copy from window to window, and those after them.
#[tactic(auto, unfolding(crate::specs::ShortCalls::copy_call))]
fn copy_call<'a>(name: &'a [u8], fields: &[&'a [u8]]) -> Result<Call, Reason<'a>>
    ensures { read result ≡ copy_call name.now (map (λ field. field.now) fields.now) }
{
    if name == b"copy".as_slice() {
        copying(fields)
    } else if name == b"overlay".as_slice() {
        let (source, target) = two(fields)?;
        Ok(Call::Overlay(Win(source), Win(target)))
    } else if name == b"overwrite".as_slice() {
        let (source, target) = two(fields)?;
        Ok(Call::Overwrite(Win(source), Win(target)))
    } else {
        setting_call(name, fields)
    }
}

// Calls that set something, and those after them.
#[tactic(auto, unfolding(crate::specs::ShortCalls::setting_call))]
fn setting_call<'a>(name: &'a [u8], fields: &[&'a [u8]]) -> Result<Call, Reason<'a>>
    ensures { read result ≡ setting_call name.now (map (λ field. field.now) fields.now) }
{
    if name == b"at".as_slice() {
        let (window, row, column) = three(fields)?;
        Ok(Call::MoveCursor(Win(window), row, column))
    } else if name == b"attr".as_slice() {
        attributes(fields)
    } else if name == b"color".as_slice() {
        let (window, pair) = two(fields)?;
        Ok(Call::ColorSet(Win(window), pair))
    } else if name == b"pair".as_slice() {
        colours(fields)
    } else if name == b"scrollok".as_slice() {
        scrolling(fields)
    } else {
        refresh_call(name, fields)
    }
}

// Calls that copy to the virtual screen, and the update.
#[tactic(auto, unfolding(crate::specs::ShortCalls::refresh_call))]
fn refresh_call<'a>(name: &'a [u8], fields: &[&'a [u8]]) -> Result<Call, Reason<'a>>
    ensures { read result ≡ refresh_call name.now (map (λ field. field.now) fields.now) }
{
    if name == b"refresh".as_slice() {
        Ok(Call::Noutrefresh(Win(one(fields)?)))
    } else if name == b"padrefresh".as_slice() {
        taking(fields)
    } else if name == b"update".as_slice() {
        match fields {
            [] => Ok(Call::Doupdate),
            _ => Err(count_fault(fields)),
        }
    } else if name.is_empty() {
        Err(Reason::EmptyWord)
    } else {
        Err(Reason::Unknown(name))
    }
}

// `sub W R C Y X`.
fn sub<'a>(fields: &[&'a [u8]]) -> Result<Call, Reason<'a>>
    ensures { read result ≡ five_numbers (λ w rows columns row column. Sub (window w) rows columns row column) (map (λ field. field.now) fields.now) }
{
    let (parent, rows, columns, row, column) = five(fields)?;
    Ok(Call::Sub(Win(parent), rows, columns, row, column))
}

// `derive W R C Y X`.
fn derived<'a>(fields: &[&'a [u8]]) -> Result<Call, Reason<'a>>
    ensures { read result ≡ five_numbers (λ w rows columns row column. Derive (window w) rows columns row column) (map (λ field. field.now) fields.now) }
{
    let (parent, rows, columns, row, column) = five(fields)?;
    Ok(Call::Derive(Win(parent), rows, columns, row, column))
}

// `subpad W R C Y X`.
fn sub_pad<'a>(fields: &[&'a [u8]]) -> Result<Call, Reason<'a>>
    ensures { read result ≡ five_numbers (λ w rows columns row column. SubPad (window w) rows columns row column) (map (λ field. field.now) fields.now) }
{
    let (parent, rows, columns, row, column) = five(fields)?;
    Ok(Call::SubPad(Win(parent), rows, columns, row, column))
}

// `resize W R C`.
fn resized<'a>(fields: &[&'a [u8]]) -> Result<Call, Reason<'a>>
    ensures { read result ≡ resize_read (map (λ field. field.now) fields.now) }
{
    let (window, rows, columns) = three(fields)?;
    Ok(Call::ResizeWindow(Win(window), rows, columns))
}

// `byte W N`.
fn byte<'a>(fields: &[&'a [u8]]) -> Result<Call, Reason<'a>>
    ensures { read result ≡ two_read number_of (up_to_of 255) (λ w byte. AddByte (window w) byte (attributes 0)) (map (λ field. field.now) fields.now) }
{
    let &[window, byte] = fields else {
        return Err(count_fault(fields));
    };
    let (window, byte) = (number(window)?, up_to(255, byte)?);
    Ok(Call::AddByte(Win(window), byte as u8, Attrs(0)))
}

// `attr W N`.
fn attributes<'a>(fields: &[&'a [u8]]) -> Result<Call, Reason<'a>>
    ensures { read result ≡ two_read number_of (up_to_of 127) (λ w attrs. AttrSet (window w) (attributes attrs)) (map (λ field. field.now) fields.now) }
{
    let &[window, attrs] = fields else {
        return Err(count_fault(fields));
    };
    let (window, attrs) = (number(window)?, up_to(127, attrs)?);
    Ok(Call::AttrSet(Win(window), Attrs(attrs as u8)))
}

// `scroll W N`.
fn moving<'a>(fields: &[&'a [u8]]) -> Result<Call, Reason<'a>>
    ensures { read result ≡ two_read number_of integer_of (λ w n. Scroll (window w) n) (map (λ field. field.now) fields.now) }
{
    let &[window, lines] = fields else {
        return Err(count_fault(fields));
    };
    Ok(Call::Scroll(Win(number(window)?), integer(lines)?))
}

// `scrollok W 0|1`.
fn scrolling<'a>(fields: &[&'a [u8]]) -> Result<Call, Reason<'a>>
    ensures { read result ≡ two_read number_of setting_of (λ w is_on. ScrollOk (window w) is_on) (map (λ field. field.now) fields.now) }
{
    let &[window, is_on] = fields else {
        return Err(count_fault(fields));
    };
    Ok(Call::ScrollOk(Win(number(window)?), setting(is_on)?))
}

// `padrefresh W` and six numbers.
fn taking<'a>(fields: &[&'a [u8]]) -> Result<Call, Reason<'a>>
    ensures { read result ≡ pad_read (map (λ field. field.now) fields.now) }
{
    let (pad, row, column, corners) = seven(fields)?;
    let (top, left, bottom, right) = corners;
    Ok(Call::PadNoutrefresh(Win(pad), row, column, top, left, bottom, right))
}

// `pair N F B`.
fn colours<'a>(fields: &[&'a [u8]]) -> Result<Call, Reason<'a>>
    ensures { read result ≡ pair_read (map (λ field. field.now) fields.now) }
{
    let &[pair, foreground, background] = fields else {
        return Err(count_fault(fields));
    };
    Ok(Call::SetPairOf(number(pair)?, colour(foreground)?, colour(background)?))
}

// `bkgd W BYTE N`.
fn background<'a>(fields: &[&'a [u8]]) -> Result<Call, Reason<'a>>
    ensures { read result ≡ background_read (map (λ field. field.now) fields.now) }
{
    let &[window, character, attrs] = fields else {
        return Err(count_fault(fields));
    };
    let (window, byte, attrs) = (number(window)?, graphic(character)?, up_to(127, attrs)?);
    match Cell::new(byte, Attrs(attrs as u8)) {
        Some(cell) => Ok(Call::ChangeBackground(Win(window), cell)),
        None => Err(Reason::NotCharacter(character)),
    }
}

// `copy S D` and six numbers.
fn copying<'a>(fields: &[&'a [u8]]) -> Result<Call, Reason<'a>>
    ensures { read result ≡ copy_read (map (λ field. field.now) fields.now) }
{
    let [source, rest @ ..] = fields else {
        return Err(count_fault(fields));
    };
    if rest.len() != 7 {
        return Err(count_fault(fields));
    }
    let source = Win(number(source)?);
    let (target, row, column, corners) = seven(rest)?;
    let (top, left, bottom, right) = corners;
    Ok(Call::Copy(
        source,
        Win(target),
        row,
        column,
        top,
        left,
        bottom,
        right,
        false,
    ))
}

// One number.
fn one<'a>(fields: &[&'a [u8]]) -> Result<u32, Reason<'a>>
    ensures { read result ≡ one_read number_of (λ n. n) (map (λ field. field.now) fields.now) }
{
    let &[a] = fields else {
        return Err(count_fault(fields));
    };
    number(a)
}

// Two numbers.
fn two<'a>(fields: &[&'a [u8]]) -> Result<(u32, u32), Reason<'a>>
    ensures { read result ≡ two_read number_of number_of (λ a b. (a, b)) (map (λ field. field.now) fields.now) }
{
    let &[a, b] = fields else {
        return Err(count_fault(fields));
    };
    Ok((number(a)?, number(b)?))
}

// Three numbers.
fn three<'a>(fields: &[&'a [u8]]) -> Result<(u32, u32, u32), Reason<'a>>
    ensures { read result ≡ three_read number_of number_of number_of (λ a b c. (a, b, c)) (map (λ field. field.now) fields.now) }
{
    let &[a, b, c] = fields else {
        return Err(count_fault(fields));
    };
    Ok((number(a)?, number(b)?, number(c)?))
}

// Four numbers.
fn four<'a>(fields: &[&'a [u8]]) -> Result<(u32, u32, u32, u32), Reason<'a>>
    ensures { read result ≡ four_numbers (λ a b c d. (a, b, c, d)) (map (λ field. field.now) fields.now) }
{
    let &[a, b, c, d] = fields else {
        return Err(count_fault(fields));
    };
    Ok((number(a)?, number(b)?, number(c)?, number(d)?))
}

// Five numbers.
fn five<'a>(fields: &[&'a [u8]]) -> Result<(u32, u32, u32, u32, u32), Reason<'a>>
    ensures { read result ≡ five_numbers (λ a b c d e. (a, b, c, d, e)) (map (λ field. field.now) fields.now) }
{
    let [first, rest @ ..] = fields else {
        return Err(count_fault(fields));
    };
    if rest.len() != 4 {
        return Err(count_fault(fields));
    }
    let first = number(first)?;
    let (b, c, d, e) = four(rest)?;
    Ok((first, b, c, d, e))
}

// Seven numbers, of which the last four are corners.
fn seven<'a>(fields: &[&'a [u8]]) -> Result<(u32, u32, u32, (u32, u32, u32, u32)), Reason<'a>>
    ensures { read result ≡ seven_numbers (λ a b c d e f g. (a, b, c, (d, e, f, g))) (map (λ field. field.now) fields.now) }
{
    let [a, b, c, corners @ ..] = fields else {
        return Err(count_fault(fields));
    };
    if corners.len() != 4 {
        return Err(count_fault(fields));
    }
    let (a, b, c) = (number(a)?, number(b)?, number(c)?);
    Ok((a, b, c, four(corners)?))
}
