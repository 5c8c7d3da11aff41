//! Texts in UTF-8, which need not be well formed, and how many columns their characters take.
ghost use Rattle.std.specs.Prelude.{◌≡◌, ◌<◌, ◌≤◌, ◌++◌, IfOk, List, ℕ, drop, length};
ghost use Rattle.std.specs.Char.{IsScalar};
ghost use Rattle.std.specs.Str.{IsUtf8, chars};
ghost use Rattle.std.specs.String.{string_bytes};
ghost use Rattle.huttavel_c.specs.Asking.{Makes};
ghost use Rattle.huttavel_c.specs.Replies.{refused, with_two};
ghost use Rattle.huttavel_c.specs.Texts.{AddsText, AreRead, AreReadFirst, FitsIn, columns_of, shown_for};

use crate::answers::{Reply, added, refused, two};
use crate::faults::{CLOSED, NO_MEMORY, window_number};
use crate::handles::Handle;
use crate::sessions::Session;
use curses::{NoMemory, Win, is_character};
use std::alloc::Global;
use std::str;
use unicode_width::UnicodeWidthChar;

// Reads the first bytes of a text: as many as are well formed or, where none are, one byte. Gives how many.
fn read_first(bytes: &[u8], text: &mut String) -> Result<usize, NoMemory>
    requires { 0 < length bytes.now }
    ensures some { IfOk result (λ count. 0 < count) }
    ensures within { IfOk result (λ count. count ≤ length bytes.now) }
    ensures read { IfOk result (λ count. (codes : List ℕ) × (chars (string_bytes text.new) ≡ chars (string_bytes text.old) ++ codes) × AreReadFirst bytes.now (drop count bytes.now) codes) }
{
    match str::from_utf8(bytes) {
        Ok(whole) => {
            text.push_str(whole)?;
            Ok(bytes.len())
        }
        Err(fault) if fault.valid_up_to() == 0 => {
            text.push(char::REPLACEMENT_CHARACTER)?;
            Ok(1)
        }
        Err(fault) => {
            let count = fault.valid_up_to();
            let front = unsafe { str::from_utf8_unchecked(&bytes[..count]) };
            text.push_str(front)?;
            Ok(count)
        }
    }
}

// The text that bytes are read as. Fails only when memory runs out.
fn readable(alloc: Global, bytes: &[u8]) -> Result<String, NoMemory>
    ensures { IfOk result (λ text. AreRead bytes.now (chars (string_bytes text))) }
{
    let mut text = String::new(alloc);
    let mut at = 0;
    while at < bytes.len() {
        at += read_first(&bytes[at..], &mut text)?;
    }
    Ok(text)
}

impl Session {
    // Adds a text that is not well formed.
    fn add_broken(&mut self, alloc: Global, window: u32, bytes: &[u8]) -> Reply
        requires { ¬ (IsUtf8 bytes.now) }
        ensures { AddsText window bytes.now self.old self.new result }
    {
        if let Err(fault) = self.screen.size(Win(window)) {
            return refused(window_number(fault));
        }
        match readable(alloc, bytes) {
            Ok(text) => added(self.screen.add_str(Win(window), &text)),
            Err(NoMemory) => refused(NO_MEMORY),
        }
    }

    // Adds a text.
    fn add_utf8(&mut self, alloc: Global, window: u32, bytes: &[u8]) -> Reply
        ensures { AddsText window bytes.now self.old self.new result }
    {
        match str::from_utf8(bytes) {
            Ok(text) => added(self.screen.add_str(Win(window), text)),
            Err(_) => self.add_broken(alloc, window, bytes),
        }
    }
}

/// Adds the bytes of a text in UTF-8, by `Screen::add_str`; a byte that belongs to no well-formed sequence is U+FFFD.
/// Gives 1 if a next line was needed and there was none, else 0. Refused: CLOSED; NO_WINDOW; NO_MEMORY, only for a text
/// that is not well formed.
#[unsafe(no_mangle)]
pub extern "C" fn huttavel_held_add_utf8(
    alloc: Global,
    handle: &mut Handle,
    window: u32,
    text: &[u8],
) -> Reply
    ensures { Makes (AddsText window text.now) (refused 1) handle.old.held.value handle.new.held.value result }
{
    handle.lend(refused(CLOSED), |session| {
        session.add_utf8(alloc, window, text)
    })
}

/// How many columns a scalar value of Unicode takes where it is added as a text, and what is written in each: itself,
/// or U+FFFD. Control characters take none, nor does a number of no scalar value.
#[unsafe(no_mangle)]
pub extern "C" fn huttavel_held_columns(code: u32) -> Reply
    ensures scalar { IsScalar code → result ≡ with_two (columns_of code, shown_for code) }
    ensures all { IsScalar code → FitsIn code result.first result.second }
    ensures none { ¬ (IsScalar code) → result ≡ with_two (0, 0xFFFD) }
{
    match char::from_u32(code) {
        Some(character) => two(columns_of(character)),
        None => two((0, 0xFFFD)),
    }
}

// How many columns a scalar value takes, and what is written in each.
#[tactic(auto, unfolding(scr_windows::specs::Calls::Adding::fitted))]
fn columns_of(character: char) -> (u32, u32)
    ensures value { result ≡ (columns_of character, shown_for character) }
    ensures all { FitsIn character result.0 result.1 }
{
    if character.is_control() {
        return (0, 0xFFFD);
    }
    if is_character(character) {
        return (1, u32::from(character));
    }
    (character.width().unwrap_or(0) as u32, 0xFFFD)
}
