//! What the locale says of the terminal.
ghost use Rattle.std.specs.Prelude.{◌≡◌, IfOk, List, MatchBool, ℕ};
ghost use Rattle.scr_cells.specs.Characters.{is_utf8};
ghost use Rattle.terminal.specs.Locales.{HasCodeset, IsOpenedIn, IsUtf8Codeset, SaysUtf8, first_named};

use crate::variables::said_by;
use curses::{Charset, KeySet, Opening};
use scr_cells::NoMemory;
use std::rt::Env;

/// How a screen is opened where a program says nothing of it: in UTF-8 where the locale says so, with all keys. The
/// locale of characters is that of the first of `LC_ALL`, `LC_CTYPE` and `LANG` that is set and not empty (X/Open Base
/// Definitions, 8.2). Fails only when memory runs out.
pub(crate) fn opening_of_locale<R: Env + AllocGlobal>(rt: &R) -> Result<Opening, NoMemory>
    ensures { IfOk result (λ opening. (all : List ℕ) × (characters : List ℕ) × (language : List ℕ)
        × IsOpenedIn (first_named all (first_named characters language)) opening) }
{
    let all = said_by(rt, "LC_ALL")?;
    let characters = said_by(rt, "LC_CTYPE")?;
    let language = said_by(rt, "LANG")?;
    Ok(opening_said(all.as_str(), characters.as_str(), language.as_str()))
}

// How a screen is opened where the three variables say these texts.
fn opening_said(all: &str, characters: &str, language: &str) -> Opening
    ensures { IsOpenedIn (first_named all.now (first_named characters.now language.now)) result }
{
    opening_in(named(all, named(characters, language)))
}

// The first of two texts that names anything.
fn named<'a>(first: &'a str, second: &'a str) -> &'a str
    ensures { result.now ≡ first_named first.now second.now }
{
    if first.is_empty() { second } else { first }
}

// How a screen is opened in a locale of this name.
fn opening_in(locale: &str) -> Opening
    ensures { IsOpenedIn locale.now result }
{
    Opening {
        charset: charset_of(locale),
        keys: KeySet::All,
        is_larger: false,
    }
}

// The charset of a locale of this name.
fn charset_of(locale: &str) -> Charset
    ensures { MatchBool (is_utf8 result) (SaysUtf8 locale.now) (¬ SaysUtf8 locale.now) }
{
    if says_utf8(locale) {
        Charset::Utf8
    } else {
        Charset::Ascii
    }
}

// Whether the name of a locale says UTF-8.
fn says_utf8(locale: &str) -> bool
    ensures { MatchBool result (SaysUtf8 locale.now) (¬ SaysUtf8 locale.now) }
{
    match locale.split_once('.') {
        Some((_, rest)) => is_utf8_codeset(codeset_of(rest)),
        None => false,
    }
}

// The codeset that a text begins with, up to an `@`.
fn codeset_of(text: &str) -> &str
    ensures { HasCodeset text.now result.now }
{
    match text.split_once('@') {
        Some((codeset, _)) => codeset,
        None => text,
    }
}

// Whether a codeset is UTF-8.
fn is_utf8_codeset(codeset: &str) -> bool
    ensures { MatchBool result (IsUtf8Codeset codeset.now) (¬ IsUtf8Codeset codeset.now) }
{
    codeset.eq_ignore_ascii_case("utf-8") || codeset.eq_ignore_ascii_case("utf8")
}
