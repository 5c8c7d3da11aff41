//! Characters: what stands in one place of a window or of a terminal.
ghost use Rattle.std.specs.Prelude.{◌≡◌, ◌↔◌, IsTrue};
ghost use Rattle.scr_cells.specs.Characters.{IsAscii, is_ascii, is_beyond_ascii, is_character, is_shown, likeness_in, likenesses, stand_in};

use ucd_category::GeneralCategory;
use unicode_width::UnicodeWidthChar;

/// Whether a byte is a character of ASCII: 32 to 126, which is the blank or a graphic character.
pub fn is_ascii(byte: u8) -> bool
    ensures value { result ≡ is_ascii byte }
    ensures ascii { IsTrue result ↔ IsAscii byte }
{
    (32..=126).contains(&byte)
}

/// Whether this is a character, which a cell can hold: one of ASCII, 32 to 126, or one from U+00A0 to U+FFFF that takes
/// one column (Unicode Standard Annex 11) and is shown: no control or format character, no separator of lines or
/// paragraphs, and assigned (the Unicode Standard, section 4.5).
pub fn is_character(character: char) -> bool
    ensures { result ≡ is_character character }
{
    let code = u32::from(character);
    (32..=126).contains(&code) || is_beyond_ascii(character)
}

/// Whether this is a character above ASCII.
#[tactic(auto, unfolding(crate::specs::Characters::is_beyond_ascii))]
pub fn is_beyond_ascii(character: char) -> bool
    ensures { result ≡ is_beyond_ascii character }
{
    let code = u32::from(character);
    (0xA0..=0xFFFF).contains(&code)
        && character.width() == Some(1)
        && is_shown(GeneralCategory::for_char(character))
}

// Whether characters of a general category are shown as a glyph or as a space.
fn is_shown(category: GeneralCategory) -> bool
    ensures { result ≡ is_shown category }
{
    !matches!(
        category,
        GeneralCategory::Control
            | GeneralCategory::Format
            | GeneralCategory::Surrogate
            | GeneralCategory::Unassigned
            | GeneralCategory::LineSeparator
            | GeneralCategory::ParagraphSeparator
    )
}

/// The stand-in of a character.
#[inline(always)]
#[tactic(auto, unfolding(crate::specs::Characters::stand_in))]
pub(crate) fn stand_in(code: u32) -> u8
    ensures { result ≡ stand_in code }
{
    if code < 128 {
        return code as u8;
    }
    likeness(code)
}

// What stands for U+00A0 to U+00FF, and for U+2500 to U+257F.
const LATIN: &[u8] = b" !cL$Y|S\"ca<--R-o+23'uP.,1o>///?\
AAAAAAACEEEEIIIIDNOOOOOxOUUUUYTsaaaaaaaceeeeiiiidnooooo/ouuuuyty";

const LINES: &[u8] = b"--||--||--||++++++++++++++++++++++++++++++++++++++++++++++++++++\
++++++++++++--||-|+++++++++++++++++++++++++++++++/\\X-|-|-|-|-|-|";

// What stands for a character above ASCII: that of the run that has it, if one has. It is called, and seldom, so that
// the loops over characters of ASCII stay short.
#[cold]
#[inline(never)]
#[tactic(auto, unfolding(crate::specs::Characters::likenesses, crate::specs::Characters::likeness_in))]
fn likeness(code: u32) -> u8
    ensures { result ≡ likeness_in likenesses code }
{
    match code {
        0x00A0..=0x00FF => LATIN[(code - 0x00A0) as usize],
        0x03C0 => b'*',
        0x2010..=0x2015 => b"------"[(code - 0x2010) as usize],
        0x2018..=0x201F => b"''''\"\"\"\""[(code - 0x2018) as usize],
        0x2022 | 0x2219 | 0x25CF => b'o',
        0x2026 => b'.',
        0x2190..=0x2193 => b"<^>v"[(code - 0x2190) as usize],
        0x21D0..=0x21D3 => b"<^>v"[(code - 0x21D0) as usize],
        0x2260 => b'!',
        0x2264 => b'<',
        0x2265 => b'>',
        0x23BA..=0x23BD => b"----"[(code - 0x23BA) as usize],
        0x2500..=0x257F => LINES[(code - 0x2500) as usize],
        0x2580..=0x259F => b"################################"[(code - 0x2580) as usize],
        0x25AE => b'#',
        0x25B2..=0x25C5 => b"^^^^>>>>>>vvvv<<<<<<"[(code - 0x25B2) as usize],
        0x25C6 => b'+',
        _ => b'?',
    }
}
