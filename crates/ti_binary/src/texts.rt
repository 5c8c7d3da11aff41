//! Texts within bytes, each ended by a NUL.
ghost use Rattle.std.specs.Prelude.{ℕ, ◌≡◌, drop, false, length, nat_lt, option_map};
ghost use Rattle.std.specs.List.{before_first, list_any};
ghost use Rattle.ti_caps.specs.Description.{text_has_nul};
ghost use Rattle.ti_binary.specs.Files.{is_nul, text_said};

use ti_caps::MOST_NUMBER;

/// Whether there is a NUL.
pub fn has_nul(bytes: &[u8]) -> bool
    ensures { result ≡ list_any is_nul bytes.now }
{
    bytes.iter().any(|byte| *byte == 0)
}

/// The bytes up to the last NUL, with it; none if there is none. A NUL comes at or behind the places of these alone.
pub(crate) fn through_last_nul(bytes: &[u8]) -> &[u8]
    ensures { (place : ℕ) → nat_lt place (length result.now) ≡ list_any is_nul (drop place bytes.now) }
{
    let mut end = bytes.len();
    while end > 0 {
        if bytes[end - 1] == 0 {
            return &bytes[..end];
        }
        end -= 1;
    }
    &bytes[..0]
}

/// The bytes before the first NUL; all if there is none.
pub fn before_nul(bytes: &[u8]) -> &[u8]
    ensures { result.now ≡ before_first is_nul bytes.now }
{
    let end = bytes
        .iter()
        .position(|byte| *byte == 0)
        .unwrap_or(bytes.len());
    &bytes[..end]
}

/// The bytes from an offset on; none past the end.
pub fn rest_from(table: &[u8], offset: usize) -> &[u8]
    ensures { result.now ≡ drop offset table.now }
{
    table.get(offset..).unwrap_or(&[])
}

/// The text at an offset of a table, up to a NUL of the table; `None` (absent) if the offset is negative.
pub fn text_said(table: &[u8], offset: u16) -> Option<&[u8]>
    ensures value { option_map (λ t. t.now) result ≡ text_said table.now offset }
    ensures whole { text_has_nul (option_map (λ t. t.now) result) ≡ false }
{
    if offset <= MOST_NUMBER {
        Some(before_nul(rest_from(table, usize::from(offset))))
    } else {
        None
    }
}
