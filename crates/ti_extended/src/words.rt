//! What the numbers and the texts of a section say.
ghost use Rattle.std.specs.Prelude.{◌≡◌, ◌≤◌, IfSome};
ghost use Rattle.ti_binary.specs.Files.{is_unended};
ghost use Rattle.ti_extended.specs.Sections.{is_unnamed, name_said, whole_said};

use ti_binary::{Width, before_nul, has_nul, rest_from};
use ti_caps::MOST_NUMBER;

/// What a number says: its value; `None` (absent) if it is negative.
pub(crate) fn whole_said(width: Width, number: u32) -> Option<u32>
    ensures value { result ≡ whole_said width number }
    ensures small { IfSome result (λ n. n ≤ 2147483647) }
{
    if number <= width.most() {
        Some(number)
    } else {
        None
    }
}

/// Whether the text at an offset is not ended by a NUL in the table. That at a negative offset
/// needs none.
pub(crate) fn is_unended(table: &[u8], offset: u16) -> bool
    ensures { result ≡ is_unended table.now offset }
{
    offset <= MOST_NUMBER && !has_nul(rest_from(table, usize::from(offset)))
}

/// The name at an offset.
pub(crate) fn name_said(names: &[u8], offset: u16) -> &[u8]
    ensures { result.now ≡ name_said names.now offset }
{
    before_nul(rest_from(names, usize::from(offset)))
}

/// Whether an offset is negative, or its name is not ended by a NUL in the table.
pub(crate) fn is_unnamed(names: &[u8], offset: u16) -> bool
    ensures { result ≡ is_unnamed names.now offset }
{
    offset > MOST_NUMBER || !has_nul(rest_from(names, usize::from(offset)))
}
