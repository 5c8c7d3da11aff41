//! Laws of texts, each the contract of a function that does nothing. A caller cites a law by calling its function.
//!
//! They are stated in `specs/Laws.antt`.
ghost use Rattle.edit_text.specs.Laws.{BytesTellLines, EditsChangeOnePart, OccurBetweenParts};

/// Texts with the same bytes have the same lines. So reading the bytes of a text gives its lines back.
pub fn texts_read_back()
    ensures { BytesTellLines }
{}

/// Every edit changes one part of the file: an insertion inserts the bytes of its part, a split a line feed, and a
/// deletion removes those of the part at its place, a line feed if it joins two lines.
pub fn edits_change_one_part()
    ensures { EditsChangeOnePart }
{}

/// Bytes that begin with a character of one column, or with one of ASCII, occur only where a part begins. So a search
/// for characters finds characters.
pub fn characters_are_found()
    ensures { OccurBetweenParts }
{}
