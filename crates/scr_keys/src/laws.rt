//! Laws of keys, each the contract of a function that does nothing. A caller cites a law by calling its function.
//!
//! They are stated in `specs/Laws.antt` and `specs/TypingLaws.antt`.
ghost use Rattle.scr_keys.specs.Laws.{KeysAreRead, PiecesDoNotMatter};
ghost use Rattle.scr_keys.specs.TypingLaws.{LosesNothing, TypedInOneWay, TypedInPieces, WaitsForMore};

/// How input is cut into pieces does not matter: over any bytes and idles, the keys that a reader adds one by one are
/// those of the whole input, in order (X/Open Curses Issue 7, getch()).
pub fn pieces_do_not_matter()
    ensures { PiecesDoNotMatter }
{}

/// A reader's keys are those that the three rules of `AreRead` (`specs/Keys.antt`) read, and no others: its contracts
/// compute what the rules say (terminfo(5), 'Function Keys').
pub fn keys_are_read()
    ensures { KeysAreRead }
{}

/// What is typed, each character spelled in UTF-8, and the bytes that wait behind it are the keys and bytes that
/// arrived: nothing is lost, nothing comes twice, and the order stays (RFC 3629, section 3).
pub fn typing_loses_nothing()
    ensures { LosesNothing }
{}

/// The rules of `AreTyped` (`specs/Typing.antt`) have one answer: what is typed, and what waits.
pub fn typed_in_one_way()
    ensures { TypedInOneWay }
{}

/// What arrives may come in pieces: what a reader gives for one after the other, each behind the bytes that wait, is
/// what is typed by the whole.
pub fn typed_in_pieces()
    ensures { TypedInPieces }
{}

/// The bytes that wait are the beginning of a character, at most three, or none.
pub fn waits_for_more()
    ensures { WaitsForMore }
{}
