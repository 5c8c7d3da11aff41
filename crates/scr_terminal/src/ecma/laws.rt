//! Laws of ECMA-48 texts and of the screens that read them, as contracts of functions that do
//! nothing.
ghost use Rattle.scr_terminal.specs.Ecma.Laws.{HasOneDivision, PiecesDoNotMatter, ScreensFollowTexts};

/// A text divides in at most one way into units followed by a rest that is empty or the beginning
/// of a unit (ECMA-48, 5.4 'Control sequences').
pub fn one_division()
    ensures { HasOneDivision }
{}

/// A piece of text determines the state that it leaves a screen in, and how a text is cut into
/// pieces does not matter.
pub fn pieces_do_not_matter()
    ensures { PiecesDoNotMatter }
{}

/// A screen that is fed whole units, all of them defined, ends in the state to which their meanings
/// lead.
pub fn screens_follow_texts()
    ensures { ScreensFollowTexts }
{}
