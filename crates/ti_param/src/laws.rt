//! Laws of texts and programs, as contracts of functions that do nothing.

ghost use Rattle.ti_param.specs.ProgramLaws.{AddsOne, HasNotBoth, HasOneFault, HasOneTree, HasTreeOrFault, IsBounded, IsParsed, IsStripped, StackIsEnough, WritesDecimal, WritesItself, WritesRowAndColumn};
ghost use Rattle.ti_param.specs.Padding.{IsStrippedOnce};

/// A text spells at most one tree.
pub fn text_has_one_tree()
    ensures { HasOneTree }
{}

/// A text spells the tree that `parsed` computes for it, and no other; if `parsed` gives none, the
/// text spells no tree. So `refl` proves what a literal text spells.
pub fn text_is_parsed()
    ensures { IsParsed }
{}

/// Every text spells a tree or has an error.
pub fn text_has_tree_or_fault()
    ensures { HasTreeOrFault }
{}

/// No text both spells a tree and has an error.
pub fn text_has_not_both()
    ensures { HasNotBoth }
{}

/// A text has at most one error.
pub fn text_has_one_fault()
    ensures { HasOneFault }
{}

/// A program never writes more bytes than its bound.
pub fn text_is_bounded()
    ensures { IsBounded }
{}

/// If the depth of a program is at most 20, no run fills the stack.
pub fn stack_is_enough()
    ensures { StackIsEnough }
{}

/// Removing the padding of a text has one result.
pub fn padding_is_removed_once()
    ensures { IsStrippedOnce }
{}

/// What `stripped` computes is the text without its padding. So `refl` proves what a literal text
/// becomes.
pub fn padding_is_removed()
    ensures { IsStripped }
{}

/// A text without `%` spells its bytes literally, and a run writes them in any state.
pub fn text_writes_itself()
    ensures { WritesItself }
{}

/// `%d`, without flags, width and precision, writes the decimal digits of a number that is not
/// negative.
pub fn number_writes_decimal()
    ensures { WritesDecimal }
{}

/// `%i` adds 1 to a parameter that is not negative, within 32 bits.
pub fn increment_adds_one()
    ensures { AddsOne }
{}

/// The text `\E[%i%p1%d;%p2%dH` of `cup` writes ESC [ ROW ; COLUMN H, for a row and a column that
/// count from 0.
pub fn cup_writes_row_and_column()
    ensures { WritesRowAndColumn }
{}
