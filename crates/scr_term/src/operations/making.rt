//! The profile of an entry that has passed all checks: what it shows, and how long its texts can
//! be.
ghost use Rattle.std.specs.Prelude.{◌≡◌, ◌≤◌, ◌++◌, false, is_some, map, filter, length};
ghost use Rattle.scr_term.specs.Operations.Admission.{admitted, has_palette, planned_program, spare_program};
ghost use Rattle.scr_term.specs.Operations.Capabilities.{each_capability, each_spare};
ghost use Rattle.scr_term.specs.Operations.Profiles.{has_colours, is_shown, set_of};
ghost use Rattle.scr_term.specs.Code.Admission.{ArePlanned, AreTexts, counted_bound, greatest_bound, longest, longest_character, program_in, with_programs};

use crate::Profile;
use crate::operations::capability::Capability;
use crate::operations::pieces::entering;
use crate::operations::prices::Prices;
use bitflags::Flags;
use scr_cells::{Attrs, Charset, Size};
use ti_caps::{Entry, slots};
use ti_param::{Program, text_is_bounded};

/// The profile of an entry that has passed all checks.
pub(crate) fn profile(
    entry: &Entry,
    size: Size,
    charset: Charset,
    programs: Vec<Option<Program>>,
) -> Profile
    requires texts { AreTexts entry.now }
    requires programs { programs.items ≡ map (planned_program entry.now) each_capability ++ map (spare_program entry.now) each_spare }
    ensures { result ≡ admitted charset entry.now size.rows size.columns }
{
    text_is_bounded();
    let palette = has_palette(entry);
    let shown = shown_set(&programs, &Attrs::EACH);
    let colours = has_colours(palette, &programs);
    let longest = longest(longest_character(charset), &programs, colours);
    Profile {
        size,
        programs,
        msgr: entry.flag(slots::MSGR),
        palette,
        charset,
        shown,
        colours,
        longest,
        prices: Prices::none(),
    }
}

// Whether the entry promises eight colours and 64 pairs, and each attribute can be combined with
// colours.
fn has_palette(entry: &Entry) -> bool
    ensures { result ≡ has_palette entry.now }
{
    entry
        .number(slots::COLORS)
        .is_some_and(|colours| colours >= 8)
        && entry.number(slots::PAIRS).is_some_and(|pairs| pairs >= 64)
        && entry
            .number(slots::NCV)
            .is_none_or(|attributes| attributes == 0)
}

// Whether there is a program for a capability.
fn is_there(programs: &[Option<Program>], capability: Capability) -> bool
    requires { length programs.now ≡ 41 }
    ensures { result ≡ is_some (program_in programs.now capability) }
{
    programs[capability.ordinal()].is_some()
}

// Those of these attributes that the terminal can turn on, if it can turn all off. Goes from the
// last to the first, as `set_of` does.
fn shown_set(programs: &[Option<Program>], attributes: &[Attrs]) -> Attrs
    requires { length programs.now ≡ 41 }
    ensures { result.0 ≡ set_of (filter (is_shown (with_programs false programs.now)) (map (λ a. a.0) attributes.now)) }
{
    let mut shown = Attrs::empty();
    let mut index = attributes.len();
    while index > 0 {
        index -= 1;
        if is_shown(programs, attributes[index]) {
            shown = attributes[index].union(shown);
        }
    }
    shown
}

// Whether an attribute can be turned on, and all can be turned off.
fn is_shown(programs: &[Option<Program>], attribute: Attrs) -> bool
    requires { length programs.now ≡ 41 }
    ensures { result ≡ is_shown (with_programs false programs.now) attribute.0 }
{
    is_there(programs, Capability::Sgr0) && is_there(programs, entering(attribute))
}

// Whether colours are shown; `palette` says whether the entry promises them.
#[tactic(auto, unfolding(crate::specs::Operations::Profiles::has_colours))]
fn has_colours(palette: bool, programs: &[Option<Program>]) -> bool
    requires { length programs.now ≡ 41 }
    ensures { result ≡ has_colours (with_programs palette programs.now) }
{
    palette
        && is_there(programs, Capability::Sgr0)
        && is_there(programs, Capability::Op)
        && is_there(programs, Capability::Setaf)
        && is_there(programs, Capability::Setab)
}

// The most bytes of a scalar value.
fn longest_character(charset: Charset) -> usize
    ensures value { result ≡ longest_character charset }
    ensures few { result ≤ 4 }
{
    match charset {
        Charset::Ascii => 1,
        Charset::Utf8 => 4,
    }
}

// A bound on the bytes of any operation, if a character has at most `least`. If there are colours,
// `op` may follow another text.
fn longest(least: usize, programs: &[Option<Program>], colours: bool) -> usize
    requires few { least ≤ 4 }
    requires whole { length programs.now ≡ 41 }
    requires planned { ArePlanned programs.now }
    ensures { result ≡ longest least colours programs.now }
{
    let one = greatest_bound(least, programs);
    if colours {
        one + bound_of(programs, Capability::Op)
    } else {
        one
    }
}

// The most bytes that the program of a capability can give.
fn bound_of(programs: &[Option<Program>], capability: Capability) -> usize
    requires { length programs.now ≡ 41 }
    ensures { result ≡ counted_bound (program_in programs.now capability) }
{
    counted_bound(&programs[capability.ordinal()])
}

// The most bytes that any of these programs can give, and at least `least`.
fn greatest_bound(least: usize, programs: &[Option<Program>]) -> usize
    ensures { result ≡ greatest_bound least programs.now }
{
    let mut greatest = least;
    for program in programs {
        greatest = counted_bound(program).max(greatest);
    }
    greatest
}

// The most bytes that a program can give.
fn counted_bound(program: &Option<Program>) -> usize
    ensures { result ≡ counted_bound program.now }
{
    match program {
        Some(program) => program.bound(),
        None => 0,
    }
}
