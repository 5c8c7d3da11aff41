//! Entries with which more can be shown than with those of the terminal's database: colours first, and without the last
//! column.

ghost use Rattle.std.specs.Prelude.{◌≡◌, ◌<◌, if◌then◌else◌, is_some, slice_set, None, []};
ghost use Rattle.ti_caps.specs.Adapted.{MovesAreLeftOut, attribute_texts, can_colour, colours_first, excluded, excluded_texts, is_combining, is_excluded, is_number_from, one_less, texts_without, with_colours, without_last_column, without_moves, wraps_at_once};
ghost use Rattle.ti_caps.specs.Description.{number_at, text_at};

use crate::entry::Entry;
use crate::names::first_name;
use crate::slots::{
    AM, BLINK, BOLD, COLORS, COLS, DCH, DCH1, DIM, DL, DL1, ICH, ICH1, IL, IL1, IND, INDN, INVIS,
    NCV, OP, PAIRS, RI, RIN, SETAB, SETAF, SGR0, SMSO, SMUL, XENL,
};
use crate::table::Slot;

// The weight of reverse in `ncv`.
const REVERSE: u16 = 4;

// The weights of other attributes in `ncv`, and the texts that turn them on.
static ATTRIBUTES: [(u16, Slot); 6] = [
    (1, SMSO),
    (2, SMUL),
    (8, BLINK),
    (16, DIM),
    (32, BOLD),
    (64, INVIS),
];

impl Entry {
    /// Puts colours before the attributes that cannot be shown beside them (`ncv`, terminfo(5), 'Color Handling'):
    /// these attributes' texts become absent, and `ncv` with them, so that colours are shown and these attributes are
    /// not. Where reverse is among them the entry stays as it is, so that highlighting stays; but for PuTTY, which shows
    /// all attributes beside colours, `ncv` alone becomes absent. Nothing changes where the entry lacks something else
    /// for colours: eight of them, 64 pairs, `setaf`, `setab`, `op` or `sgr0`.
    #[tactic(auto, unfolding(crate::specs::Adapted::colours_first))]
    pub fn colours_first(&mut self)
        ensures { self.new ≡ colours_first self.old }
    {
        let excluded = self.number(NCV).unwrap_or(0);
        if !self.can_colour() {
            return;
        }
        if !is_excluded(excluded, REVERSE) {
            self.show_colours();
            self.exclude(excluded);
        } else if self.is_combining() {
            self.show_colours();
        }
    }

    /// Takes the last column from an entry with `am` and without `xenl`: a character there would move the cursor to the
    /// next row at once, and so scroll the screen at its end (terminfo(5), 'Basic Capabilities'). The entry then has
    /// one column less, or no size if it had only one; no `am`; and none of the texts that move characters into the
    /// last column or out of it. Tells whether that is so: a size that is given beside such an entry has to have one
    /// column less too. Other entries stay as they are.
    #[tactic(auto, unfolding(crate::specs::Adapted::without_last_column))]
    pub fn without_last_column(&mut self) -> bool
        ensures entry { self.new ≡ without_last_column self.old }
        ensures wraps { result ≡ wraps_at_once self.old }
    {
        if !self.flag(AM) || self.flag(XENL) {
            return false;
        }
        let columns = one_less(self.number(COLS));
        let _ = self.set_flag(AM, false);
        let _ = self.set_number(COLS, columns);
        self.leave_out(DCH1);
        self.leave_out(ICH1);
        self.leave_out(DCH);
        self.leave_out(ICH);
        true
    }

    /// Takes the texts from an entry that insert or delete lines or characters, or scroll, for a screen that is smaller
    /// than its terminal: there the last line of the screen is not the one at which the terminal scrolls, and what is
    /// deleted brings in lines and columns from beyond the screen. terminfo(5), 'Insert/Delete Line', 'Insert/Delete
    /// Character'.
    #[tactic(auto, unfolding(crate::specs::Adapted::without_moves))]
    pub fn without_moves(&mut self)
        ensures { self.new ≡ without_moves self.old }
    {
        self.leave_out(IL1);
        self.leave_out(IL);
        self.leave_out(DL1);
        self.leave_out(DL);
        self.leave_out(ICH1);
        self.leave_out(ICH);
        self.leave_out(DCH1);
        self.leave_out(DCH);
        self.leave_out(IND);
        self.leave_out(RI);
        self.leave_out(INDN);
        self.leave_out(RIN);
    }

    // Whether nothing but `ncv` can be missing for colours.
    fn can_colour(&self) -> bool
        ensures { result ≡ can_colour self.now }
    {
        is_number_from(8, self.number(COLORS))
            && is_number_from(64, self.number(PAIRS))
            && self.has_text(SETAF)
            && self.has_text(SETAB)
            && self.has_text(OP)
            && self.has_text(SGR0)
    }

    // Whether there is a text.
    fn has_text(&self, slot: Slot) -> bool
        ensures { result ≡ is_some (text_at self.now slot.0) }
    {
        self.text(slot).is_some()
    }

    // Whether the terminal shows all attributes beside colours.
    fn is_combining(&self) -> bool
        ensures { result ≡ is_combining self.now }
    {
        first_name(self.names()).starts_with(b"putty")
    }

    // Makes `ncv` absent.
    fn show_colours(&mut self)
        ensures { self.new ≡ with_colours [] self.old }
    {
        let _ = self.set_number(NCV, None);
    }

    // Makes the texts absent that turn on these attributes.
    #[tactic(auto, using(crate::proofs::AdaptedLaws::without_first))]
    fn exclude(&mut self, attributes: u16)
        ensures { self.new ≡ record self.old { texts = texts_without (excluded_texts attributes attribute_texts) self.old.texts } }
    {
        for (weight, slot) in &ATTRIBUTES {
            self.leave_out_if(is_excluded(attributes, *weight), *slot);
        }
    }

    // Makes a text absent, if it is to be.
    fn leave_out_if(&mut self, is_left_out: bool, slot: Slot)
        requires { slot.0 < 512 }
        ensures { self.new ≡ record self.old { texts = if is_left_out then slice_set self.old.texts slot.0 None else self.old.texts } }
    {
        if is_left_out {
            self.leave_out(slot);
        }
    }

    // Makes a text absent.
    fn leave_out(&mut self, slot: Slot)
        requires { slot.0 < 512 }
        ensures { self.new ≡ record self.old { texts = slice_set self.old.texts slot.0 None } }
    {
        let _ = self.set_text(slot, None);
    }
}

/// What `Entry::without_moves` leaves: none of the texts that it takes out, and all else as it was; the bundled entry is
/// without them.
pub fn moves_are_left_out()
    ensures { MovesAreLeftOut }
{}

// Whether an attribute is among those of `ncv`.
fn is_excluded(attributes: u16, weight: u16) -> bool
    ensures { result ≡ is_excluded attributes weight }
{
    attributes & weight != 0
}

// Whether a number is there and at least this.
fn is_number_from(least: u16, number: Option<u16>) -> bool
    ensures { result ≡ is_number_from least number }
{
    number.is_some_and(|number| number >= least)
}

// One column less, if one is left.
fn one_less(columns: Option<u16>) -> Option<u16>
    ensures less { result ≡ one_less columns }
{
    match columns {
        Some(columns) if columns >= 2 => Some(columns - 1),
        _ => None,
    }
}
