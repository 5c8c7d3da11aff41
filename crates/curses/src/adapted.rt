//! Entries as programs take them. The definitions are in `specs/Adapted.antt`.
ghost use Rattle.std.specs.Prelude.{◌≡◌, IfErr, IfOk, IsErrOf, is_some};
ghost use Rattle.curses.specs.Adapted.{IsAnySizeOn, IsNothingLeft, IsOpenedAdapted, IsSizeOn, IsUnopenedAdapted, adapted, sends_colours};
ghost use Rattle.scr_term.specs.Operations.Admission.{IsSuitable, sent_at};

use crate::faults::OpenFault;
use crate::opening::Opening;
use crate::screens::Screen;
use scr_cells::Size;
use scr_term::ProfileFault;
use std::alloc::Global;
use std::marker::Model;
use ti_caps::{Entry, Slot, slots};
use ti_param::stripped_length;

/// An entry as programs take it, so that more terminals are served than with the entry as it is: colours come before
/// the attributes that they exclude (`Entry::colours_first`), unless no colours come of it since one of their texts
/// sends nothing, and where a character in the last column would scroll the screen, that column is left out
/// (`Entry::without_last_column`).
#[derive(Drop)]
pub struct AdaptedEntry {
    entry: Entry,
    is_narrow: bool,
}

impl Model for AdaptedEntry {
    ghost use Rattle.curses.specs.Adapted.{AdaptedView};

    ghost Value = { AdaptedView };

    ghost view = { λ a. record { entry = a.entry; is_narrow = a.is_narrow } };
}

impl AdaptedEntry {
    /// The entry of the terminal's database, or the bundled one, as programs take it.
    pub fn of(entry: Entry) -> AdaptedEntry
        ensures { result ≡ adapted entry }
    {
        let mut entry = entry;
        let is_narrow = entry.without_last_column();
        if sends_colours(&entry) {
            entry.colours_first();
        }
        AdaptedEntry { entry, is_narrow }
    }

    /// The entry that its screens are opened on.
    pub fn entry(&self) -> &Entry
        ensures { result.now ≡ self.now.entry }
    {
        &self.entry
    }

    /// The size of a screen on a terminal of this size: one column less where the last one is left out, and `None` if it
    /// is the only one.
    pub fn size_on(&self, size: Size) -> Option<Size>
        ensures { IsSizeOn self.now.is_narrow size result }
    {
        if self.is_narrow {
            Size::new(size.rows, size.columns - 1)
        } else {
            Some(size)
        }
    }

    /// Opens a screen on a terminal of this size, or of the entry's `lines` and `cols` if none is given. The screen has
    /// the size that `size_on` says.
    ///
    /// Refused: Profile with NoSize if the only column is left out; otherwise as `Screen::open_as` refuses the entry.
    pub fn open(
        &self,
        alloc: Global,
        size: Option<Size>,
        opening: Opening,
    ) -> Result<Screen, OpenFault>
        ensures ok { IfOk result (IsOpenedAdapted opening self.now size) }
        ensures err { IfErr result (IsUnopenedAdapted opening.keys self.now size) }
        ensures suitable { IfOk result (λ _. IsSuitable self.now.entry) }
        ensures memory { IsErrOf result OpenFault.NoMemory → IsSuitable self.now.entry }
    {
        let size = self.any_size_on(size)?;
        Screen::open_as(alloc, &self.entry, size, opening)
    }

    // The size of a screen on a terminal of a size that may be given.
    fn any_size_on(&self, size: Option<Size>) -> Result<Option<Size>, OpenFault>
        ensures ok { IfOk result (IsAnySizeOn self.now.is_narrow size) }
        ensures err { IfErr result (λ fault. IsNothingLeft self.now.is_narrow size × (fault ≡ OpenFault.Profile ProfileFault.NoSize)) }
    {
        let Some(given) = size else {
            return Ok(None);
        };
        match self.size_on(given) {
            Some(size) => Ok(Some(size)),
            None => Err(OpenFault::Profile(ProfileFault::NoSize)),
        }
    }
}

// Whether something is sent for each text that colours take.
fn sends_colours(entry: &Entry) -> bool
    ensures { result ≡ sends_colours entry.now }
{
    sends(entry, slots::SETAF)
        && sends(entry, slots::SETAB)
        && sends(entry, slots::OP)
        && sends(entry, slots::SGR0)
}

// Whether something is sent for the text at a position: it is there, and not of padding alone.
fn sends(entry: &Entry, slot: Slot) -> bool
    ensures { result ≡ is_some (sent_at entry.now slot) }
{
    match entry.text(slot) {
        Some(text) => stripped_length(text) > 0,
        None => false,
    }
}
