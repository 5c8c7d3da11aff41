//! How a terminfo entry becomes a profile, or why it does not.
ghost use Rattle.std.specs.Prelude.{◌≡◌, ◌≢◌, ◌≤◌, ◌++◌, ◌∷◌, [], OnOk, OnErr, IfOk, IfErr, IfSome, IsErrOf, Some, true, is_some, map, length, option_map};
ghost use Rattle.ti_caps.specs.Description.{text_at};
ghost use Rattle.ti_param.specs.Parsed.{parsed};
ghost use Rattle.ti_param.specs.Tree.{depth};
ghost use Rattle.scr_term.specs.Operations.Admission.{IsAdmitted, IsAdmittedAs, IsBundledAdmitted, IsEcma48, IsEquipped, IsJudged, IsRefused, IsSuitable, bad_text, first_where, is_bad_string, is_missing, is_over_bound, is_present, margin_fault, missing_fault, named_text, planned_program, program_at, screen_size, sent_at, sent_text, size_fault, unsuitable_fault};
ghost use Rattle.scr_term.specs.Operations.Capabilities.{slot_of};
ghost use Rattle.scr_term.specs.Code.Admission.{Judges, program_in};

use crate::operations::capability::Capability;
use crate::operations::making::profile;
use crate::operations::spares::with_spares;
use crate::{Profile, ProfileFault};
use scr_cells::{Charset, NoMemory, Size};
use std::alloc::Global;
use ti_caps::{Entry, Kind, Slot, bundled, slots};
use ti_param::{
    ParamFault, Program, padding_is_removed, strip_padding, stripped_length, text_is_parsed,
};

// The capabilities of terminals that print or overstrike, or cannot show cells independently.
const UNSUITABLE: [(Kind, Slot); 9] = [
    (Kind::Flag, slots::HC),
    (Kind::Flag, slots::OS),
    (Kind::Flag, slots::GN),
    (Kind::Flag, slots::HZ),
    (Kind::Flag, slots::UL),
    (Kind::Flag, slots::XHP),
    (Kind::Flag, slots::XT),
    (Kind::Flag, slots::SAM),
    (Kind::Number, slots::XMC),
];

// The capabilities that every terminal needs.
const NEEDED: [Capability; 2] = [Capability::Cup, Capability::Clear];

// The deepest stack that a program of a profile may need.
pub(crate) const MOST_DEPTH: usize = 20;

// The most bytes that a program of a profile may give.
pub(crate) const MOST_BYTES: usize = 1_024;

impl Profile {
    /// The profile of a terminal by its entry, on a screen of `size`, or of the entry's `lines` and
    /// `cols` if `size` is `None` (terminfo(5)).
    ///
    /// It gives the first of these refusals that applies:
    ///
    /// 1. `Unsuitable`: `hc`, `os`, `gn`, `hz`, `ul`, `xhp`, `xt`, `sam` or `xmc` is present.
    /// 2. `AutoMargin`: `am` is present and `xenl` is not.
    /// 3. `Missing`: `cup`, or else `clear`, is absent. A text of padding alone counts as absent.
    /// 4. `NoSize`: `size` is `None`, and `lines` or `cols` is absent.
    /// 5. `BadSize`: the entry's `lines` or `cols` is not 1 to 500.
    /// 6. `BadString`: the text of a capability is not a parameter string, or could need a stack of
    ///    more than 20 values. Only capabilities that operations send are checked, in the order of
    ///    their positions.
    /// 7. `LongString`: the text of such a capability could give more than 1,024 bytes.
    /// 8. `NoMemory`: an allocation failed, whatever refusal would have followed. The first five are
    ///    checked before any allocation.
    ///
    /// Nothing is refused for a text that inserts or deletes lines or characters, scrolls or repeats a
    /// character. Such a text counts as absent if it is not a parameter string, could need more than
    /// 20 values or give more than 1,024 bytes, or is not `ind` and contains a line feed; all that
    /// move lines do if `da` or `db` is present, `ich` if `in` is, `dch` and `dch1` if `smdc` is and
    /// is not padding alone.
    pub fn admit(alloc: Global, entry: &Entry, size: Option<Size>) -> Result<Profile, ProfileFault>
        ensures ok { IfOk result (IsAdmitted entry.now size) }
        ensures err { IfErr result (IsRefused entry.now size) }
        ensures suitable { IfOk result (λ _. IsSuitable entry.now) }
        ensures memory { IsErrOf result ProfileFault.NoMemory → IsSuitable entry.now }
        ensures equipped { IsErrOf result ProfileFault.NoMemory → IsEquipped entry.now size }
    {
        Profile::admit_as(alloc, entry, size, Charset::Ascii)
    }

    /// The same for a terminal that is sent the characters of a charset; `admit` is it with ASCII. The
    /// refusals are those of `admit`, in the same order.
    pub fn admit_as(
        alloc: Global,
        entry: &Entry,
        size: Option<Size>,
        charset: Charset,
    ) -> Result<Profile, ProfileFault>
        ensures ok { IfOk result (IsAdmittedAs charset entry.now size) }
        ensures err { IfErr result (IsRefused entry.now size) }
        ensures suitable { IfOk result (λ _. IsSuitable entry.now) }
        ensures memory { IsErrOf result ProfileFault.NoMemory → IsSuitable entry.now }
        ensures equipped { IsErrOf result ProfileFault.NoMemory → IsEquipped entry.now size }
    {
        is_suitable(entry)?;
        keeps_its_margin(entry)?;
        has_needed_texts(entry)?;
        let size = screen_size(entry, size)?;
        let programs = programs(alloc, entry, &Capability::EACH)?;
        let Ok(programs) = with_spares(alloc, entry, programs, &Capability::SPARE) else {
            return Err(ProfileFault::NoMemory);
        };
        if let Some(capability) = first_long(&programs, &Capability::EACH) {
            return Err(ProfileFault::LongString((Kind::Text, capability.slot())));
        }
        Ok(profile(entry, size, charset, programs).priced(entry))
    }

    /// The profile of the bundled ECMA-48 entry on a screen of this size, which is what `admit`
    /// makes of it. The only refusal is `NoMemory`.
    pub fn ecma48(alloc: Global, size: Size) -> Result<Profile, ProfileFault>
        ensures admitted { IfOk result (IsBundledAdmitted size) }
        ensures entry { IfOk result IsEcma48 }
        ensures rows { IfOk result (λ profile. profile.rows ≡ size.rows) }
        ensures columns { IfOk result (λ profile. profile.columns ≡ size.columns) }
        ensures memory { IfErr result (λ fault. fault ≡ ProfileFault.NoMemory) }
    {
        let Ok(entry) = bundled(alloc) else {
            return Err(ProfileFault::NoMemory);
        };
        Profile::admit(alloc, &entry, Some(size))
    }
}

// Refuses an entry that has a capability of an unsuitable terminal.
fn is_suitable(entry: &Entry) -> Result<(), ProfileFault>
    ensures judged { Judges result (unsuitable_fault entry.now) }
    ensures lasting { IfErr result (λ fault. fault ≢ ProfileFault.NoMemory) }
{
    match first_present(entry, &UNSUITABLE) {
        Some(capability) => Err(ProfileFault::Unsuitable(capability)),
        None => Ok(()),
    }
}

// The first of these capabilities that is present.
fn first_present(entry: &Entry, capabilities: &[(Kind, Slot)]) -> Option<(Kind, Slot)>
    ensures { result ≡ first_where (is_present entry.now) capabilities.now }
{
    for capability in capabilities {
        if is_present(entry, *capability) {
            return Some(*capability);
        }
    }
    None
}

fn is_present(entry: &Entry, capability: (Kind, Slot)) -> bool
    ensures { result ≡ is_present entry.now capability }
{
    let (kind, slot) = capability;
    match kind {
        Kind::Flag => entry.flag(slot),
        Kind::Number => entry.number(slot).is_some(),
        Kind::Text => entry.text(slot).is_some(),
    }
}

// Refuses a terminal that scrolls when a character is written in the last place.
fn keeps_its_margin(entry: &Entry) -> Result<(), ProfileFault>
    ensures judged { Judges result (margin_fault entry.now) }
    ensures lasting { IfErr result (λ fault. fault ≢ ProfileFault.NoMemory) }
{
    if entry.flag(slots::AM) && !entry.flag(slots::XENL) {
        Err(ProfileFault::AutoMargin)
    } else {
        Ok(())
    }
}

// Refuses an entry that lacks a needed text.
fn has_needed_texts(entry: &Entry) -> Result<(), ProfileFault>
    ensures judged { Judges result (missing_fault entry.now) }
    ensures lasting { IfErr result (λ fault. fault ≢ ProfileFault.NoMemory) }
{
    match first_missing(entry, &NEEDED) {
        Some(capability) => Err(ProfileFault::Missing((Kind::Text, capability.slot()))),
        None => Ok(()),
    }
}

// The first of these capabilities for which nothing would be sent.
fn first_missing(entry: &Entry, capabilities: &[Capability]) -> Option<Capability>
    ensures { result ≡ first_where (is_missing entry.now) capabilities.now }
{
    for capability in capabilities {
        if is_missing(entry, *capability) {
            return Some(*capability);
        }
    }
    None
}

// Whether nothing would be sent for a capability: it has no text, or one of padding alone.
fn is_missing(entry: &Entry, capability: Capability) -> bool
    ensures { result ≡ is_missing entry.now capability }
{
    match entry.text(capability.slot()) {
        Some(text) => stripped_length(text) == 0,
        None => true,
    }
}

// What the terminal is sent for a capability: its text without padding; `None` if that is empty.
pub(crate) fn sent_text(
    alloc: Global,
    entry: &Entry,
    capability: Capability,
) -> Result<Option<Vec<u8>>, NoMemory>
    ensures { IfOk result (λ text. option_map (λ t. t.items) text ≡ sent_text entry.now capability) }
{
    sent_at(alloc, entry, capability.slot())
}

/// What the terminal is sent for the text at a position: that text without padding (terminfo(5), 'Delays and Padding').
/// `None` if it is absent, or nothing is left of it. The only refusal is NoMemory.
pub fn sent_at(alloc: Global, entry: &Entry, slot: Slot) -> Result<Option<Vec<u8>>, NoMemory>
    ensures text { IfOk result (λ text. option_map (λ t. t.items) text ≡ sent_at entry.now slot) }
    ensures memory { OnErr result (is_some (text_at entry.now slot.0) ≡ true) }
{
    padding_is_removed();
    let Some(text) = entry.text(slot) else {
        return Ok(None);
    };
    let text = strip_padding(alloc, text)?;
    if text.is_empty() {
        Ok(None)
    } else {
        Ok(Some(text))
    }
}

// The size of the screen: the given one, or else the entry's.
fn screen_size(entry: &Entry, size: Option<Size>) -> Result<Size, ProfileFault>
    ensures judged { Judges result (size_fault (screen_size entry.now size)) }
    ensures lasting { IfErr result (λ fault. fault ≢ ProfileFault.NoMemory) }
    ensures size { IfOk result (λ s. screen_size entry.now size ≡ Some (s.rows, s.columns)) }
{
    if let Some(size) = size {
        return Ok(size);
    }
    let Some(lines) = entry.number(slots::LINES) else {
        return Err(ProfileFault::NoSize);
    };
    let Some(columns) = entry.number(slots::COLS) else {
        return Err(ProfileFault::NoSize);
    };
    match Size::new(u32::from(lines), u32::from(columns)) {
        Some(size) => Ok(size),
        None => Err(ProfileFault::BadSize),
    }
}

// The programs of these capabilities.
fn programs(
    alloc: Global,
    entry: &Entry,
    capabilities: &[Capability],
) -> Result<Vec<Option<Program>>, ProfileFault>
    ensures programs { IfOk result (λ programs. programs.items ≡ map (planned_program entry.now) capabilities.now) }
    ensures judged { Judges result (option_map (λ c. ProfileFault.BadString (named_text c)) (first_where (is_bad_string entry.now) capabilities.now)) }
{
    let mut programs = Vec::new(alloc);
    for capability in capabilities {
        let program = planned_program(alloc, entry, *capability)?;
        if add(&mut programs, program).is_err() {
            return Err(ProfileFault::NoMemory);
        }
    }
    Ok(programs)
}

// Appends a program.
pub(crate) fn add(
    programs: &mut Vec<Option<Program>>,
    program: Option<Program>,
) -> Result<(), NoMemory>
    ensures { OnOk result (programs.new.items ≡ programs.old.items ++ program ∷ []) }
{
    programs.push(program)?;
    Ok(())
}

// The program of a capability; `None` if it has no text.
fn planned_program(
    alloc: Global,
    entry: &Entry,
    capability: Capability,
) -> Result<Option<Program>, ProfileFault>
    ensures program { IfOk result (λ program. program ≡ planned_program entry.now capability) }
    ensures judged { Judges result (bad_text entry.now (slot_of capability)) }
{
    program_at(alloc, entry, capability.slot())
}

/// The program of the text at a position, without padding; `None` if there is no text, or nothing is
/// left of it.
///
/// Refused: BadString if the text is not a parameter string, or could need a stack of more than 20
/// values; NoMemory if memory runs out, which it does not if there is no text.
pub fn program_at(alloc: Global, entry: &Entry, slot: Slot) -> Result<Option<Program>, ProfileFault>
    ensures program { IfOk result (λ program. program ≡ program_at entry.now slot) }
    ensures depth { IfOk result (λ program. IfSome program (λ p. depth p ≤ 20)) }
    ensures judged { IsJudged (bad_text entry.now slot) result }
    ensures memory { IsErrOf result ProfileFault.NoMemory → is_some (text_at entry.now slot.0) ≡ true }
{
    let Ok(text) = sent_at(alloc, entry, slot) else {
        return Err(ProfileFault::NoMemory);
    };
    let Some(text) = text else {
        return Ok(None);
    };
    let Ok(program) = parsed_program(alloc, &text) else {
        return Err(ProfileFault::NoMemory);
    };
    match program {
        Some(program) if program.depth() <= MOST_DEPTH => Ok(Some(program)),
        _ => Err(ProfileFault::BadString((Kind::Text, slot))),
    }
}

// The program of a text; `None` if the text is not a parameter string.
pub(crate) fn parsed_program(alloc: Global, text: &[u8]) -> Result<Option<Program>, NoMemory>
    ensures { IfOk result (λ program. program ≡ parsed text.now) }
{
    text_is_parsed();
    match Program::read(alloc, text) {
        Ok(program) => Ok(Some(program)),
        Err(fault) => match fault {
            ParamFault::NoMemory => Err(NoMemory),
            _ => Ok(None),
        },
    }
}

// The first of these capabilities whose program could give too many bytes.
fn first_long(programs: &[Option<Program>], capabilities: &[Capability]) -> Option<Capability>
    requires { length programs.now ≡ 41 }
    ensures { result ≡ first_where (λ c. is_over_bound (program_in programs.now c)) capabilities.now }
{
    for capability in capabilities {
        if is_over_bound(&programs[capability.ordinal()]) {
            return Some(*capability);
        }
    }
    None
}

fn is_over_bound(program: &Option<Program>) -> bool
    ensures { result ≡ is_over_bound program.now }
{
    match program {
        Some(program) => program.bound() > MOST_BYTES,
        None => false,
    }
}
