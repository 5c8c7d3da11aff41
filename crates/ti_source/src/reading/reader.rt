//! Reading a source block by block: a line of names, and the lines of fields that continue it.

ghost use Rattle.std.specs.Prelude.{◌≡◌, [], ◌∷◌, ◌++◌, Ok};
ghost use Rattle.ti_source.specs.Reading.Field.{fields};
ghost use Rattle.ti_source.specs.Reading.SourceLine.{Begins};
ghost use Rattle.ti_source.specs.Reading.Sources.{apart, names_faults, source_of, unless_faulty};
ghost use Rattle.ti_source.specs.Code.Blocks.{ReadsBlock};
ghost use Rattle.ti_source.specs.Code.Seen.{seen_line};
ghost use Rattle.ti_source.specs.Result.{Gives};

use crate::faults::SourceFault;
use crate::notes::Notes;
use crate::reading::entries::Entries;
use crate::reading::keyed_hasher::KeyedHasher;
use crate::reading::line::SourceLine;
use crate::reading::lines::Lines;
use crate::reading::open_entry::OpenEntry;
use crate::reading::statement::SourceEntry;
use crate::source::Source;
use std::alloc::Global;
use std::marker::Model;
use ti_caps::{Bytes, are_names};

/// All entries and the notes on them.
#[derive(Drop)]
struct ReadSource {
    entries: Entries,
    notes: Notes,
}

impl Model for ReadSource {
    ghost use Rattle.ti_source.specs.Reading.Sources.{Whole};

    ghost Value = { Whole };

    ghost view = { λ s. record { entries = s.entries; notes = s.notes } };
}

impl ReadSource {
    fn new(alloc: Global, hasher: KeyedHasher) -> ReadSource
        ensures { result ≡ record { entries = []; notes = [] } }
    {
        ReadSource {
            entries: Entries::new(alloc, hasher),
            notes: Notes::new(alloc),
        }
    }

    fn into_parts(self) -> (Entries, Notes)
        ensures entries { result.0 ≡ self.entries }
        ensures notes { result.1 ≡ self.notes }
    {
        let ReadSource { entries, notes } = self;
        (entries, notes)
    }

    /// These entries and one more: that of the block that begins with this line, which has to be a
    /// line of names. The lines that continue it are taken from those that are left.
    fn with_block(
        self,
        alloc: Global,
        number: u32,
        line: SourceLine<'_>,
        lines: &mut Lines<'_>,
    ) -> Result<ReadSource, SourceFault>
        ensures { ReadsBlock self (number, seen_line line.entry) lines.old result lines.new }
    {
        match line {
            SourceLine::NonAscii => Err(SourceFault::NotAscii(number)),
            SourceLine::Continues(_) => Err(SourceFault::FieldBeforeEntry(number)),
            SourceLine::Begins(names, text) => self.with_named(alloc, number, names, text, lines),
        }
    }

    /// The same, for a line of names.
    fn with_named(
        self,
        alloc: Global,
        number: u32,
        names: &[u8],
        text: &[u8],
        lines: &mut Lines<'_>,
    ) -> Result<ReadSource, SourceFault>
        ensures { ReadsBlock self (number, Begins names.now (fields text.now)) lines.old result lines.new }
    {
        let entry = self.new_entry(alloc, number, names)?;
        let (entries, notes) = self.into_parts();
        let mut open_entry = OpenEntry { entry, notes };
        open_entry.add_block(alloc, number, text, lines)?;
        with_last(alloc, entries, open_entry)
    }

    /// An entry without fields, whose names stand on the line with this number.
    fn new_entry(
        &self,
        alloc: Global,
        number: u32,
        names: &[u8],
    ) -> Result<SourceEntry, SourceFault>
        ensures { Gives result (unless_faulty (names_faults number names.now self.now.entries) (record { names = names.now; statements = []; uses = [] })) }
    {
        if !are_names(names) {
            return Err(SourceFault::BadNames(number));
        }
        if self.entries.has_any_name(names) {
            return Err(SourceFault::DuplicateName(number));
        }
        let names = Bytes(Vec::from_slice(alloc, names)?);
        Ok(SourceEntry::new(alloc, names))
    }
}

/// All entries, with the last one among them, and the notes.
fn with_last(
    alloc: Global,
    entries: Entries,
    open_entry: OpenEntry,
) -> Result<ReadSource, SourceFault>
    ensures { Gives result (Ok (record { entries = entries ++ open_entry.entry ∷ []; notes = open_entry.notes })) }
{
    let OpenEntry { entry, notes } = open_entry;
    let entries = entries.with_entry(alloc, entry)?;
    Ok(ReadSource { entries, notes })
}

/// Reads a source: its entries in order, and a note for each doubtful field, in the order of fields
/// (terminfo(5)).
///
/// A line ends at LF, at CR LF or at the end of the bytes, and lines count from 1. The error is
/// that of the first line that has one: `NotAscii` before any other error of that line, otherwise
/// the leftmost one; `BadNames` before `DuplicateName`.
pub fn read(alloc: Global, bytes: &[u8]) -> Result<Source, SourceFault>
    ensures { Gives result (source_of bytes.now) }
{
    let (entries, notes) = read_whole(alloc, bytes)?.into_parts();
    Ok(Source::new(entries, notes.to_vec(alloc)?))
}

/// The same, with the notes apart: the source itself has none. For sources of any size, since a
/// note takes less room among `Notes`.
///
/// Refused as `read`.
pub fn read_apart(alloc: Global, bytes: &[u8]) -> Result<(Source, Notes), SourceFault>
    ensures { Gives result (apart (source_of bytes.now)) }
{
    let (entries, notes) = read_whole(alloc, bytes)?.into_parts();
    Ok((Source::new(entries, Vec::new(alloc)), notes))
}

fn read_whole(alloc: Global, bytes: &[u8]) -> Result<ReadSource, SourceFault>
    ensures { Gives result (source_of bytes.now) }
{
    let mut lines = Lines::new(bytes);
    let mut source = ReadSource::new(alloc, KeyedHasher::new(bytes));
    while let Some((number, line)) = lines.next() {
        source = source.with_block(alloc, number, line, &mut lines)?;
    }
    Ok(source)
}
