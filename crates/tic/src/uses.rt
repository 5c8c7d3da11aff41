//! Following the uses of an entry to the one that is at fault: it names no entry, or leads back to
//! an entry on its own chain. It may stand in another entry.

use crate::fields::{add_uses, field_at, used_by};
use crate::places::{begins_entry, names_on};
use bstr::ByteSlice;
use std::alloc::{AllocError, Global};
use ti_caps::has_no_blank;

/// The most `use=` of an entry.
const MOST_USES: usize = 32;

/// The offset of the first use in a source that is the 33rd of its entry.
pub(crate) fn one_use_too_many(alloc: Global, source: &[u8]) -> Result<Option<usize>, AllocError> {
    let mut uses = Vec::new(alloc);
    let mut start = 0usize;
    for line in source.lines_with_terminator() {
        if begins_entry(line) {
            uses.clear();
        }
        add_uses(line, start, &mut uses)?;
        if let Some(offset) = uses.get(MOST_USES) {
            return Ok(Some(*offset));
        }
        start = start.saturating_add(line.len());
    }
    Ok(None)
}

/// The offset of the use by which the entry at an index does not resolve: the first from left to
/// right, where a used entry is followed before the next use.
pub(crate) fn faulty_use(
    alloc: Global,
    source: &[u8],
    index: usize,
) -> Result<Option<usize>, AllocError> {
    let entries = EntryIndex::new(alloc, source)?;
    UseWalk::new(alloc, &entries)?.faulty_use(index)
}

// A reference name: its offset in the source, and the index of its entry.
#[derive(Clone, Copy)]
struct Reference {
    name: u32,
    entry: u32,
}

// The entries of a source: where each begins, and their reference names in the order of their bytes.
// A source may have millions of entries, so what is kept of each is small.
#[derive(Drop)]
struct EntryIndex<'a> {
    source: &'a [u8],
    starts: Vec<u32>,
    references: Vec<Reference>,
}

impl<'a> EntryIndex<'a> {
    fn new(alloc: Global, source: &'a [u8]) -> Result<EntryIndex<'a>, AllocError> {
        let mut starts = Vec::new(alloc);
        let mut references = Vec::new(alloc);
        let mut start = 0usize;
        for line in source.lines_with_terminator() {
            if begins_entry(line) {
                add_references(names_on(line), start, narrow(starts.len()), &mut references)?;
                starts.push(narrow(start))?;
            }
            start = start.saturating_add(line.len());
        }
        references.sort_unstable_by(|a, b| {
            name_at(source, a.name).cmp(name_at(source, b.name))
        });
        Ok(EntryIndex {
            source,
            starts,
            references,
        })
    }

    // The index of the entry with this reference name.
    fn index_of(&self, name: &[u8]) -> Option<usize> {
        let source = self.source;
        let found = self
            .references
            .binary_search_by(|reference| name_at(source, reference.name).cmp(name))
            .ok()?;
        let reference = self.references.get(found)?;
        Some(reference.entry as usize)
    }

    // Adds the offsets of an entry's uses.
    fn add_uses_of(&self, index: usize, uses: &mut Vec<usize>) -> Result<(), AllocError> {
        let mut start = self.start_of(index);
        let end = self.start_of(index.saturating_add(1));
        let lines = self.source.get(start..end).unwrap_or(&[]);
        for line in lines.lines_with_terminator() {
            add_uses(line, start, uses)?;
            start = start.saturating_add(line.len());
        }
        Ok(())
    }

    // Where an entry begins; the end of the source for the one after the last.
    fn start_of(&self, index: usize) -> usize {
        match self.starts.get(index) {
            Some(start) => *start as usize,
            None => self.source.len(),
        }
    }
}

// Adds the reference names of an entry, which begin at an offset.
fn add_references(
    names: &[u8],
    start: usize,
    entry: u32,
    references: &mut Vec<Reference>,
) -> Result<(), AllocError> {
    let mut start = start;
    for name in names.split(|b| *b == b'|') {
        if has_no_blank(name) {
            references.push(Reference {
                name: narrow(start),
                entry,
            })?;
        }
        start = start.saturating_add(name.len()).saturating_add(1);
    }
    Ok(())
}

// The name at an offset.
fn name_at(source: &[u8], offset: u32) -> &[u8] {
    let rest = source.get(offset as usize..).unwrap_or(&[]);
    let end = rest
        .iter()
        .position(|b| matches!(*b, b'|' | b',' | b'\r' | b'\n'))
        .unwrap_or(rest.len());
    rest.get(..end).unwrap_or(rest)
}

// Offsets and indices have 32 bits: a source has at most 16 MB.
fn narrow(number: usize) -> u32 {
    u32::try_from(number).unwrap_or(u32::MAX)
}

// How far an entry is followed.
#[derive(Clone, Copy, PartialEq, Eq)]
enum Mark {
    New,
    Open,
    Done,
}

#[derive(Clone, Copy)]
enum UseTask {
    /// Follow the use at an offset.
    Follow(usize),
    /// Leave an entry whose uses are followed.
    Leave(usize),
}

// How far each entry is, and what is left to do, the next task last.
#[derive(Drop)]
struct UseWalk<'a> {
    entries: &'a EntryIndex<'a>,
    marks: Vec<Mark>,
    tasks: Vec<UseTask>,
    /// The uses of the entry that is entered.
    uses: Vec<usize>,
}

impl<'a> UseWalk<'a> {
    fn new(alloc: Global, entries: &'a EntryIndex<'a>) -> Result<UseWalk<'a>, AllocError> {
        Ok(UseWalk {
            entries,
            marks: vec![in alloc; Mark::New; entries.starts.len()]?,
            tasks: Vec::new(alloc),
            uses: Vec::new(alloc),
        })
    }

    // The offset of the faulty use that is found from an entry on. Each use and each entry is a task
    // once, and has more than one byte.
    fn faulty_use(&mut self, index: usize) -> Result<Option<usize>, AllocError> {
        self.enter(index)?;
        for _ in 0..=self.entries.source.len() {
            match self.tasks.pop() {
                Some(UseTask::Leave(left)) => self.mark(left, Mark::Done),
                Some(UseTask::Follow(offset)) => {
                    if self.is_faulty(offset)? {
                        return Ok(Some(offset));
                    }
                }
                None => break,
            }
        }
        Ok(None)
    }

    // Follows the use at an offset, unless it is faulty.
    fn is_faulty(&mut self, offset: usize) -> Result<bool, AllocError> {
        let Some(used) = self.entry_used_at(offset) else {
            return Ok(true);
        };
        match self.marks.get(used).copied() {
            Some(Mark::New) => {
                self.enter(used)?;
                Ok(false)
            }
            Some(Mark::Open) => Ok(true),
            Some(Mark::Done) | None => Ok(false),
        }
    }

    // The entry that is used by the field at an offset.
    fn entry_used_at(&self, offset: usize) -> Option<usize> {
        let field = field_at(self.entries.source, offset);
        self.entries.index_of(used_by(field.text)?)
    }

    // Enters an entry: its uses are followed next, the first one first, and then it is left.
    fn enter(&mut self, index: usize) -> Result<(), AllocError> {
        self.mark(index, Mark::Open);
        self.uses.clear();
        self.entries.add_uses_of(index, &mut self.uses)?;
        self.tasks.push(UseTask::Leave(index))?;
        for offset in self.uses.iter().rev() {
            self.tasks.push(UseTask::Follow(*offset))?;
        }
        Ok(())
    }

    fn mark(&mut self, index: usize, mark: Mark) {
        if let Some(old) = self.marks.get_mut(index) {
            *old = mark;
        }
    }
}
