//! Resolving the uses of a source's entries for the fields that `tic -x` takes besides those that
//! the table has.
//!
//! The fields of an entry are its own, and then those of the entries that it uses, in order; the
//! first of a name counts. A cancellation counts in its own entry alone.

ghost use Rattle.std.specs.Prelude.{◌≡◌, ◌≤◌, ◌+◌, IfSome};

use crate::additions::{Addition, Given, addition_of};
use crate::gathering::{Ends, Field, Gathered, NONE, narrow};
use std::alloc::{AllocError, Global};
use ti_source::Cause;

/// The most fields that are kept of all entries together.
const MOST_KEPT: usize = 16_777_216;

/// How far an entry is followed.
#[derive(Clone, Copy, PartialEq, Eq)]
enum Mark {
    New,
    Open,
    Done,
}

#[derive(Clone, Copy)]
enum FieldTask {
    /// Enter the entry at an index.
    Visit(u32),
    /// Leave an entry whose uses are followed.
    Leave(u32),
}

/// Where the fields of an entry stand among those that are kept.
#[derive(Clone, Copy)]
struct Range {
    start: usize,
    end: usize,
}

/// The fields of each entry with its uses taken in.
#[derive(Drop)]
pub(crate) struct Resolved {
    /// The indices of fields.
    kept: Vec<u32>,
    ranges: Vec<Range>,
}

impl Resolved {
    /// The indices of the fields of the entry at an index.
    pub(crate) fn fields_of(&self, entry: usize) -> &[u32] {
        match self.ranges.get(entry) {
            Some(range) => self.kept.get(range.start..range.end).unwrap_or(&[]),
            None => &[],
        }
    }
}

/// A note, and what is doubtful in its field.
#[derive(Clone, Copy)]
struct Doubt {
    note: u32,
    cause: Cause,
}

/// What is known, and what is left to do, the next task last.
#[derive(Drop)]
struct FieldWalk<'g, 'a> {
    fields: &'g [Field<'a>],
    ends: &'g [Ends],
    used: Vec<u32>,
    marks: Vec<Mark>,
    tasks: Vec<FieldTask>,
    kept: Vec<u32>,
    ranges: Vec<Range>,
    /// For each name the turn in which a field of it was found last.
    seen: Vec<u32>,
    turn: u32,
    doubts: Vec<Doubt>,
}

/// The fields of each entry. Refused where memory runs out, or more than 16,777,216 fields would
/// have to be kept.
pub(crate) fn resolve(alloc: Global, gathered: &mut Gathered<'_>) -> Result<Resolved, AllocError> {
    let (resolved, doubts) = walked(alloc, gathered)?;
    for doubt in &doubts {
        if let Some(cause) = gathered.causes.get_mut(doubt.note as usize) {
            *cause = Some(doubt.cause);
        }
    }
    Ok(resolved)
}

fn walked(alloc: Global, gathered: &Gathered<'_>) -> Result<(Resolved, Vec<Doubt>), AllocError> {
    let (count, entries) = (gathered.fields.len(), gathered.ends.len());
    let mut walk = FieldWalk {
        fields: &gathered.fields,
        ends: &gathered.ends,
        used: gathered.used(alloc)?,
        marks: vec![in alloc; Mark::New; entries]?,
        tasks: Vec::new(alloc),
        kept: Vec::new(alloc),
        ranges: vec![in alloc; Range { start: 0, end: 0 }; entries]?,
        seen: vec![in alloc; 0u32; count]?,
        turn: 0,
        doubts: Vec::new(alloc),
    };
    for entry in 0..entries {
        walk.follow(narrow(entry))?;
    }
    let FieldWalk {
        kept,
        ranges,
        doubts,
        fields: _,
        ends: _,
        used: _,
        marks: _,
        tasks: _,
        seen: _,
        turn: _,
    } = walk;
    Ok((Resolved { kept, ranges }, doubts))
}

// The only use of an entry, if it has just one and no fields: then it has the fields of the entry
// that is used there. An entry without a use has none, whatever follows it.
fn only_use(fields: Range, uses: Range) -> Option<usize>
    ensures { IfSome result (λ only. (fields.end ≤ fields.start) × (uses.start ≡ only) × (uses.end ≡ only + 1)) }
{
    if fields.start >= fields.end && uses.end.saturating_sub(uses.start) == 1 {
        Some(uses.start)
    } else {
        None
    }
}

impl FieldWalk<'_, '_> {
    // Finds the fields of an entry. Each use and each entry is a task once.
    fn follow(&mut self, entry: u32) -> Result<(), AllocError> {
        self.tasks.push(FieldTask::Visit(entry))?;
        let most = self.used.len().saturating_add(self.ends.len());
        for done in 0..most.saturating_mul(2).saturating_add(1) {
            match self.tasks.pop() {
                Some(FieldTask::Visit(next)) => self.enter(next)?,
                Some(FieldTask::Leave(left)) => self.leave(left)?,
                None => break,
            }
        }
        Ok(())
    }

    // Enters an entry that is new: its uses are visited next, the first one first, and then it is
    // left.
    fn enter(&mut self, entry: u32) -> Result<(), AllocError> {
        if self.marks.get(entry as usize).copied() != Some(Mark::New) {
            return Ok(());
        }
        self.mark(entry, Mark::Open);
        self.tasks.push(FieldTask::Leave(entry))?;
        let (_, uses) = self.parts(entry);
        let mut left = uses.end;
        while left > uses.start {
            left -= 1;
            if let Some(used) = self.used.get(left).copied() {
                self.tasks.push(FieldTask::Visit(used))?;
            }
        }
        Ok(())
    }

    // Where the fields and the uses of an entry stand among those of all.
    fn parts(&self, entry: u32) -> (Range, Range) {
        let ends = self.ends_of(Some(entry));
        let starts = self.ends_of(entry.checked_sub(1));
        let fields = Range {
            start: starts.fields as usize,
            end: ends.fields as usize,
        };
        let uses = Range {
            start: starts.uses as usize,
            end: ends.uses as usize,
        };
        (fields, uses)
    }

    fn ends_of(&self, entry: Option<u32>) -> Ends {
        let ends = match entry {
            Some(entry) => self.ends.get(entry as usize).copied(),
            None => None,
        };
        ends.unwrap_or(Ends { fields: 0, uses: 0 })
    }

    // Keeps the fields of an entry whose uses are followed.
    fn leave(&mut self, entry: u32) -> Result<(), AllocError> {
        let (fields, uses) = self.parts(entry);
        let range = match only_use(fields, uses) {
            Some(only) => self.range_used_at(only),
            None => self.keep(fields, uses)?,
        };
        self.mark(entry, Mark::Done);
        if let Some(old) = self.ranges.get_mut(entry as usize) {
            *old = range;
        }
        Ok(())
    }

    // The fields of the entry that a use names.
    fn range_used_at(&self, use_index: usize) -> Range {
        let none = Range { start: 0, end: 0 };
        let Some(used) = self.used.get(use_index) else {
            return none;
        };
        match self.ranges.get(*used as usize) {
            Some(range) => *range,
            None => none,
        }
    }

    // Keeps these fields, and then those of the used entries; of each name the first.
    fn keep(&mut self, fields: Range, uses: Range) -> Result<Range, AllocError> {
        let start = self.kept.len();
        self.turn = self.turn.saturating_add(1);
        for i in fields.start..fields.end {
            self.keep_own(i)?;
        }
        for i in uses.start..uses.end {
            let range = self.range_used_at(i);
            self.keep_range(range)?;
        }
        Ok(Range {
            start,
            end: self.kept.len(),
        })
    }

    // Keeps a field of the entry's own, if it is the first of its name and gives it a value.
    fn keep_own(&mut self, i: usize) -> Result<(), AllocError> {
        let Some(field) = self.fields.get(i).copied() else {
            return Ok(());
        };
        if !self.is_first(field) {
            return self.doubt(field, Cause::Repeated);
        }
        if let Addition::Gives(_, _, given, great) = addition_of(field.text) {
            if great {
                self.doubt(field, Cause::TooGreat)?;
            }
            if !matches!(given, Given::Cancelled) {
                self.keep_one(i)?;
            }
        }
        Ok(())
    }

    // Keeps the fields in a range of those that are kept already, each if it is the first of its
    // name.
    fn keep_range(&mut self, range: Range) -> Result<(), AllocError> {
        for k in range.start..range.end {
            if let Some(i) = self.kept.get(k).copied()
                && let Some(field) = self.fields.get(i as usize).copied()
                && self.is_first(field)
            {
                self.keep_one(i as usize)?;
            }
        }
        Ok(())
    }

    fn keep_one(&mut self, i: usize) -> Result<(), AllocError> {
        if self.kept.len() >= MOST_KEPT {
            return Err(AllocError);
        }
        self.kept.push(narrow(i))?;
        Ok(())
    }

    // Whether a field is the first of its name in this turn; it counts as found from then on.
    fn is_first(&mut self, field: Field<'_>) -> bool {
        match self.seen.get_mut(field.key as usize) {
            Some(seen) => {
                let first = *seen != self.turn;
                *seen = self.turn;
                first
            }
            None => false,
        }
    }

    // Says what is doubtful in a field, if there is a note on it.
    fn doubt(&mut self, field: Field<'_>, cause: Cause) -> Result<(), AllocError> {
        if field.note != NONE {
            self.doubts.push(Doubt {
                note: field.note,
                cause,
            })?;
        }
        Ok(())
    }

    fn mark(&mut self, entry: u32, mark: Mark) {
        if let Some(old) = self.marks.get_mut(entry as usize) {
            *old = mark;
        }
    }
}
