//! The walk through the uses of entries, which enters each entry at most once.

ghost use Rattle.std.specs.Prelude.{◌≡◌, ◌<◌, ◌∷◌, [], ◌++◌, length, Some, None, true, IfOk, IfErr, IfSome, OnErr, OnOk, map, reverse, slice_get};
ghost use Rattle.ti_source.specs.Code.EntryWalk.{AreKnown, FaultAt, Gathers, IsReady, IsStopped, IsWalk, Keeps, ResolvedAt, Stepped, StuckAt, known, leaves, visits, with_fault};
ghost use Rattle.ti_source.specs.Resolving.Named.{index_of};
ghost use Rattle.ti_source.specs.Result.{Stops};

use crate::faults::SourceFault;
use crate::reading::entries::Entries;
use crate::reading::entry_view::EntryView;
use crate::resolving::fields::Fields;
use crate::resolving::first_fields::effective_fields;
use crate::resolving::leading::leading_use;
use crate::resolving::listing::{add_gathered, effective_at, light_mark};
use crate::resolving::marks::{Mark, mark_at, new_marks, put_mark, take_back};
use crate::resolving::merge::merge;
use std::alloc::{AllocError, Global};
use ti_caps::{Bytes, Entry};

/// A task of the walk.
#[derive(Clone, Copy)]
pub(crate) enum EntryTask {
    /// Visit the entry at an index; `None` if no entry has the name.
    Visit(Option<usize>),
    /// Leave an entry whose uses are done.
    Leave(usize),
}

/// How far each entry is, the lists of fields that are kept, and the tasks that are left, the next
/// one last.
#[derive(Drop)]
pub(crate) struct EntryWalk<'a> {
    marks: Vec<Mark>,
    kept: Vec<Fields<'a>>,
    /// How many fields are kept.
    count: usize,
    tasks: Vec<EntryTask>,
}

impl<'a> EntryWalk<'a> {
    pub(crate) fn new(alloc: Global, entries: &Entries) -> Result<EntryWalk<'a>, SourceFault>
        ensures ready { IfOk result (λ w. IsReady entries.now w) }
        ensures err { IfErr result (λ f. f ≡ SourceFault.NoMemory) }
    {
        Ok(EntryWalk {
            marks: new_marks(alloc, entries.len())?,
            kept: Vec::new(alloc),
            count: 0,
            tasks: Vec::new(alloc),
        })
    }

    /// The resolved entry at an index; `UnknownName` if there is none. The entries that it uses are
    /// then known, but it is not. What was followed stays known after an error.
    pub(crate) fn resolved(
        &mut self,
        alloc: Global,
        entries: &'a Entries,
        index: Option<usize>,
    ) -> Result<Entry, SourceFault>
        requires { IsReady entries.now self.old }
        ensures ready { IsReady entries.now self.new }
        ensures ok { IfOk result (λ e. ResolvedAt entries.now index e) }
        ensures err { IfErr result (λ f. Stops f (FaultAt entries.now [] index f)) }
    {
        self.tasks.push(EntryTask::Visit(index))?;
        while let Some(task) = self.tasks.pop() {
            if let Some(i) = self.last_left(index, task) {
                return self.finished(alloc, entries, i);
            }
            if let Err(fault) = self.step(alloc, entries, task) {
                self.stop(fault);
                return Err(fault);
            }
        }
        self.entry(alloc, entries, index)
    }

    /// The index, if leaving the entry there is all that is left to do.
    fn last_left(&self, index: Option<usize>, task: EntryTask) -> Option<usize>
        ensures { IfSome result (λ i. (task ≡ EntryTask.Leave i) × (index ≡ Some i) × (self.now.tasks.items ≡ [])) }
    {
        let wanted = index?;
        match task {
            EntryTask::Leave(i) if i == wanted && self.tasks.is_empty() => Some(i),
            _ => None,
        }
    }

    /// The resolved entry at an index, if that is all that is left to do. Afterwards the entry
    /// counts as not entered.
    fn finished(
        &mut self,
        alloc: Global,
        entries: &'a Entries,
        i: usize,
    ) -> Result<Entry, SourceFault>
        requires walk { IsWalk entries.now self.old.marks.items self.old.kept.items (EntryTask.Leave i ∷ []) }
        requires last { self.old.tasks.items ≡ [] }
        ensures ready { IsReady entries.now self.new }
        ensures ok { IfOk result (λ e. ResolvedAt entries.now (Some i) e) }
        ensures err { IfErr result (λ f. f ≡ SourceFault.NoMemory) }
    {
        let made = made(alloc, entries, &self.marks, &self.kept, i);
        put_mark(&mut self.marks, i, Mark::New);
        made
    }

    /// The resolved entry at an index, which is done.
    fn entry(
        &self,
        alloc: Global,
        entries: &'a Entries,
        index: Option<usize>,
    ) -> Result<Entry, SourceFault>
        requires known { known self.now.marks.items index ≡ true }
        requires kept { Keeps entries.now self.now.marks.items self.now.kept.items }
        ensures ok { IfOk result (λ e. ResolvedAt entries.now index e) }
        ensures err { IfErr result (λ f. f ≡ SourceFault.NoMemory) }
    {
        let i = index.unwrap();
        let fields = effective_at(alloc, entries, &self.marks, &self.kept, i)?;
        merge(alloc, entries.at(i).names(), &fields)
    }

    /// Enters an entry: its uses are visited next, then it is left.
    fn enter(&mut self, entries: &'a Entries, i: usize) -> Result<(), SourceFault>
        requires walk { IsWalk entries.now self.old.marks.items self.old.kept.items (EntryTask.Visit (Some i) ∷ reverse self.old.tasks.items) }
        requires new { slice_get self.old.marks.items i ≡ Some Mark.New }
        ensures ok { OnOk result (Stepped entries.now self.old.marks.items (EntryTask.Visit (Some i) ∷ reverse self.old.tasks.items) self.new.marks.items self.new.kept.items (reverse self.new.tasks.items)) }
        ensures err { IfErr result (λ f. f ≡ SourceFault.NoMemory) }
        ensures kept { OnErr result ((self.new.marks.items ≡ self.old.marks.items) × (self.new.kept.items ≡ self.old.kept.items)) }
    {
        let entry = entries.at(i);
        self.tasks.push(EntryTask::Leave(i))?;
        put_visits(&mut self.tasks, entries, entry.uses())?;
        self.marks[i] = Mark::Open;
        Ok(())
    }

    fn visit(&mut self, entries: &'a Entries, i: usize) -> Result<(), SourceFault>
        requires { IsWalk entries.now self.old.marks.items self.old.kept.items (EntryTask.Visit (Some i) ∷ reverse self.old.tasks.items) }
        ensures ok { OnOk result (Stepped entries.now self.old.marks.items (EntryTask.Visit (Some i) ∷ reverse self.old.tasks.items) self.new.marks.items self.new.kept.items (reverse self.new.tasks.items)) }
        ensures err { IfErr result (λ f. Stops f (StuckAt entries.now self.old (EntryTask.Visit (Some i)) f self.new)) }
        ensures kept { OnErr result ((self.new.marks.items ≡ self.old.marks.items) × (self.new.kept.items ≡ self.old.kept.items)) }
    {
        match mark_at(&self.marks, i) {
            Some(Mark::New) => self.enter(entries, i),
            Some(Mark::Open) => Err(SourceFault::UseCycle),
            Some(Mark::Done(_)) => Ok(()),
            Some(Mark::Over(_, _)) => Ok(()),
            Some(Mark::Kept(_)) => Ok(()),
            Some(Mark::Faulty(fault)) => Err(fault),
            None => Err(SourceFault::UnknownName),
        }
    }

    /// Leaves an entry whose uses are done.
    fn leave(&mut self, alloc: Global, entries: &'a Entries, i: usize) -> Result<(), SourceFault>
        requires there { i < length entries.now }
        requires walk { IsWalk entries.now self.old.marks.items self.old.kept.items (EntryTask.Leave i ∷ reverse self.old.tasks.items) }
        ensures ok { OnOk result (Stepped entries.now self.old.marks.items (EntryTask.Leave i ∷ reverse self.old.tasks.items) self.new.marks.items self.new.kept.items (reverse self.new.tasks.items)) }
        ensures err { IfErr result (λ f. f ≡ SourceFault.NoMemory) }
        ensures kept { OnErr result ((self.new.marks.items ≡ self.old.marks.items) × (self.new.kept.items ≡ self.old.kept.items)) }
    {
        let entry = entries.at(i);
        let leading = leading_use(alloc, entries, &self.marks, &self.kept, &entry)?;
        let full = are_many(self.count, entries.len());
        if let Some(mark) = light_mark(entries, &self.marks, &self.kept, &entry, leading, full) {
            self.marks[i] = mark;
            return Ok(());
        }
        let position = self.kept.len();
        let fields = gathered(alloc, entries, &self.marks, &self.kept, &entry)?;
        let fields = effective_fields(alloc, &fields)?;
        let count = self.count.saturating_add(fields.len());
        self.kept.push(fields.shrunk())?;
        self.count = count;
        self.marks[i] = Mark::Kept(position);
        Ok(())
    }

    fn step(
        &mut self,
        alloc: Global,
        entries: &'a Entries,
        task: EntryTask,
    ) -> Result<(), SourceFault>
        requires { IsWalk entries.now self.old.marks.items self.old.kept.items (task ∷ reverse self.old.tasks.items) }
        ensures ok { OnOk result (Stepped entries.now self.old.marks.items (task ∷ reverse self.old.tasks.items) self.new.marks.items self.new.kept.items (reverse self.new.tasks.items)) }
        ensures err { IfErr result (λ f. Stops f (StuckAt entries.now self.old task f self.new)) }
        ensures kept { OnErr result ((self.new.marks.items ≡ self.old.marks.items) × (self.new.kept.items ≡ self.old.kept.items)) }
    {
        match task {
            EntryTask::Visit(index) => match index {
                Some(i) => self.visit(entries, i),
                None => Err(SourceFault::UnknownName),
            },
            EntryTask::Leave(i) => self.leave(alloc, entries, i),
        }
    }

    /// Drops all tasks after an error. The entries on the chain of uses get the same error, unless
    /// memory ran out.
    fn stop(&mut self, fault: SourceFault)
        ensures kept { self.new.kept.items ≡ self.old.kept.items }
        ensures tasks { self.new.tasks.items ≡ [] }
        ensures marks { IsStopped fault (leaves (reverse self.old.tasks.items)) self.old.marks.items self.new.marks.items }
    {
        if let SourceFault::NoMemory = fault {
            take_back(&mut self.marks);
            self.tasks.clear();
        } else {
            put_fault(&mut self.marks, &mut self.tasks, fault);
        }
    }
}

/// Whether so many kept fields are many beside so many entries.
fn are_many(count: usize, entries: usize) -> bool {
    count / 8 > entries.saturating_add(8_192)
}

/// Adds a visit of each of these names, the first to be done next.
fn put_visits(
    tasks: &mut Vec<EntryTask>,
    entries: &Entries,
    uses: &[Bytes],
) -> Result<(), AllocError>
    ensures { OnOk result (reverse tasks.new.items ≡ visits entries.now uses.now ++ reverse tasks.old.items) }
{
    let mut left = uses.len();
    while left > 0 {
        left -= 1;
        let other = &uses[left];
        let index = entries.index_of(other.0.as_slice());
        tasks.push(EntryTask::Visit(index))?;
    }
    Ok(())
}

/// The resolved entry at an index whose uses are done.
fn made<'a>(
    alloc: Global,
    entries: &'a Entries,
    marks: &[Mark],
    kept: &[Fields<'a>],
    i: usize,
) -> Result<Entry, SourceFault>
    requires walk { IsWalk entries.now marks.now kept.now (EntryTask.Leave i ∷ []) }
    ensures ok { IfOk result (λ e. ResolvedAt entries.now (Some i) e) }
    ensures err { IfErr result (λ f. f ≡ SourceFault.NoMemory) }
{
    let entry = entries.at(i);
    let fields = gathered(alloc, entries, marks, kept, &entry)?;
    merge(alloc, entry.names(), &effective_fields(alloc, &fields)?)
}

/// The fields of an entry, followed by those of the resolved entries that it uses, in order.
fn gathered<'a>(
    alloc: Global,
    entries: &'a Entries,
    marks: &[Mark],
    kept: &[Fields<'a>],
    entry: &EntryView<'a>,
) -> Result<Fields<'a>, AllocError>
    requires known { AreKnown marks.now (map (index_of entries.now) entry.now.uses) }
    requires kept { Keeps entries.now marks.now kept.now }
    ensures { IfOk result (λ fields. Gathers entries.now entry.entry.now fields) }
{
    let mut fields = Fields::new(alloc);
    add_gathered(alloc, entries, marks, kept, entry, &mut fields)?;
    Ok(fields)
}

/// Marks the entries that are still to be left as followed to an error, and drops all tasks.
fn put_fault(marks: &mut [Mark], tasks: &mut Vec<EntryTask>, fault: SourceFault)
    ensures marks { marks.new ≡ with_fault fault (leaves (reverse tasks.old.items)) marks.old }
    ensures tasks { tasks.new.items ≡ [] }
{
    while let Some(task) = tasks.pop() {
        if let EntryTask::Leave(i) = task {
            put_mark(marks, i, Mark::Faulty(fault));
        }
    }
}
