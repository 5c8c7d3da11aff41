//! Marks: how far a walk has come with each entry.

ghost use Rattle.std.specs.Prelude.{◌≡◌, IfOk, replicate, slice_get, slice_set};
ghost use Rattle.ti_source.specs.Code.EntryWalk.{IsTakenBack};

use crate::faults::SourceFault;
use std::alloc::{AllocError, Global};

/// How far the walk has come with an entry.
#[derive(Clone, Copy)]
pub(crate) enum Mark {
    /// Not entered.
    New,
    /// On the chain of uses.
    Open,
    /// Resolved. Its fields are its own and those of the entries that it uses; listing them takes
    /// so many steps.
    Done(u32),
    /// Resolved. Its fields are its own and those of the entry at this index; listing them takes so
    /// many steps.
    Over(u32, u32),
    /// Resolved. Its fields are kept at this position.
    Kept(usize),
    /// Followed, with this error.
    Faulty(SourceFault),
}

pub(crate) fn new_marks(alloc: Global, count: usize) -> Result<Vec<Mark>, AllocError>
    ensures { IfOk result (λ v. v.items ≡ replicate count Mark.New) }
{
    vec![in alloc; Mark::New; count]
}

pub(crate) fn mark_at(marks: &[Mark], index: usize) -> Option<Mark>
    ensures { result ≡ slice_get marks.now index }
{
    marks.get(index).copied()
}

pub(crate) fn put_mark(marks: &mut [Mark], index: usize, mark: Mark)
    ensures { marks.new ≡ slice_set marks.old index mark }
{
    if index < marks.len() {
        marks[index] = mark;
    }
}

/// Marks the entries on the chain of uses as not entered.
pub(crate) fn take_back(marks: &mut [Mark])
    ensures { IsTakenBack marks.old marks.new }
{
    for i in 0..marks.len() {
        if let Mark::Open = marks[i] {
            marks[i] = Mark::New;
        }
    }
}
