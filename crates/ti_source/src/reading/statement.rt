//! Statements: what the fields of an entry say of its capabilities.

ghost use Rattle.std.specs.Prelude.{◌≡◌, ◌≤◌, ◌<◌, ◌∷◌, [], ◌++◌, Ok, OnOk, OnErr, IfOk, true, false, length, replicate, slice_index_or, slice_set};
ghost use Rattle.std.specs.List.{list_any};
ghost use Rattle.ti_source.specs.Reading.Sources.{concerns};
ghost use Rattle.ti_source.specs.Result.{Becomes, Gives};
ghost use Rattle.ti_source.specs.Described.{AreGood, IsDescribed, IsGood};
ghost use Rattle.ti_source.specs.Code.FirstFields.{ordinal};
ghost use Rattle.ti_source.specs.Code.Marked.{AreMarked};
ghost use Rattle.ti_caps.specs.Table.{same_kind};
ghost use Rattle.ti_caps.specs.Names.{are_names};

use crate::faults::SourceFault;
use crate::ordinals::{CAPABILITIES, ordinal};
use std::alloc::{AllocError, Global};
use std::marker::Model;
use ti_caps::{Bytes, Kind, Slot};

/// What a field says of its capability.
#[derive(Drop)]
pub(crate) enum FieldValue {
    Present,
    Number(u16),
    Text(Bytes),
    Cancelled,
}

/// A field that counts: the first of its entry about a capability.
#[derive(Drop)]
pub(crate) struct Statement {
    pub(crate) kind: Kind,
    pub(crate) slot: Slot,
    pub(crate) field_value: FieldValue,
}

/// An entry that is being read.
#[derive(Drop)]
pub(crate) struct SourceEntry {
    names: Bytes,
    statements: Vec<Statement>,
    uses: Vec<Bytes>,
    /// For each capability whether there may be a field about it: if a mark is false, there is
    /// none.
    marks: Vec<bool>,
}

impl Model for SourceEntry {
    ghost use Rattle.ti_source.specs.Described.{Described};

    ghost Value = { Described };

    ghost view = { λ e. record { names = e.names; statements = e.statements.items; uses = e.uses.items } };

    ghost use Rattle.ti_source.specs.Described.{IsDescribed};
    ghost use Rattle.ti_source.specs.Code.Marked.{IsMarked};

    ghost invariant = { λ e. IsMarked (record { names = e.names; statements = e.statements.items; uses = e.uses.items }) e.marks.items };
}

impl Statement {
    pub(crate) fn concerns(&self, kind: Kind, slot: Slot) -> bool
        ensures { result ≡ concerns kind slot.0 self.now }
    {
        same_kind(self.kind, kind) && self.slot.0 == slot.0
    }
}

impl SourceEntry {
    pub(crate) fn new(alloc: Global, names: Bytes) -> SourceEntry
        requires { are_names names ≡ true }
        ensures { result ≡ record { names = names; statements = []; uses = [] } }
    {
        SourceEntry {
            names,
            statements: Vec::new(alloc),
            uses: Vec::new(alloc),
            marks: Vec::new(alloc),
        }
    }

    pub(crate) fn uses(&self) -> &[Bytes]
        ensures value { result.now ≡ self.now.uses }
        ensures few { length self.now.uses ≤ 32 }
    {
        self.uses.as_slice()
    }

    pub(crate) fn is_stated(&self, kind: Kind, slot: Slot) -> bool
        ensures { result ≡ list_any (concerns kind slot.0) self.now.statements }
    {
        may_be_stated(&self.marks, kind, slot) && is_stated(self.statements.as_slice(), kind, slot)
    }

    pub(crate) fn put_statement(
        &mut self,
        kind: Kind,
        slot: Slot,
        field_value: FieldValue,
    ) -> Result<(), SourceFault>
        requires { IsGood field_value }
        ensures { Becomes result (Ok (record self.old { statements = self.old.statements ++ (record { kind = kind; slot = slot; field_value = field_value }) ∷ [] })) self.new }
    {
        mark(&self.statements, &mut self.marks, kind, slot)?;
        let statement = Statement {
            kind,
            slot,
            field_value,
        };
        push_statement(&mut self.statements, statement)?;
        Ok(())
    }

    /// The names, statements and uses.
    pub(crate) fn into_parts(self) -> (Vec<u8>, Vec<Statement>, Vec<Bytes>)
        ensures names { result.0.items ≡ self.names }
        ensures statements { result.1.items ≡ self.statements }
        ensures uses { result.2.items ≡ self.uses }
        ensures described { IsDescribed self }
    {
        let SourceEntry {
            names,
            statements,
            uses,
            marks: _,
        } = self;
        (names.0, statements, uses)
    }

    pub(crate) fn put_use(&mut self, other: Bytes) -> Result<(), SourceFault>
        requires { length self.old.uses < 32 }
        ensures { Becomes result (Ok (record self.old { uses = self.old.uses ++ other ∷ [] })) self.new }
    {
        self.uses.push(other)?;
        Ok(())
    }
}

fn same_kind(a: Kind, b: Kind) -> bool
    ensures { result ≡ same_kind a b }
{
    match (a, b) {
        (Kind::Flag, Kind::Flag) => true,
        (Kind::Number, Kind::Number) => true,
        (Kind::Text, Kind::Text) => true,
        _ => false,
    }
}

/// Marks of so many capabilities, none of which is marked.
pub(crate) fn no_marks(alloc: Global, count: usize) -> Result<Vec<bool>, AllocError>
    ensures { IfOk result (λ v. v.items ≡ replicate count false) }
{
    vec![in alloc; false; count]
}

/// Adds a statement.
fn push_statement(statements: &mut Vec<Statement>, statement: Statement) -> Result<(), AllocError>
    ensures ok { OnOk result (statements.new.items ≡ statements.old.items ++ statement ∷ []) }
    ensures err { OnErr result (statements.new.items ≡ statements.old.items) }
{
    statements.push(statement)?;
    Ok(())
}

/// Marks a capability; before the first field, all marks are made anew.
fn mark(
    statements: &[Statement],
    marks: &mut Vec<bool>,
    kind: Kind,
    slot: Slot,
) -> Result<(), AllocError>
    requires { AreMarked statements.now marks.old.items }
    ensures still { AreMarked statements.now marks.new.items }
    ensures marked { OnOk result (slice_index_or marks.new.items (ordinal kind slot.0) true ≡ true) }
{
    if statements.is_empty() {
        *marks = no_marks(*marks.allocator(), CAPABILITIES)?;
    }
    put_mark(marks, kind, slot);
    Ok(())
}

/// Marks a capability that a field is about.
pub(crate) fn put_mark(marks: &mut Vec<bool>, kind: Kind, slot: Slot)
    ensures { marks.new.items ≡ slice_set marks.old.items (ordinal kind slot.0) true }
{
    let ordinal = ordinal(kind, slot);
    if ordinal < marks.len() {
        marks[ordinal] = true;
    }
}

/// Whether a capability is marked, or has no mark.
pub(crate) fn may_be_stated(marks: &[bool], kind: Kind, slot: Slot) -> bool
    ensures { result ≡ slice_index_or marks.now (ordinal kind slot.0) true }
{
    match marks.get(ordinal(kind, slot)) {
        Some(mark) => *mark,
        None => true,
    }
}

fn is_stated(statements: &[Statement], kind: Kind, slot: Slot) -> bool
    ensures { result ≡ list_any (concerns kind slot.0) statements.now }
{
    for statement in statements {
        if statement.concerns(kind, slot) {
            return true;
        }
    }
    false
}
