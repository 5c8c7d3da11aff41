//! Lists of fields, in an order in which the first about a capability counts. Each field is a
//! `Statement`.

ghost use Rattle.std.specs.Prelude.{◌≡◌, ◌<◌, ◌∷◌, [], ◌++◌, Some, IfOk, OnOk, length, map, slice_get};
ghost use Rattle.ti_source.specs.Described.{AreGood, IsGood};

use crate::reading::statement::Statement;
use std::alloc::{AllocError, Global};
use std::marker::Model;

/// Fields, by reference.
#[derive(Drop)]
pub(crate) struct Fields<'a>(Vec<&'a Statement>);

impl<'a> Model for Fields<'a> {
    ghost use Rattle.std.specs.Prelude.{List, map};
    ghost use Rattle.ti_source.specs.declared.reading.statement.Statement.{Statement};
    ghost use Rattle.ti_source.specs.Described.{AreGood};

    ghost Value = { List Statement };

    ghost view = { λ f. map (λ s. s.now) f.0.items };

    ghost invariant = { λ f. AreGood (map (λ s. s.now) f.0.items) };
}

impl<'a> Fields<'a> {
    pub(crate) fn new(alloc: Global) -> Fields<'a>
        ensures { result ≡ [] }
    {
        Fields(Vec::new(alloc))
    }

    /// No fields, with room for so many.
    pub(crate) fn with_capacity(alloc: Global, count: usize) -> Result<Fields<'a>, AllocError>
        ensures { IfOk result (λ f. f ≡ []) }
    {
        Ok(Fields(Vec::with_capacity(alloc, count)?))
    }

    /// The fields, without spare room.
    pub(crate) fn shrunk(mut self) -> Fields<'a>
        ensures { result ≡ self.entry }
    {
        self.0.shrink_to_fit();
        self
    }

    pub(crate) fn len(&self) -> usize
        ensures { result ≡ length self.now }
    {
        self.0.len()
    }

    /// The field at an index.
    pub(crate) fn at(&self, i: usize) -> &'a Statement
        requires { i < length self.now }
        ensures value { slice_get self.now i ≡ Some result.now }
        ensures good { IsGood result.now.field_value }
    {
        self.0[i]
    }

    pub(crate) fn push(&mut self, field: &'a Statement) -> Result<(), AllocError>
        requires { IsGood field.now.field_value }
        ensures { OnOk result (self.new ≡ self.old ++ field.entry.now ∷ []) }
    {
        self.0.push(field)?;
        Ok(())
    }

    pub(crate) fn extend_from_slice(&mut self, fields: &'a [Statement]) -> Result<(), AllocError>
        requires { AreGood fields.now }
        ensures { OnOk result (self.new ≡ self.old ++ fields.entry.now) }
    {
        for field in fields {
            self.push(field)?;
        }
        Ok(())
    }

    pub(crate) fn extend(&mut self, fields: &Fields<'a>) -> Result<(), AllocError>
        ensures { OnOk result (self.new ≡ self.old ++ fields.now) }
    {
        self.0.extend_from_slice(&fields.0)
    }
}
