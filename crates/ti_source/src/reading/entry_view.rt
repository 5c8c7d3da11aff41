//! Entries of a source, each lent from the lists of all.

ghost use Rattle.std.specs.Prelude.{◌≡◌, ◌≤◌, ◌∷◌, [], None, IfSome, List, ℕ, length, true};
ghost use Rattle.ti_source.specs.Described.{AreGood, IsDescribed};
ghost use Rattle.ti_caps.specs.Names.{are_names};

use crate::reading::statement::Statement;
use std::marker::Model;
use ti_caps::Bytes;

/// An entry of a source, lent.
#[derive(Drop)]
pub(crate) struct EntryView<'a> {
    names: &'a [u8],
    statements: &'a [Statement],
    uses: &'a [Bytes],
}

impl<'a> Model for EntryView<'a> {
    ghost use Rattle.ti_source.specs.Described.{Described, IsDescribed};

    ghost Value = { Described };

    ghost view = { λ e. record { names = e.names.now; statements = e.statements.now; uses = e.uses.now } };

    ghost invariant = { λ e. IsDescribed (record { names = e.names.now; statements = e.statements.now; uses = e.uses.now }) };
}

impl<'a> EntryView<'a> {
    pub(crate) fn new(
        names: &'a [u8],
        statements: &'a [Statement],
        uses: &'a [Bytes],
    ) -> EntryView<'a>
        requires { IsDescribed (record { names = names.now; statements = statements.now; uses = uses.now }) }
        ensures { result ≡ record { names = names.entry.now; statements = statements.entry.now; uses = uses.entry.now } }
    {
        EntryView {
            names,
            statements,
            uses,
        }
    }

    pub(crate) fn names(&self) -> &'a [u8]
        ensures value { result.now ≡ self.now.names }
        ensures good { are_names self.now.names ≡ true }
    {
        self.names
    }

    pub(crate) fn statements(&self) -> &'a [Statement]
        ensures value { result.now ≡ self.now.statements }
        ensures good { AreGood self.now.statements }
    {
        self.statements
    }

    pub(crate) fn uses(&self) -> &'a [Bytes]
        ensures value { result.now ≡ self.now.uses }
        ensures few { length self.now.uses ≤ 32 }
    {
        self.uses
    }

    /// The name that the entry uses, if it has exactly one use.
    pub(crate) fn single_use(&self) -> Option<&'a [u8]>
        ensures { IfSome result (λ other. self.now.uses ≡ other.now ∷ []) }
    {
        match self.uses {
            [other] => Some(other.0.as_slice()),
            _ => None,
        }
    }

    /// The name that the entry uses, if it has no fields of its own and exactly one use.
    pub(crate) fn only_use(&self) -> Option<&'a [u8]>
        ensures some { IfSome result (λ other. (self.now.statements ≡ []) × (self.now.uses ≡ other.now ∷ [])) }
        ensures none { result ≡ None → (other : List ℕ) → self.now.statements ≡ [] → self.now.uses ≡ other ∷ [] → ⊥ }
    {
        match (self.statements, self.uses) {
            ([], [other]) => Some(other.0.as_slice()),
            _ => None,
        }
    }
}
