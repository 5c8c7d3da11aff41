//! What `tic -x` reads of a field besides its capability in the table.

use crate::capabilities::{MOST_WHOLE, is_extended_name};
use ti_caps::{Kind, Slot, find_name, standard};
use ti_source::{Cause, Form, form_of, number};

/// A value for all numbers that are greater than a capability can have.
const TOO_GREAT: u32 = MOST_WHOLE + 1;

/// What a field gives its capability.
#[derive(Clone, Copy)]
pub(crate) enum Given<'a> {
    Flag,
    Number(u32),
    /// A text that is not decoded yet.
    Text(&'a [u8]),
    Cancelled,
}

/// Whose name a field has.
#[derive(Clone, Copy)]
pub(crate) enum Owner {
    /// A capability of the table.
    Table(Kind, Slot),
    /// Another one of term.h.
    Standard(Kind, Slot),
    /// None of term.h.
    Extended,
    /// None: no source can give a capability this name.
    Nobody,
}

/// What a field adds to its entry.
#[derive(Clone, Copy)]
pub(crate) enum Addition<'a> {
    /// Nothing.
    Nothing,
    /// Nothing, since its name is doubtful.
    Doubtful(&'a [u8], Cause),
    /// Nothing but what the table's capability of this name gets.
    Known(&'a [u8]),
    /// What follows `#` is not a number.
    Numberless,
    /// The entry uses another one.
    Uses(&'a [u8]),
    /// The capability of this name has a value; the flag says whether it is a number above
    /// 2,147,483,647.
    Gives(&'a [u8], Owner, Given<'a>, bool),
}

/// What a field adds to its entry.
pub(crate) fn addition_of(field: &[u8]) -> Addition<'_> {
    match form_of(field) {
        Form::Nothing => Addition::Nothing,
        Form::Plain(name) => giving(name, Given::Flag, false),
        Form::Numeric(name, value) => numeric(name, value),
        Form::Textual(name, text) => giving(name, Given::Text(text), false),
        Form::Cancelled(name) => giving(name, Given::Cancelled, false),
        Form::Refers(other) => Addition::Uses(other),
        Form::Odd(name) => Addition::Doubtful(name, Cause::Unknown),
    }
}

/// The name of a field, up to its first `#`, `=` or `@`.
pub(crate) fn name_of(field: &[u8]) -> &[u8] {
    match form_of(field) {
        Form::Nothing => &[],
        Form::Plain(name)
        | Form::Numeric(name, _)
        | Form::Textual(name, _)
        | Form::Cancelled(name)
        | Form::Refers(name)
        | Form::Odd(name) => name,
    }
}

/// The name and the text of a field that gives a capability a text, not decoded yet.
pub(crate) fn text_of(field: &[u8]) -> Option<(&[u8], &[u8])> {
    match form_of(field) {
        Form::Textual(name, text) if takes_text(name) => Some((name, text)),
        Form::Nothing
        | Form::Plain(_)
        | Form::Numeric(_, _)
        | Form::Textual(_, _)
        | Form::Cancelled(_)
        | Form::Refers(_)
        | Form::Odd(_) => None,
    }
}

// Whether the capability of this name can be given a text.
fn takes_text(name: &[u8]) -> bool {
    match owner_of(name) {
        Owner::Table(kind, _) | Owner::Standard(kind, _) => kind == Kind::Text,
        Owner::Extended => true,
        Owner::Nobody => false,
    }
}

/// Whether a field gives a capability that the table does not have a number that is none.
pub fn has_bad_number(field: &[u8]) -> bool {
    matches!(addition_of(field), Addition::Numberless)
}

fn owner_of(name: &[u8]) -> Owner {
    if let Some((kind, slot)) = find_name(name) {
        return Owner::Table(kind, slot);
    }
    if let Some((kind, slot)) = standard::find_name(name) {
        return Owner::Standard(kind, slot);
    }
    if is_extended_name(name) {
        return Owner::Extended;
    }
    Owner::Nobody
}

fn numeric<'a>(name: &'a [u8], value: &'a [u8]) -> Addition<'a> {
    match number(value, TOO_GREAT) {
        Some(number) => {
            let great = number > MOST_WHOLE;
            giving(name, Given::Number(number.min(MOST_WHOLE)), great)
        }
        None => numberless(name),
    }
}

// A field of this name whose number is none.
fn numberless(name: &[u8]) -> Addition<'_> {
    match owner_of(name) {
        Owner::Table(_, _) => Addition::Known(name),
        Owner::Standard(Kind::Number, _) | Owner::Extended => Addition::Numberless,
        Owner::Standard(_, _) => Addition::Doubtful(name, Cause::WrongKind),
        Owner::Nobody => Addition::Doubtful(name, Cause::Unknown),
    }
}

fn giving<'a>(name: &'a [u8], given: Given<'a>, great: bool) -> Addition<'a> {
    let owner = owner_of(name);
    match owner {
        Owner::Table(Kind::Number, _) if has_kind(given, Kind::Number) => {
            Addition::Gives(name, owner, given, great)
        }
        Owner::Table(_, _) => Addition::Known(name),
        Owner::Standard(kind, _) if !has_kind(given, kind) => {
            Addition::Doubtful(name, Cause::WrongKind)
        }
        Owner::Standard(_, _) | Owner::Extended => Addition::Gives(name, owner, given, great),
        Owner::Nobody => Addition::Doubtful(name, Cause::Unknown),
    }
}

// Whether a field can be about a capability of this kind.
fn has_kind(given: Given<'_>, kind: Kind) -> bool {
    match given {
        Given::Flag => kind == Kind::Flag,
        Given::Number(_) => kind == Kind::Number,
        Given::Text(_) => kind == Kind::Text,
        Given::Cancelled => true,
    }
}
