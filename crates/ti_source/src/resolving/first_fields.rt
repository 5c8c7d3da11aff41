//! Finding the first field about each capability.

ghost use Rattle.std.specs.Prelude.{◌≡◌, ◌<◌, ◌+◌, IfOk, length, replicate, None, drop};
ghost use Rattle.ti_source.specs.Code.FirstFields.{AreEffective, Indexes, IsIndex, is_present, takes_effect, with_mark};

use crate::ordinals::{CAPABILITIES, ordinal, room};
use crate::reading::statement::{FieldValue, Statement, may_be_stated, no_marks, put_mark};
use crate::resolving::fields::Fields;
use std::alloc::{AllocError, Global};
use ti_caps::Kind;

/// For each capability the index of the first field about it.
pub(crate) fn index_of(alloc: Global, fields: &Fields<'_>) -> Result<Vec<Option<usize>>, AllocError>
    ensures { IfOk result (λ v. IsIndex fields.now v.items) }
{
    let mut index = no_places(alloc, CAPABILITIES)?;
    let mut left = fields.len();
    while left > 0 {
        left -= 1;
        put(index.as_mut_slice(), fields, left);
    }
    Ok(index)
}

/// The fields that take effect: those that make a capability present and are the first about it.
pub(crate) fn effective_fields<'a>(
    alloc: Global,
    fields: &Fields<'a>,
) -> Result<Fields<'a>, AllocError>
    ensures { IfOk result (λ v. AreEffective fields.now v) }
{
    let mut marks = no_marks(alloc, CAPABILITIES)?;
    let mut found = Fields::with_capacity(alloc, fields.len().min(CAPABILITIES))?;
    for i in 0..fields.len() {
        let field = fields.at(i);
        if takes_effect(&mut marks, field) {
            found.push(field)?;
        }
    }
    Ok(found)
}

/// Marks the capability of a field. Whether the field takes effect: its capability was not marked,
/// and it makes it present.
fn takes_effect(marks: &mut Vec<bool>, field: &Statement) -> bool
    ensures result { result ≡ takes_effect marks.old.items field.now }
    ensures marks { marks.new.items ≡ with_mark marks.old.items field.now }
{
    if field.slot.0 >= room(field.kind) || may_be_stated(marks, field.kind, field.slot) {
        return false;
    }
    put_mark(marks, field.kind, field.slot);
    is_present(field.kind, &field.field_value)
}

fn no_places(alloc: Global, count: usize) -> Result<Vec<Option<usize>>, AllocError>
    ensures { IfOk result (λ v. v.items ≡ replicate count None) }
{
    vec![in alloc; None; count]
}

/// Puts a field at its capability's place in the index of the fields after it.
fn put(index: &mut [Option<usize>], fields: &Fields<'_>, i: usize)
    requires there { i < length fields.now }
    requires long { length index.now ≡ 640 }
    requires further { Indexes fields.now (drop (i + 1) fields.now) index.now }
    ensures long { length index.new ≡ 640 }
    ensures with { Indexes fields.now (drop i fields.now) index.new }
{
    let field = fields.at(i);
    if field.slot.0 >= room(field.kind) {
        return;
    }
    index[ordinal(field.kind, field.slot)] = Some(i);
}

fn is_present(kind: Kind, field_value: &FieldValue) -> bool
    ensures { result ≡ is_present kind field_value.now }
{
    match (kind, field_value) {
        (Kind::Flag, FieldValue::Present) => true,
        (Kind::Number, FieldValue::Number(_)) => true,
        (Kind::Text, FieldValue::Text(_)) => true,
        _ => false,
    }
}
