//! Making an entry of fields.

ghost use Rattle.std.specs.Prelude.{◌≡◌, ◌≤◌, [], Some, None, IfOk, IfErr, IfSome, OnOk, option_map, false, true};
ghost use Rattle.ti_caps.specs.Description.{has_nul};
ghost use Rattle.ti_caps.specs.Names.{are_names};
ghost use Rattle.ti_caps.specs.declared.faults.CapFault.TheVariants as cap;
ghost use Rattle.ti_source.specs.Described.{IsGood};
ghost use Rattle.ti_source.specs.Resolving.Uses.{flag_by, merged, number_by, text_by};
ghost use Rattle.ti_source.specs.Code.Laid.{IsLaid};
ghost use Rattle.ti_source.specs.Code.EntryWalk.{of_fields};

use crate::faults::SourceFault;
use crate::ordinals::room;
use crate::reading::statement::{FieldValue, Statement};
use crate::resolving::fields::Fields;
use std::alloc::Global;
use ti_caps::{CapFault, Entry, Kind};

/// The entry with these names and what these fields say. They are applied from the last to the
/// first, so that the first about a capability stays.
pub(crate) fn merge(alloc: Global, names: &[u8], fields: &Fields<'_>) -> Result<Entry, SourceFault>
    requires { are_names names.now ≡ true }
    ensures ok { IfOk result (λ e. e ≡ merged (of_fields names.now fields.now) []) }
    ensures err { IfErr result (λ f. f ≡ SourceFault.NoMemory) }
{
    let mut entry = match Entry::new(alloc, names) {
        Ok(bare) => bare,
        Err(fault) => return Err(want_of_memory(fault)),
    };
    let mut left = fields.len();
    while left > 0 {
        left -= 1;
        lay(&mut entry, fields.at(left))?;
    }
    Ok(entry)
}

/// Applies a field over those after it, of which the entry was made.
fn lay(entry: &mut Entry, field: &Statement) -> Result<(), SourceFault>
    requires { IsGood field.now.field_value }
    ensures ok { OnOk result (IsLaid field.now entry.old entry.new) }
    ensures err { IfErr result (λ f. f ≡ SourceFault.NoMemory) }
{
    if field.slot.0 >= room(field.kind) {
        return Ok(());
    }
    let value = &field.field_value;
    match field.kind {
        Kind::Flag => entry.set_flag(field.slot, flag_of(value)).unwrap(),
        Kind::Number => entry.set_number(field.slot, number_of(value)).unwrap(),
        Kind::Text => entry
            .set_text(field.slot, text_of(value))
            .map_err(want_of_memory)?,
    }
    Ok(())
}

fn flag_of(field_value: &FieldValue) -> bool
    ensures { result ≡ flag_by (Some field_value.now) false }
{
    matches!(field_value, FieldValue::Present)
}

fn number_of(field_value: &FieldValue) -> Option<u16>
    requires { IsGood field_value.now }
    ensures value { result ≡ number_by (Some field_value.now) None }
    ensures small { IfSome result (λ n. n ≤ 32767) }
{
    match field_value {
        FieldValue::Number(number) => Some(*number),
        _ => None,
    }
}

fn text_of(field_value: &FieldValue) -> Option<&[u8]>
    requires { IsGood field_value.now }
    ensures value { option_map (λ t. t.now) result ≡ text_by (Some field_value.now) None }
    ensures whole { IfSome result (λ t. has_nul t.now ≡ false) }
{
    match field_value {
        FieldValue::Text(text) => Some(text.0.as_slice()),
        _ => None,
    }
}

/// Only memory can run out here: the names are good and no text has a byte 0.
fn want_of_memory(_fault: CapFault) -> SourceFault
    requires { _fault ≡ cap.NoMemory }
    ensures { result ≡ SourceFault.NoMemory }
{
    SourceFault::NoMemory
}
