//! What a field means by itself.

ghost use Rattle.std.specs.Prelude.{ℕ, ◌≡◌, Option, min, option_map};
ghost use Rattle.ti_caps.specs.Table.{capability_of};
ghost use Rattle.ti_source.specs.Reading.Sources.{cancelled_means, meaning, numeric_means, plain_means, textual_means, valued_means};
ghost use Rattle.ti_source.specs.Code.Seen.{capped, seen_form, seen_meaning};

use crate::note::Cause;
use crate::reading::field::Form;
use crate::reading::number::number;
use ti_caps::{Kind, Slot, find_name};

/// A value for all numbers that are greater than a capability can have.
const TOO_GREAT: u32 = 32_768;

/// What a field says of its capability, as it is written: a text is not decoded yet, and each number
/// above 32,767 is 32,768.
#[derive(Clone, Copy)]
pub(crate) enum WrittenValue<'a> {
    Present,
    Number(u32),
    Text(&'a [u8]),
    Cancelled,
}

/// What a field means by itself.
#[derive(Clone, Copy)]
pub(crate) enum Meaning<'a> {
    /// Nothing.
    Silent,
    /// Nothing, since its name is doubtful.
    Doubtful(Cause, &'a [u8]),
    /// The capability of this name has a value, or is cancelled.
    States(&'a [u8], Kind, Slot, WrittenValue<'a>),
    /// What follows `#` is not a number.
    Numberless,
    /// The entry uses another one.
    Uses(&'a [u8]),
}

/// What a field of this form means.
#[tactic(auto, unfolding(crate::specs::Reading::Sources::meaning))]
pub(crate) fn meaning_of(form: Form<'_>) -> Meaning<'_>
    ensures { seen_meaning result ≡ capped (meaning (seen_form form.entry)) }
{
    match form {
        Form::Nothing => Meaning::Silent,
        Form::Plain(name) => plain(name),
        Form::Numeric(name, value) => numeric(name, value),
        Form::Textual(name, text) => textual(name, text),
        Form::Cancelled(name) => cancelled(name),
        Form::Refers(other) => Meaning::Uses(other),
        Form::Odd(name) => Meaning::Doubtful(Cause::Unknown, name),
    }
}

fn plain(name: &[u8]) -> Meaning<'_>
    ensures { seen_meaning result ≡ capped (plain_means name.now (capability_of name.now)) }
{
    match find_name(name) {
        None => Meaning::Doubtful(Cause::Unknown, name),
        Some((Kind::Flag, slot)) => Meaning::States(name, Kind::Flag, slot, WrittenValue::Present),
        Some(_) => Meaning::Doubtful(Cause::WrongKind, name),
    }
}

fn textual<'a>(name: &'a [u8], text: &'a [u8]) -> Meaning<'a>
    ensures { seen_meaning result ≡ capped (textual_means name.now text.now (capability_of name.now)) }
{
    match find_name(name) {
        None => Meaning::Doubtful(Cause::Unknown, name),
        Some((Kind::Text, slot)) => Meaning::States(
            name,
            Kind::Text,
            slot,
            WrittenValue::Text(text),
        ),
        Some(_) => Meaning::Doubtful(Cause::WrongKind, name),
    }
}

fn cancelled(name: &[u8]) -> Meaning<'_>
    ensures { seen_meaning result ≡ capped (cancelled_means name.now (capability_of name.now)) }
{
    match find_name(name) {
        None => Meaning::Doubtful(Cause::Unknown, name),
        Some((kind, slot)) => Meaning::States(name, kind, slot, WrittenValue::Cancelled),
    }
}

fn numeric<'a>(name: &'a [u8], value: &'a [u8]) -> Meaning<'a>
    ensures { seen_meaning result ≡ capped (numeric_means name.now value.now (capability_of name.now)) }
{
    match find_name(name) {
        None => Meaning::Doubtful(Cause::Unknown, name),
        Some((Kind::Number, slot)) => valued(name, slot, number(value, TOO_GREAT)),
        Some(_) => Meaning::Doubtful(Cause::WrongKind, name),
    }
}

fn valued(name: &[u8], slot: Slot, value: Option<u32>) -> Meaning<'_>
    ensures { (n : Option ℕ) → value ≡ option_map (λ v. min v 32768) n → seen_meaning result ≡ capped (valued_means name.now slot.0 n) }
{
    match value {
        None => Meaning::Numberless,
        Some(value) => Meaning::States(name, Kind::Number, slot, WrittenValue::Number(value)),
    }
}
