//! Splitting a line into fields, and the forms of fields.

ghost use Rattle.std.specs.Prelude.{◌≡◌, ◌≤◌, ◌<◌, ◌+◌, ◌∷◌, IfSome, ◌&&◌, ◌==◌, not, length, take, drop, option_map};
ghost use Rattle.ti_source.specs.Reading.Cutting.{AreCut};
ghost use Rattle.ti_source.specs.Reading.Field.{ends_name, fields, later_fields, form_by, form_of, is_blank, name_length, takes_next, without_lead, without_trail};
ghost use Rattle.ti_source.specs.Code.Plain.{is_inner};
ghost use Rattle.ti_source.specs.Code.Seen.{seen_form};

/// A field by its form.
pub enum Form<'a> {
    /// Nothing, or a field that a full stop leaves out.
    Nothing,
    /// A name alone.
    Plain(&'a [u8]),
    /// A name, and what follows its `#`.
    Numeric(&'a [u8], &'a [u8]),
    /// A name, and what follows its `=`, not decoded yet.
    Textual(&'a [u8], &'a [u8]),
    /// A name that `@` ends.
    Cancelled(&'a [u8]),
    /// The name of another entry, after `use=`.
    Refers(&'a [u8]),
    /// A name, and more than `@` after it.
    Odd(&'a [u8]),
}

/// The first field of a text, and what follows its comma if there is one.
pub fn split_field(bytes: &[u8]) -> (&[u8], Option<&[u8]>)
    ensures cut { fields bytes.now ≡ result.0.now ∷ later_fields (option_map (λ s. s.now) result.1) }
    ensures shorter { IfSome result.1 (λ rest. length rest.now < length bytes.now) }
{
    let mut taken = false;
    for (i, b) in bytes.iter().enumerate() {
        if is_inner(*b) {
            taken = false;
        } else if ends_field(taken, *b) {
            return (&bytes[..i], Some(&bytes[i + 1..]));
        } else {
            taken = takes_after(taken, *b);
        }
    }
    (bytes, None)
}

pub(crate) fn is_blank(b: u8) -> bool
    ensures { result ≡ is_blank b }
{
    b == b' ' || b == b'\t'
}

/// The form of a field.
pub fn form_of(field: &[u8]) -> Form<'_>
    ensures { seen_form result ≡ form_of field.now }
{
    let whole = without_lead(field);
    let trimmed = without_trail(whole);
    match trimmed {
        [] => Form::Nothing,
        [b'.', ..] => Form::Nothing,
        _ => form_by(trimmed, whole),
    }
}

/// Law: the fields of a line are the parts between its commas, except that a comma after `\` or `^`
/// ends no field (terminfo(5), "Preparing Descriptions"); a line has no other fields.
pub fn fields_are_cut()
    ensures { AreCut }
{}

/// Whether a byte neither ends a field nor escapes the next byte: most bytes do neither.
fn is_inner(b: u8) -> bool
    ensures { result ≡ is_inner b }
{
    b != b',' && !takes_next(b)
}

fn takes_next(b: u8) -> bool
    ensures { result ≡ takes_next b }
{
    b == b'\\' || b == b'^'
}

fn takes_after(taken: bool, b: u8) -> bool
    ensures { result ≡ (not taken && takes_next b) }
{
    !taken && takes_next(b)
}

fn ends_field(taken: bool, b: u8) -> bool
    ensures { result ≡ (not taken && b == 44) }
{
    !taken && b == b','
}

fn without_lead(bytes: &[u8]) -> &[u8]
    ensures { result.now ≡ without_lead bytes.now }
{
    for (i, b) in bytes.iter().enumerate() {
        if !is_blank(*b) {
            return &bytes[i..];
        }
    }
    &bytes[bytes.len()..]
}

fn without_trail(bytes: &[u8]) -> &[u8]
    ensures { result.now ≡ without_trail bytes.now }
{
    let mut end = bytes.len();
    while end > 0 && is_blank(bytes[end - 1]) {
        end -= 1;
    }
    &bytes[..end]
}

fn ends_name(b: u8) -> bool
    ensures { result ≡ ends_name b }
{
    b == b'#' || b == b'=' || b == b'@'
}

fn name_length(field: &[u8]) -> usize
    ensures length { result ≡ name_length field.now }
    ensures within { result ≤ length field.now }
{
    for (i, b) in field.iter().enumerate() {
        if ends_name(*b) {
            return i;
        }
    }
    field.len()
}

fn form_by<'a>(trimmed: &'a [u8], whole: &'a [u8]) -> Form<'a>
    requires { length trimmed.now ≤ length whole.now }
    ensures { seen_form result ≡ form_by (take (name_length trimmed.now) trimmed.now) (drop (name_length trimmed.now) trimmed.now) (drop (name_length trimmed.now + 1) whole.now) }
{
    let end = name_length(trimmed);
    let name = &trimmed[..end];
    if end == trimmed.len() {
        return Form::Plain(name);
    }
    let value = &trimmed[end + 1..];
    match trimmed[end] {
        b'#' => Form::Numeric(name, value),
        b'=' if name == b"use".as_slice() => Form::Refers(value),
        b'=' => Form::Textual(name, &whole[end + 1..]),
        _ if value.is_empty() => Form::Cancelled(name),
        _ => Form::Odd(name),
    }
}
