//! The names and paths of compiled files (term(5), 'Storage Location').

ghost use Rattle.std.specs.Prelude.{◌≡◌, ◌++◌, ◌∷◌, [], IfOk, OnOk, filter, map};
ghost use Rattle.std.specs.List.{list_all, list_any};
ghost use Rattle.ti_caps.specs.Names.{has_no_blank, reference_names};
ghost use Rattle.ti_compile.specs.FileNames.{is_dots, is_file_name, is_slash, path_of};

use std::alloc::{AllocError, Global};
use ti_caps::{Bytes, cut_name, has_no_blank};

/// The reference names: the alternatives without a blank, in order.
pub(crate) fn reference_names(alloc: Global, names: &[u8]) -> Result<Vec<&[u8]>, AllocError>
    ensures { IfOk result (λ found. map (λ name. name.now) found.items ≡ reference_names names.now) }
{
    let mut found = Vec::new(alloc);
    let mut rest = names;
    loop {
        let (name, after) = cut_name(rest);
        put_reference(&mut found, name)?;
        match after {
            Some(more) => rest = more,
            None => return Ok(found),
        }
    }
}

/// Whether this can be a file name: it contains no `/`, and is neither `.` nor `..`.
pub fn is_file_name(name: &[u8]) -> bool
    ensures { result ≡ is_file_name name.now }
{
    !has_slash(name) && !is_dots(name)
}

/// Whether all these can be file names.
pub(crate) fn are_file_names(names: &[&[u8]]) -> bool
    ensures { result ≡ list_all is_file_name (map (λ name. name.now) names.now) }
{
    for name in names {
        if !is_file_name(name) {
            return false;
        }
    }
    true
}

/// The path of the file for a name: `t1` has `t/t1`.
pub(crate) fn path_of(alloc: Global, name: &[u8]) -> Result<Bytes, AllocError>
    ensures { IfOk result (λ path. path ≡ path_of name.now) }
{
    let mut path = Vec::from_slice(alloc, &name[..name.len().min(1)])?;
    path.push(b'/')?;
    path.extend_from_slice(name)?;
    Ok(Bytes(path))
}

// Appends a name of an entry, unless it has a blank.
fn put_reference<'a>(found: &mut Vec<&'a [u8]>, name: &'a [u8]) -> Result<(), AllocError>
    ensures { OnOk result (map (λ name. name.now) found.new.items ≡ map (λ name. name.now) found.old.items ++ filter has_no_blank (name.entry.now ∷ [])) }
{
    if has_no_blank(name) {
        found.push(name)?;
    }
    Ok(())
}

fn has_slash(name: &[u8]) -> bool
    ensures { result ≡ list_any is_slash name.now }
{
    name.iter().any(|b| *b == b'/')
}

fn is_dots(name: &[u8]) -> bool
    ensures { result ≡ is_dots name.now }
{
    matches!(name, [b'.'] | [b'.', b'.'])
}
