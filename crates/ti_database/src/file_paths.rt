//! The paths at which the compiled entry of a name is looked for.
ghost use Rattle.std.specs.Prelude.{◌≡◌, ◌⊎◌, ◌++◌, ◌↔◌, ◌∷◌, ◌≤◌, [], length, IfErr, IfOk, IsErrOf, OnOk, false, true};
ghost use Rattle.std.specs.List.{flat_map};
ghost use Rattle.ti_database.specs.Places.{hexadecimal, hexadecimal_digit, is_terminal_name, path_below, paths_in, paths_of};

use crate::faults::DatabaseFault;
use crate::folders::{Variables, folders};
use crate::names::is_terminal_name;
use std::alloc::{AllocError, Global};
use std::fmt;
use std::fmt::{Display, Formatter};
use std::marker::Model;

/// The path of a file or a folder, any bytes.
#[derive(Debug, Drop)]
pub struct FilePath(pub Vec<u8>);

impl Model for FilePath {
    ghost use Rattle.std.specs.Prelude.{List, ℕ};

    ghost Value = { List ℕ };

    ghost view = { λ path. path.0.items };
}

/// The path as text; one that is not UTF-8 is not shown.
impl Display for FilePath {
    fn fmt<W: fmt::Write>(&self, f: &mut Formatter<W>) -> fmt::Result {
        f.write_str(str::from_utf8(self.0.as_slice()).unwrap_or("(a path that is not text)"))
    }
}

/// Paths in the order in which they are looked at.
#[derive(Debug, Drop)]
pub struct FilePaths(pub Vec<FilePath>);

impl Model for FilePaths {
    ghost use Rattle.std.specs.Prelude.{List, ℕ};

    ghost Value = { List (List ℕ) };

    ghost view = { λ paths. paths.0.items };
}

/// Of the paths as many are shown as text.
const MOST_SHOWN: usize = 10;

/// The first ten paths, with a comma and a blank between each two, and how many there are more.
impl Display for FilePaths {
    fn fmt<W: fmt::Write>(&self, f: &mut Formatter<W>) -> fmt::Result {
        let paths = self.0.as_slice();
        let mut between = "";
        for path in paths.get(..MOST_SHOWN).unwrap_or(paths) {
            f.write_str(between)?;
            path.fmt(f)?;
            between = ", ";
        }
        match paths.len().saturating_sub(MOST_SHOWN) {
            0 => Ok(()),
            more => write!(f, " and {more} more"),
        }
    }
}

/// The paths at which the compiled entry of a terminal's name is looked for, in order
/// (terminfo(5), 'Fetching Compiled Descriptions'). The folders are the one of `TERMINFO`, the
/// folder `.terminfo` in `HOME`, those of `TERMINFO_DIRS`, where an empty one stands for the
/// system's, and the system's: `/etc/terminfo`, `/lib/terminfo` and `/usr/share/terminfo`. A
/// variable that is not set, or empty, gives no folder. In each, the file is in a folder named
/// by the first letter of the name, or else by that letter's code, two lower-case hexadecimal
/// digits.
///
/// Refused with `BadName` if the name is empty, is `.` or `..`, or has a `/` or a byte outside 33 to
/// 126; then with `NoMemory`.
pub fn paths(alloc: Global, name: &[u8], variables: &Variables) -> Result<FilePaths, DatabaseFault>
    ensures bad { IsErrOf result DatabaseFault.BadName ↔ (is_terminal_name name.now ≡ false) }
    ensures err { IfErr result (λ fault. (fault ≡ DatabaseFault.BadName) ⊎ (fault ≡ DatabaseFault.NoMemory)) }
    ensures ok { IfOk result (λ paths. paths ≡ paths_of variables.now name.now) }
{
    if !is_terminal_name(name) {
        return Err(DatabaseFault::BadName);
    }
    match all_paths(alloc, name, variables) {
        Ok(paths) => Ok(paths),
        Err(_) => Err(DatabaseFault::NoMemory),
    }
}

fn all_paths(alloc: Global, name: &[u8], variables: &Variables) -> Result<FilePaths, AllocError>
    requires { is_terminal_name name.now ≡ true }
    ensures { IfOk result (λ paths. paths ≡ paths_of variables.now name.now) }
{
    let folders = folders(alloc, variables)?;
    let mut paths = FilePaths(Vec::new(alloc));
    match put_all(alloc, folders.0.as_slice(), name, &mut paths) {
        Ok(()) => Ok(paths),
        Err(error) => Err(error),
    }
}

// Appends the paths of a name in each of these folders.
fn put_all(
    alloc: Global,
    folders: &[FilePath],
    name: &[u8],
    paths: &mut FilePaths,
) -> Result<(), AllocError>
    requires { is_terminal_name name.now ≡ true }
    ensures { OnOk result (paths.new ≡ paths.old ++ flat_map (λ folder. paths_in folder name.now) folders.now) }
{
    for folder in folders {
        put_two(alloc, folder.0.as_slice(), name, paths)?;
    }
    Ok(())
}

// Appends the two paths of a name in a folder.
fn put_two(
    alloc: Global,
    folder: &[u8],
    name: &[u8],
    paths: &mut FilePaths,
) -> Result<(), AllocError>
    requires { is_terminal_name name.now ≡ true }
    ensures { OnOk result (paths.new ≡ paths.old ++ paths_in folder.now name.now) }
{
    let by_letter = path_below(alloc, folder, &name[..1], name)?;
    paths.0.push(by_letter)?;
    let code = [digit(name[0] / 16), digit(name[0] % 16)];
    let by_code = path_below(alloc, folder, &code, name)?;
    paths.0.push(by_code)?;
    Ok(())
}

// A lower-case hexadecimal digit.
fn digit(value: u8) -> u8
    requires { value ≤ 15 }
    ensures { result ≡ hexadecimal_digit value }
{
    if value < 10 {
        b'0' + value
    } else {
        b'a' + (value - 10)
    }
}

// The path of a name in a folder of a folder.
fn path_below(
    alloc: Global,
    folder: &[u8],
    inner: &[u8],
    name: &[u8],
) -> Result<FilePath, AllocError>
    ensures { IfOk result (λ path. path ≡ path_below folder.now inner.now name.now) }
{
    let mut path = Vec::from_slice(alloc, folder)?;
    path.push(b'/')?;
    path.extend_from_slice(inner)?;
    path.push(b'/')?;
    path.extend_from_slice(name)?;
    Ok(FilePath(path))
}
