//! Finding an entry among the files of the system, for programs.
ghost use Rattle.std.specs.Prelude.{◌≡◌, ℕ, List, ◌⊎◌, ◌↔◌, IfErr, IfOk, IsErrOf, Option, Some, false};
ghost use Rattle.ti_database.specs.Environment.{variable_said, variables_said};
ghost use Rattle.ti_database.specs.Places.{first_folder_of, is_terminal_name, paths_of};
ghost use Rattle.ti_database.specs.Search.{IsFound, search_fault};
ghost use Rattle.ti_database.specs.declared.folders.Variables.{Variables};
ghost use Rattle.ti_database.specs.declared.obstacles.Obstacle.{Obstacle};

use crate::faults::DatabaseFault;
use crate::file_paths::FilePath;
use crate::folders::{Variables, first_of};
use crate::names::is_terminal_name;
use crate::searching::find_in;
use crate::stores::SystemFiles;
use std::env;
use std::env::VarError;
use std::rt::{Env, Files};
use ti_caps::{Bytes, Entry};

/// Finds the compiled entry of a terminal's name, as programs find that of their `TERM`: in the
/// folders that the variables `TERMINFO`, `HOME` and `TERMINFO_DIRS` name, and then in those of the
/// system (terminfo(5), 'Fetching Compiled Descriptions'; `paths` lists the files in order). The
/// first file that can be read decides. A variable that is not UTF-8 counts as not set.
///
/// Files with 16-bit and with 32-bit numbers are read. Numbers above 32,767, such as the pairs of
/// `xterm-256color`, are 32,767 in the entry, which is nothing to worry about (`read_entry`).
///
/// A program that has more rights than its user should not call this: the variables are the user's.
///
/// Refused with `BadName` if the name is empty, is `.` or `..`, or has a `/` or a byte outside 33 to
/// 126; with `Faulty` if the first file that can be read is not a compiled entry; if none can be
/// read, with `Unreadable` and the first that is there, or else with `NotFound` and the paths; or
/// with `NoMemory`.
pub fn find<R: Files + Env + AllocGlobal>(rt: &R, name: &str) -> Result<Entry, DatabaseFault>
    ensures bad { IsErrOf result DatabaseFault.BadName ↔ (is_terminal_name name.now ≡ false) }
    ensures entry { IfOk result (λ entry. (variables : Variables) × (files : List ℕ → Option (List ℕ)) × IsFound files (paths_of variables name.now) entry) }
    ensures fault { IfErr result (λ fault. (fault ≡ DatabaseFault.BadName) ⊎ (fault ≡ DatabaseFault.NoMemory) ⊎ ((variables : Variables) × (files : List ℕ → Option (List ℕ)) × (bars : List ℕ → Option Obstacle) × (search_fault files bars (paths_of variables name.now) ≡ Some fault))) }
{
    if !is_terminal_name(name.as_bytes()) {
        return Err(DatabaseFault::BadName);
    }
    let variables = variables_of(rt)?;
    find_in(rt.alloc(), &SystemFiles { rt }, name.as_bytes(), &variables)
}

/// The folder in which [`find`] looks first: what a compiled file is written below for the user's programs to find it
/// (terminfo(5), 'Fetching Compiled Descriptions').
///
/// Refused with `NoMemory`.
pub fn first_folder<R: Env + AllocGlobal>(rt: &R) -> Result<FilePath, DatabaseFault>
    ensures folder { IfOk result (λ folder. (variables : Variables) × (folder ≡ first_folder_of variables)) }
    ensures fault { IfErr result (λ fault. fault ≡ DatabaseFault.NoMemory) }
{
    let variables = variables_of(rt)?;
    match first_of(rt.alloc(), &variables) {
        Ok(folder) => Ok(folder),
        Err(_) => Err(DatabaseFault::NoMemory),
    }
}

// The variables as the environment has them.
fn variables_of<R: Env + AllocGlobal>(rt: &R) -> Result<Variables, DatabaseFault>
    ensures { IfErr result (λ fault. fault ≡ DatabaseFault.NoMemory) }
{
    let terminfo = env::var(rt, "TERMINFO");
    let home = env::var(rt, "HOME");
    let terminfo_dirs = env::var(rt, "TERMINFO_DIRS");
    variables_said(terminfo, home, terminfo_dirs)
}

// The variables where the environment said this of each.
fn variables_said(
    terminfo: Result<String, VarError>,
    home: Result<String, VarError>,
    terminfo_dirs: Result<String, VarError>,
) -> Result<Variables, DatabaseFault>
    ensures said { result ≡ variables_said terminfo home terminfo_dirs }
    ensures fault { IfErr result (λ fault. fault ≡ DatabaseFault.NoMemory) }
{
    Ok(Variables {
        terminfo: variable_said(terminfo)?,
        home: variable_said(home)?,
        terminfo_dirs: variable_said(terminfo_dirs)?,
    })
}

// The bytes of a variable of which the environment said this; `None` if it is not set, or not UTF-8.
fn variable_said(said: Result<String, VarError>) -> Result<Option<Bytes>, DatabaseFault>
    ensures said { result ≡ variable_said said }
    ensures fault { IfErr result (λ fault. fault ≡ DatabaseFault.NoMemory) }
{
    match said {
        Ok(text) => Ok(Some(Bytes(text.into_bytes()))),
        Err(VarError::OutOfMemory) => Err(DatabaseFault::NoMemory),
        Err(_) => Ok(None),
    }
}
