//! The folders in which compiled entries are looked for, in order.
ghost use Rattle.std.specs.Prelude.{◌≡◌, ◌++◌, ◌∷◌, [], IfOk, OnOk};
ghost use Rattle.std.specs.List.{flat_map, slice_split};
ghost use Rattle.ti_database.specs.Places.{element_folders, first_folder_of, folders_of, given, home_folder, is_colon, listed, system_folders, text_of};

use crate::file_paths::{FilePath, FilePaths};
use std::alloc::{AllocError, Global};
use ti_caps::Bytes;

/// The variables of the environment that say where compiled entries are; `None` if one is not set.
/// An empty one counts as not set (terminfo(5), 'Fetching Compiled Descriptions').
#[derive(Debug, Drop)]
pub struct Variables {
    /// `TERMINFO`: a folder to look in first.
    pub terminfo: Option<Bytes>,
    /// `HOME`: its folder `.terminfo` comes next.
    pub home: Option<Bytes>,
    /// `TERMINFO_DIRS`: more folders, between colons. An empty one stands for the system's.
    pub terminfo_dirs: Option<Bytes>,
}

/// The folders to look in, in order.
pub(crate) fn folders(alloc: Global, variables: &Variables) -> Result<FilePaths, AllocError>
    ensures { IfOk result (λ folders. folders ≡ folders_of variables.now) }
{
    let mut folders = FilePaths(Vec::new(alloc));
    match put_all(alloc, variables, &mut folders) {
        Ok(()) => Ok(folders),
        Err(error) => Err(error),
    }
}

/// The first of the folders.
pub(crate) fn first_of(alloc: Global, variables: &Variables) -> Result<FilePath, AllocError>
    ensures { IfOk result (λ folder. folder ≡ first_folder_of variables.now) }
{
    let mut folders = folders(alloc, variables)?;
    Ok(folders.0.swap_remove(0))
}

fn put_all(alloc: Global, variables: &Variables, folders: &mut FilePaths) -> Result<(), AllocError>
    ensures { OnOk result (folders.new ≡ folders.old ++ folders_of variables.now) }
{
    put_given(alloc, text_of(&variables.terminfo), folders)?;
    put_home(alloc, text_of(&variables.home), folders)?;
    put_listed(alloc, text_of(&variables.terminfo_dirs), folders)?;
    put_system(alloc, folders)
}

// What a variable says; nothing if it is not set.
fn text_of(variable: &Option<Bytes>) -> &[u8]
    ensures { result.now ≡ text_of variable.now }
{
    match variable {
        Some(text) => text,
        None => &[],
    }
}

// Appends a folder.
fn put(alloc: Global, folder: &[u8], folders: &mut FilePaths) -> Result<(), AllocError>
    ensures { OnOk result (folders.new ≡ folders.old ++ folder.now ∷ []) }
{
    let copy = FilePath(Vec::from_slice(alloc, folder)?);
    folders.0.push(copy)?;
    Ok(())
}

// Appends a folder, if there is one.
fn put_given(alloc: Global, folder: &[u8], folders: &mut FilePaths) -> Result<(), AllocError>
    ensures { OnOk result (folders.new ≡ folders.old ++ given folder.now) }
{
    if !folder.is_empty() {
        put(alloc, folder, folders)?;
    }
    Ok(())
}

// Appends the folder in a home, if there is a home.
fn put_home(alloc: Global, home: &[u8], folders: &mut FilePaths) -> Result<(), AllocError>
    ensures { OnOk result (folders.new ≡ folders.old ++ home_folder home.now) }
{
    if !home.is_empty() {
        let mut folder = Vec::from_slice(alloc, home)?;
        folder.extend_from_slice(b"/.terminfo")?;
        folders.0.push(FilePath(folder))?;
    }
    Ok(())
}

// Appends the folders of a list, if there is one.
fn put_listed(alloc: Global, list: &[u8], folders: &mut FilePaths) -> Result<(), AllocError>
    ensures { OnOk result (folders.new ≡ folders.old ++ listed list.now) }
{
    if list.is_empty() {
        Ok(())
    } else {
        put_elements(alloc, list, folders)
    }
}

fn put_elements(alloc: Global, list: &[u8], folders: &mut FilePaths) -> Result<(), AllocError>
    ensures { OnOk result (folders.new ≡ folders.old ++ flat_map element_folders (slice_split is_colon list.now)) }
{
    for element in list.split(|byte| *byte == b':') {
        put_element(alloc, element, folders)?;
    }
    Ok(())
}

// Appends what an element of a list stands for.
fn put_element(alloc: Global, element: &[u8], folders: &mut FilePaths) -> Result<(), AllocError>
    ensures { OnOk result (folders.new ≡ folders.old ++ element_folders element.now) }
{
    if element.is_empty() {
        put_system(alloc, folders)
    } else {
        put(alloc, element, folders)
    }
}

// Appends the folders of the system.
fn put_system(alloc: Global, folders: &mut FilePaths) -> Result<(), AllocError>
    ensures { OnOk result (folders.new ≡ folders.old ++ system_folders) }
{
    put(alloc, b"/etc/terminfo", folders)?;
    put(alloc, b"/lib/terminfo", folders)?;
    put(alloc, b"/usr/share/terminfo", folders)?;
    Ok(())
}
