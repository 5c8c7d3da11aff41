//! Files in memory, for programs that bring entries of their own and for tests.
ghost use Rattle.std.specs.Prelude.{◌≡◌, option_map, None, Some};
ghost use Rattle.ti_database.specs.Search.{file_at};

use crate::file_paths::FilePath;
use crate::obstacles::Obstacle;
use crate::stores::{Store, beginning};
use std::alloc::{AllocError, Global};
use std::marker::Model;
use ti_caps::Bytes;

/// Files in memory, each with its path. Of two with one path, the first counts.
#[derive(Debug, Drop)]
pub struct MemoryFiles(pub Vec<(FilePath, Bytes)>);

impl Model for MemoryFiles {
    ghost use Rattle.std.specs.Prelude.{List, ℕ};

    ghost Value = { List (List ℕ × List ℕ) };

    ghost view = { λ files. files.0.items };
}

impl Store for MemoryFiles {
    ghost has = { λ files. Some (λ path. file_at path files) };

    ghost bars = { λ _. Some (λ path. None) };

    fn read(&self, alloc: Global, path: &[u8]) -> Result<Option<Bytes>, AllocError> {
        match found(self.0.as_slice(), path) {
            Some(file) => Ok(Some(Bytes(Vec::from_slice(alloc, beginning(file))?))),
            None => Ok(None),
        }
    }

    fn obstacle(&self, _path: &[u8]) -> Option<Obstacle> {
        None
    }
}

// The first file of this path.
fn found<'a>(files: &'a [(FilePath, Bytes)], path: &[u8]) -> Option<&'a [u8]>
    ensures { option_map (λ file. file.now) result ≡ file_at path.now files.now }
{
    for (known, file) in files {
        if known.0.as_slice() == path {
            return Some(file);
        }
    }
    None
}
