//! The files that were handed in.
ghost use Rattle.std.specs.Prelude.{◌≡◌};
ghost use Rattle.std.specs.FinMap as map;

use dw_value::Text;
use std::alloc::Global;
use std::marker::Model;

/// A file under its name.
#[derive(Debug, Drop)]
struct File {
    name: Text,
    bytes: Vec<u8>,
}

/// The files that were handed in, each under its name. Contracts see them as a finite map from names to bytes. A name
/// that isn't there is absent.
#[derive(Debug, Drop)]
pub struct FileMap {
    files: Vec<File>,
}

impl Model for FileMap {
    ghost use Rattle.std.specs.Prelude.{IsTrue};
    ghost use Rattle.std.specs.Coded.{coded_list, coded_ℕ};
    ghost use Rattle.std.specs.FinMap as map;
    ghost use Rattle.dw_model.specs.Files.{Files, named_bytes};

    ghost Value = { Files };

    ghost coded = { map.code (coded_list coded_ℕ) (coded_list coded_ℕ) };

    ghost view = { λ files. map.from_sorted (named_bytes files.files.items) };
}

impl FileMap {
    /// No files, which take their memory from `alloc` once there are some.
    pub fn new(alloc: Global) -> FileMap
        ensures { result ≡ map.empty }
    {
        FileMap {
            files: Vec::new(alloc),
        }
    }
}
