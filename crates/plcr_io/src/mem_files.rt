//! Files in memory, under their names.
ghost use Rattle.std.specs.Prelude.{◌≡◌, option_copied};
ghost use Rattle.plcr_io.specs.MemFiles.{first_named, last_named};

use crate::MemOut;
use crate::calls::Name;
use std::marker::Model;

/// A file that can be taken.
#[derive(Drop)]
pub struct MemFile {
    pub name: String,
    pub bytes: Vec<u8>,
}

impl Model for MemFile {
    ghost use Rattle.std.specs.Prelude.{ℕ, List, string_bytes};

    ghost Value = { List ℕ × List ℕ };

    ghost view = { λ f. (string_bytes f.name, f.bytes.items) };
}

/// An output that was kept, with its name.
#[derive(Drop)]
pub(crate) struct Kept {
    pub(crate) name: Name,
    pub(crate) out: MemOut,
}

impl Model for Kept {
    ghost use Rattle.std.specs.Prelude.{ℕ, List};

    ghost Value = { List ℕ × List ℕ };

    ghost view = { λ kept. (kept.name, kept.out.bytes) };
}

/// The bytes of the first file with this name.
pub(crate) fn find_file<'a>(files: &'a [MemFile], name: &str) -> Option<&'a [u8]>
    ensures { option_copied result ≡ first_named name.now files.now }
{
    for file in files {
        if file.name.as_str() == name {
            return Some(&file.bytes);
        }
    }
    None
}

/// The bytes that were kept last under this name.
pub(crate) fn find_kept<'a>(kept: &'a [Kept], name: &str) -> Option<&'a [u8]>
    ensures { option_copied result ≡ last_named name.now kept.now }
{
    let mut rest = kept;
    while let Some((last, front)) = rest.split_last() {
        if last.name.as_str() == name {
            return Some(last.out.bytes());
        }
        rest = front;
    }
    None
}
