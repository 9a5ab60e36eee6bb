//! The statements of a script.
ghost use Rattle.std.specs.Prelude.{◌≡◌, IfOk, option_copied};
ghost use Rattle.plcr_script.specs.Reading.{file_of};

use plcr_base::Bytes;
use std::alloc::{AllocError, Global};

/// A text of a script.
pub type Text = Bytes;

/// The text with these bytes, which takes the room for them.
pub(crate) fn text_of(alloc: Global, bytes: &[u8]) -> Result<Text, AllocError>
    ensures { IfOk result (λ text. text ≡ bytes.now) }
{
    Ok(Bytes::new(Vec::from_slice(alloc, bytes)?))
}

/// One statement of a script.
#[derive(Drop)]
pub enum Statement {
    /// An image is loaded: all steps of it.
    Load { header: u64, name: Text },
    /// The first image with the header is unloaded: all steps of it.
    Unload { header: u64 },
    /// A load is begun, of which no step is made yet.
    BeginLoad { header: u64, name: Text },
    /// An unload is begun, of which no step is made yet.
    BeginUnload { header: u64 },
    /// At most so many steps of the open change.
    Step { most: u32 },
    /// The rest of the open change's steps.
    End,
    /// The pass enters.
    Enter { pass: u32 },
    /// At most so many images more of the pass's walk.
    Walk { pass: u32, most: u32 },
    /// The pass leaves.
    Leave { pass: u32 },
    /// The pass enters if it is out, walks to the end, captures into the file, and leaves.
    Report { pass: u32, file: Text },
}

impl Statement {
    /// The file that it writes, if it writes one.
    pub(crate) fn file(&self) -> Option<&[u8]>
        ensures { option_copied result ≡ file_of self.now }
    {
        match self {
            Statement::Report { pass: _, file } => Some(file.as_slice()),
            _ => None,
        }
    }
}

/// A statement and the number of its line, from 1.
#[derive(Drop)]
pub struct NumberedStatement {
    pub line: u32,
    pub statement: Statement,
}
