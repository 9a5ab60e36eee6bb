ghost use Rattle.std.specs.Prelude.{◌≡◌, length, option_map, IfSome};
ghost use Rattle.plcr_loader.specs.Sources.{file_bytes};

use crate::load_command::{LENGTH, LoadCommand};
use crate::source::Source;

/// The bytes of a file, at places from 0.
#[derive(Clone, Copy)]
pub struct FileBytes<'a>(pub &'a [u8]);

impl FileBytes<'_> {
    // The bytes from a place on, where they stand in the file.
    #[tactic(auto, using(crate::proofs::Files::file_piece, crate::proofs::Files::file_past))]
    fn piece(&self, at: u64, size: u64) -> Option<&[u8]>
        ensures bytes { option_map (λ piece. piece.now) result ≡ file_bytes self.now.0.now at size }
        ensures length { IfSome result (λ piece. length piece.now ≡ size) }
    {
        let bytes = self.0;
        let end = bytes.len() as u64;
        if at > end || end - at < size {
            return None;
        }
        let (_, rest) = bytes.split_at(at as usize);
        let (piece, _) = rest.split_at(size as usize);
        Some(piece)
    }
}

impl Source for FileBytes<'_> {
    ghost found = { λ f. file_bytes f.0.now };

    fn load_command(&self, at: u64) -> Option<LoadCommand> {
        let front = self.piece(at, LENGTH as u64)?;
        Some(LoadCommand::read(front))
    }

    fn has(&self, at: u64, size: u64) -> bool {
        self.piece(at, size).is_some()
    }
}
