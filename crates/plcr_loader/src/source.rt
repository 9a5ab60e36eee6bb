ghost use Rattle.std.specs.Prelude.{◌≡◌, ℕ, List, Option, is_some};
ghost use Rattle.plcr_loader.specs.Sources.{load_command_at};

use crate::load_command::LoadCommand;

/// Bytes at places, where load commands are read from.
pub trait Source {
    ghost found: { Self → ℕ → ℕ → Option (List ℕ) };

    /// What a load command says of itself, where the bytes of its front are there.
    fn load_command(&self, at: u64) -> Option<LoadCommand>
        ensures { result ≡ load_command_at (found self.now) at };

    /// Whether so many bytes are there.
    fn has(&self, at: u64, size: u64) -> bool
        ensures { result ≡ is_some (found self.now at size) };
}
