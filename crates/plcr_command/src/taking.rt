//! Taking the files that a command reads, one after the other.
ghost use Rattle.std.specs.Prelude.{◌≡◌, [], ◌∷◌, MatchResult};
ghost use Rattle.plcr_command.specs.Files.{named};
ghost use Rattle.plcr_command.specs.Taking.{MadeNothing, TookAll, Untaken};
ghost use Rattle.plcr_command.specs.inner.Taking.{refusal_of};

use crate::files::FileWord;
use crate::refusals::Refusal;
use plcr_base::Bytes;
use plcr_io::{Desk, TakeFault};
use std::alloc::Global;

/// Takes the file of a word.
///
/// # Errors
///
/// `CannotRead` and `TooLong` name the file; `OutOfMemory` is want of memory.
pub fn take_file<'a, D: Desk>(
    alloc: Global,
    word: FileWord<'a>,
    desk: &mut D,
) -> Result<Bytes, Refusal<'a>>
    ensures taken { MatchResult result
        (λ bytes. TookAll (named word.entry ∷ []) (bytes ∷ []) (D.told desk.old) (D.told desk.new))
        (Untaken (named word.entry ∷ []) (D.told desk.old) (D.told desk.new)) }
    ensures nothing { MadeNothing (D.told desk.old) (D.told desk.new) }
{
    match desk.take(alloc, word.name, word.limit) {
        Ok(bytes) => Ok(Bytes::new(bytes)),
        Err(fault) => Err(untaken(word, fault)),
    }
}

/// The refusal that a fault of a take means.
fn untaken(word: FileWord<'_>, fault: TakeFault) -> Refusal<'_>
    ensures { result ≡ refusal_of word.entry fault }
{
    match fault {
        TakeFault::Failed => Refusal::CannotRead { word },
        TakeFault::TooLong { .. } => Refusal::TooLong { word },
        TakeFault::Memory => Refusal::OutOfMemory,
    }
}
