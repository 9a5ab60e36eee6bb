//! What single lines say.
ghost use Rattle.std.specs.Prelude.{◌≡◌, ◌<◌, ◌^◌, length, IfOk, IfSome};
ghost use Rattle.std.specs.Option.{option_copied};
ghost use Rattle.plcr_script.specs.Sayings as sayings;
ghost use Rattle.plcr_script.specs.Sayings.{saying_of, saying_in};
ghost use Rattle.plcr_script.specs.inner.Fits.{IsFit};
ghost use Rattle.plcr_script.specs.inner.Wording.{IsWorded, said};

use crate::faults::Kind;
use crate::keys::{NumberKey, TextKey};
use crate::settings::{set, table};
use crate::splitting::first_word;
use crate::stating::{Stating, statement};

/// What a line says, as it is written.
#[derive(Clone, Copy)]
pub(crate) enum Wording<'a> {
    Sizes { nodes: u32, passes: u32 },
    Number { key: NumberKey, number: u64 },
    Words { key: TextKey, text: &'a [u8] },
    States(Stating<'a>),
}

/// What a line says, where statements may name this many passes, by all tests but those of its
/// place.
pub(crate) fn wording_of(passes: u32, line: &[u8]) -> Result<Wording<'_>, Kind>
    requires { length line.now < 2 ^ 32 }
    ensures worded { IsWorded result (saying_in passes line.now) }
    ensures fits { IfOk result (λ wording. IsFit passes (said wording)) }
{
    let (word, arguments) = first_word(line);
    worded(passes, word, arguments)
}

/// What a line says, by its first word and what stands behind it.
#[tactic(auto, unfolding(crate::specs::Sayings::saying_of))]
fn worded<'a>(passes: u32, word: &[u8], arguments: Option<&'a [u8]>) -> Result<Wording<'a>, Kind>
    requires { IfSome arguments (λ text. length text.now < 2 ^ 32) }
    ensures worded { IsWorded result (saying_of passes word.now (option_copied arguments.entry)) }
    ensures fits { IfOk result (λ wording. IsFit passes (said wording)) }
{
    if word == b"table".as_slice() {
        return table(arguments);
    }
    if word == b"set".as_slice() {
        return set(arguments);
    }
    match statement(passes, word, arguments) {
        Err(kind) => Err(kind),
        Ok(stating) => Ok(Wording::States(stating)),
    }
}

/// Whether a line is empty or a comment.
pub(crate) fn says_nothing(line: &[u8]) -> bool
    ensures { result ≡ sayings.says_nothing line.now }
{
    match line.first() {
        None => true,
        Some(byte) => *byte == b'#',
    }
}
