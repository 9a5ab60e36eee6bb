//! Lines that name sizes or descriptive values.
ghost use Rattle.std.specs.Prelude.{◌≡◌, ◌<◌, ◌≤◌, ◌^◌, [], ◌∷◌, ℕ, length, IfOk, IfSome};
ghost use Rattle.std.specs.Option.{option_copied};
ghost use Rattle.plcr_script.specs.Splits.{words};
ghost use Rattle.plcr_script.specs.Sayings.{table_in, set_in, value_in, number_for, number_to};
ghost use Rattle.plcr_script.specs.inner.Fits.{IsFit};
ghost use Rattle.plcr_script.specs.inner.Keys.{IsAllowed};
ghost use Rattle.plcr_script.specs.Keys.{number_key_in, text_key_in};
ghost use Rattle.plcr_script.specs.inner.Wording.{IsWorded, said};

use crate::arguments::two_words;
use crate::faults::Kind;
use crate::keys::{NumberKey, least_of, limit_of, number_key, text_key};
use crate::numerals::number_below;
use crate::splitting::first_word;
use crate::wording::Wording;
use plcr_machine::{MOST_NODES, MOST_PASSES};

/// `table`, by what stands after this word.
#[tactic(auto, unfolding(crate::specs::Sayings::table_in))]
pub(crate) fn table<'a>(arguments: Option<&'a [u8]>) -> Result<Wording<'a>, Kind>
    ensures worded { IsWorded result (table_in (words (option_copied arguments.entry))) }
    ensures fits { IfOk result (λ wording. (count : ℕ) → IsFit count (said wording)) }
{
    let (nodes, passes) = match two_words(arguments) {
        Err(kind) => return Err(kind),
        Ok(both) => both,
    };
    match size(MOST_NODES, nodes) {
        Err(kind) => Err(kind),
        Ok(nodes) => match size(MOST_PASSES, passes) {
            Err(kind) => Err(kind),
            Ok(passes) => Ok(Wording::Sizes { nodes, passes }),
        },
    }
}

/// The size that a word writes, from 1 to the greatest.
fn size(most: u32, word: &[u8]) -> Result<u32, Kind>
    ensures size { result ≡ number_to most word.now }
    ensures within { IfOk result (λ number. (1 ≤ number) × (number ≤ most)) }
{
    match number_below(u128::from(most) + 1, word) {
        None => Err(Kind::BadNumber),
        Some(number) => {
            if number < 1 {
                Err(Kind::BadNumber)
            } else {
                Ok(number as u32)
            }
        }
    }
}

/// `set`, by what stands after this word.
#[tactic(auto, unfolding(crate::specs::Sayings::set_in))]
pub(crate) fn set<'a>(arguments: Option<&'a [u8]>) -> Result<Wording<'a>, Kind>
    requires { IfSome arguments (λ text. length text.now < 2 ^ 32) }
    ensures worded { IsWorded result (set_in (option_copied arguments.entry)) }
    ensures fits { IfOk result (λ wording. (count : ℕ) → IsFit count (said wording)) }
{
    let Some(arguments) = arguments else {
        return Err(Kind::TooFew);
    };
    let (key, value) = first_word(arguments);
    let Some(value) = value else {
        return Err(Kind::TooFew);
    };
    setting(key, value)
}

/// The number of a key that a word writes.
fn number_for(key: NumberKey, word: &[u8]) -> Result<u64, Kind>
    ensures number { result ≡ number_for key word.now }
    ensures allowed { IfOk result (IsAllowed key) }
{
    match number_below(limit_of(key), word) {
        None => Err(Kind::BadNumber),
        Some(number) => {
            if number < least_of(key) {
                Err(Kind::BadNumber)
            } else {
                Ok(number as u64)
            }
        }
    }
}

/// The value of a key.
fn setting<'a>(key: &[u8], value: &'a [u8]) -> Result<Wording<'a>, Kind>
    requires { length value.now < 2 ^ 32 }
    ensures worded { IsWorded result
        (value_in (number_key_in key.now) (text_key_in key.now) value.now) }
    ensures fits { IfOk result (λ wording. (count : ℕ) → IsFit count (said wording)) }
{
    if let Some(key) = number_key(key) {
        return match number_for(key, value) {
            Err(kind) => Err(kind),
            Ok(number) => Ok(Wording::Number { key, number }),
        };
    }
    match text_key(key) {
        None => Err(Kind::BadWord),
        Some(key) => Ok(Wording::Words { key, text: value }),
    }
}
