//! The words of a statement's line.
ghost use Rattle.std.specs.Prelude.{◌≡◌, ◌<◌, ◌^◌, [], ◌∷◌, length, IfOk, IfSome};
ghost use Rattle.std.specs.Option.{option_copied};
ghost use Rattle.plcr_base.specs.Chains.{result_map};
ghost use Rattle.plcr_script.specs.Splits.{words};
ghost use Rattle.plcr_script.specs.Sayings as sayings;
ghost use Rattle.plcr_script.specs.Sayings.{image_in};

use crate::faults::Kind;
use crate::numerals::long_number;
use crate::splitting::first_word;

/// The one word that there is.
pub(crate) fn one_word(arguments: Option<&[u8]>) -> Result<&[u8], Kind>
    ensures { result_map (λ word. word.now) result
        ≡ sayings.one_word (words (option_copied arguments.entry)) }
{
    let Some(arguments) = arguments else {
        return Err(Kind::TooFew);
    };
    let (word, more) = first_word(arguments);
    if more.is_some() {
        return Err(Kind::TooMany);
    }
    Ok(word)
}

/// The two words that there are.
pub(crate) fn two_words(arguments: Option<&[u8]>) -> Result<(&[u8], &[u8]), Kind>
    ensures { result_map (λ both. (both.0.now, both.1.now)) result
        ≡ sayings.two_words (words (option_copied arguments.entry)) }
{
    let Some(arguments) = arguments else {
        return Err(Kind::TooFew);
    };
    let (first, others) = first_word(arguments);
    let Some(others) = others else {
        return Err(Kind::TooFew);
    };
    let (second, more) = first_word(others);
    if more.is_some() {
        return Err(Kind::TooMany);
    }
    Ok((first, second))
}

/// The header and the name of a load; no name is an empty one.
pub(crate) fn image(arguments: Option<&[u8]>) -> Result<(u64, &[u8]), Kind>
    requires { IfSome arguments (λ text. length text.now < 2 ^ 32) }
    ensures read { result_map (λ image. (image.0, image.1.now)) result
        ≡ image_in (option_copied arguments.entry) }
    ensures short { IfOk result (λ image. length image.1.now < 2 ^ 32) }
{
    let Some(arguments) = arguments else {
        return Err(Kind::TooFew);
    };
    let (header, name) = first_word(arguments);
    let Some(header) = long_number(header) else {
        return Err(Kind::BadNumber);
    };
    match name {
        None => Ok((header, &[])),
        Some(name) => Ok((header, name)),
    }
}
