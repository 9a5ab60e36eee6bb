//! Numbers as scripts write them.
ghost use Rattle.std.specs.Prelude.{◌≡◌, ◌<◌, ◌≤◌, ◌^◌, length, IfSome};
ghost use Rattle.std.specs.Option.{SomeIff};
ghost use Rattle.std.specs.Str.Parse.{AllDigits, digits_value};
ghost use Rattle.plcr_script.specs.declared.numerals.TheConstants.{DECIMAL_DIGITS};
ghost use Rattle.plcr_script.specs.Numerals.{numeral_in, number_in, below};
ghost use Rattle.plcr_script.specs.inner.Fits.{IsBase};

/// The most digits of a decimal number, as 2^64 - 1 has.
const DECIMAL_DIGITS: usize = 20;

/// The most digits of a hexadecimal number.
const HEXADECIMAL_DIGITS: usize = 16;

/// The number below 2^32 that a word writes.
pub(crate) fn small_number(word: &[u8]) -> Option<u32>
    ensures { result ≡ below (2 ^ 32) (number_in word.now) }
{
    u32::try_from(number(word)?).ok()
}

/// The number below 2^64 that a word writes.
pub(crate) fn long_number(word: &[u8]) -> Option<u64>
    ensures { result ≡ below (2 ^ 64) (number_in word.now) }
{
    u64::try_from(number(word)?).ok()
}

/// The number below a limit that a word writes.
pub(crate) fn number_below(limit: u128, word: &[u8]) -> Option<u128>
    ensures number { result ≡ below limit (number_in word.now) }
    ensures below { IfSome result (λ number. number < limit) }
{
    let number = number(word)?;
    if number < limit { Some(number) } else { None }
}

/// The number that a word writes.
fn number(word: &[u8]) -> Option<u128>
    ensures { result ≡ number_in word.now }
{
    match word.strip_prefix(b"0x") {
        Some(text) => bounded(16, HEXADECIMAL_DIGITS, text),
        None => bounded(10, DECIMAL_DIGITS, word),
    }
}

/// The number that 1 to `most` digits of a base write.
fn bounded(base: u32, most: usize, text: &[u8]) -> Option<u128>
    requires base { IsBase base }
    requires most { most ≤ DECIMAL_DIGITS }
    ensures { result ≡ numeral_in base most text.now }
{
    if text.is_empty() || text.len() > most {
        return None;
    }
    digits(base, text)
}

/// The number that digits of a base write.
fn digits(base: u32, text: &[u8]) -> Option<u128>
    requires base { IsBase base }
    requires few { length text.now ≤ DECIMAL_DIGITS }
    ensures { SomeIff result (AllDigits base text.now) (digits_value base text.now) }
{
    let mut value: u128 = 0;
    for byte in text {
        let digit = char::from(*byte).to_digit(base)?;
        value = value * u128::from(base) + u128::from(digit);
    }
    Some(value)
}
