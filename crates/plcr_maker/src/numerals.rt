//! How many images a word asks for.
ghost use Rattle.std.specs.Prelude.{◌≡◌, ◌≤◌, length, IfSome};
ghost use Rattle.std.specs.Option.{SomeIff};
ghost use Rattle.std.specs.Str.Parse.{AllDigits, digits_value};
ghost use Rattle.plcr_make.specs.declared.constants.TheConstants.{MOST_IMAGES};
ghost use Rattle.plcr_maker.specs.Numerals.{images_in};
ghost use Rattle.plcr_maker.specs.declared.numerals.TheConstants.{COUNT_DIGITS};

use plcr_make::MOST_IMAGES;

/// The most digits of a number of images.
const COUNT_DIGITS: usize = 4;

/// The number of images that a word asks for: 1 to 4,000, in 1 to 4 decimal digits. None for every
/// other word.
pub fn images_of(word: &str) -> Option<u32>
    ensures number { result ≡ images_in word.now }
    ensures few { IfSome result (λ n. (1 ≤ n) × (n ≤ MOST_IMAGES)) }
{
    let text = word.as_bytes();
    if text.is_empty() || text.len() > COUNT_DIGITS {
        return None;
    }
    let number = digits(text)?;
    if 1 <= number && number <= MOST_IMAGES {
        Some(number)
    } else {
        None
    }
}

/// The number that a few decimal digits write.
fn digits(text: &[u8]) -> Option<u32>
    requires { length text.now ≤ COUNT_DIGITS }
    ensures { SomeIff result (AllDigits 10 text.now) (digits_value 10 text.now) }
{
    let mut value: u32 = 0;
    for byte in text {
        let digit = char::from(*byte).to_digit(10)?;
        value = value * 10 + digit;
    }
    Some(value)
}
