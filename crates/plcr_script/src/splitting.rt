//! Lines of a script and words of a line.
ghost use Rattle.std.specs.Prelude.{◌≡◌, ◌<◌, ◌≤◌, ◌==◌, ◌∷◌, length, position, IfSome};
ghost use Rattle.std.specs.Option.{option_copied};
ghost use Rattle.plcr_script.specs.Splits as splits;
ghost use Rattle.plcr_script.specs.Splits.{parts, parts_after, lines, cut_in};

use memchr::memchr;

/// What stands before the first separator, and what stands after it, where there is one.
pub(crate) fn cut(separator: u8, bytes: &[u8]) -> (&[u8], Option<&[u8]>)
    ensures front { result.0.now ≡ (cut_in separator bytes.now).front }
    ensures rest { option_copied result.1 ≡ (cut_in separator bytes.now).rest }
    ensures parts { parts separator bytes.now ≡ result.0.now
        ∷ parts_after separator (option_copied result.1) }
    ensures within { length result.0.now ≤ length bytes.now }
    ensures shorter { IfSome result.1 (λ rest. length rest.now < length bytes.now) }
{
    match first_place(separator, bytes) {
        None => (bytes, None),
        Some(i) => (bytes.split_at(i).0, Some(bytes.split_at(i + 1).1)),
    }
}

/// The place of the first separator, where there is one.
fn first_place(separator: u8, bytes: &[u8]) -> Option<usize>
    ensures { result ≡ position (λ b. b == separator) bytes.now }
{
    memchr(separator, bytes)
}

/// The first word of a text, and what stands after the space behind it, where there is one.
#[tactic(auto, unfolding(crate::specs::Splits::first_word))]
pub(crate) fn first_word(text: &[u8]) -> (&[u8], Option<&[u8]>)
    ensures front { result.0.now ≡ (splits.first_word text.now).front }
    ensures rest { option_copied result.1 ≡ (splits.first_word text.now).rest }
    ensures parts { parts 32 text.now ≡ result.0.now ∷ parts_after 32 (option_copied result.1) }
    ensures shorter { IfSome result.1 (λ rest. length rest.now < length text.now) }
{
    cut(b' ', text)
}

/// The first line of a script that isn't empty, and the bytes after its newline.
pub(crate) fn first_line(bytes: &[u8]) -> (&[u8], &[u8])
    requires { 0 < length bytes.now }
    ensures lines { lines bytes.now ≡ result.0.now ∷ lines result.1.now }
    ensures within { length result.0.now ≤ length bytes.now }
    ensures shorter { length result.1.now < length bytes.now }
{
    let (line, after) = cut(b'\n', bytes);
    match after {
        Some(rest) => (line, rest),
        None => (line, &[]),
    }
}
