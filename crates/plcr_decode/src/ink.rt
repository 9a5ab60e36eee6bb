//! Words of the text form, written to ink.
ghost use Rattle.std.specs.Prelude.{◌≡◌, ◌+◌, ◌<◌, ◌≤◌, ◌==◌, [], ◌∷◌, ◌++◌, ℕ, length, take, map, decimal, codes};
ghost use Rattle.std.specs.Fmt.{signed_decimal};
ghost use Rattle.plcr_wire.specs.Pen.{Wrote};
ghost use Rattle.plcr_decode.specs.Text as spec;
ghost use Rattle.plcr_decode.specs.declared.ink.TheConstants.{ADDRESS_DIGITS};
ghost use Rattle.plcr_decode.specs.inner.Words.{word_text};
ghost use Rattle.plcr_decode.specs.inner.Escapes.{escaped, EscapesUpTo};

use crate::written::{Written, put_each};
use itoa::Buffer;
use plcr_wire::Ink;

/// An address is written with so many digits.
const ADDRESS_DIGITS: usize = 16;

/// A word of a line.
#[derive(Clone, Copy)]
pub(crate) enum Word<'a> {
    /// These bytes as they are.
    Plain(&'a [u8]),
    /// A text whose bytes may be anything.
    Text(&'a [u8]),
    /// Plain bytes, in hexadecimal.
    Bytes(&'a [u8]),
    /// A number.
    Decimal(u64),
    /// A number that may be below zero.
    Signed(i64),
    /// An address.
    Address(u64),
}

/// A lower-case hexadecimal digit.
fn hex_digit(digit: u8) -> u8
    requires { digit < 16 }
    ensures { result ≡ spec.hex_digit digit }
{
    if digit < 10 {
        b'0' + digit
    } else {
        b'a' - 10 + digit
    }
}

/// The sixteen hexadecimal digits of a number.
fn hex_digits(number: u64) -> [u8; ADDRESS_DIGITS]
    ensures { result ≡ spec.hex ADDRESS_DIGITS number }
{
    let mut digits = [0; ADDRESS_DIGITS];
    let mut rest = number;
    for i in 0..ADDRESS_DIGITS {
        digits[ADDRESS_DIGITS - 1 - i] = hex_digit((rest % 16) as u8);
        rest /= 16;
    }
    digits
}

/// The two hexadecimal digits of a byte.
fn hex_pair(byte: u8) -> [u8; 2]
    ensures { result ≡ spec.hex 2 byte }
{
    [hex_digit(byte / 16), hex_digit(byte % 16)]
}

/// Writes an address.
#[tactic(auto, using(plcr_wire::proofs::Writing::wrote_twice), unfolding(crate::specs::Text::address))]
fn put_address<W: Ink>(ink: &mut W, number: u64)
    ensures { Wrote (W.pen ink.old) (W.pen ink.new) (spec.address number) }
{
    ink.raw(b"0x");
    ink.raw(&hex_digits(number));
}

/// Whether a byte of a text stands there as it is.
fn is_plain(byte: u8) -> bool
    ensures { result ≡ spec.is_plain byte }
{
    byte > 32 && byte < 127 && byte != b'\\'
}

/// Writes a byte of a text.
#[tactic(auto, using(plcr_wire::proofs::Writing::wrote_twice), unfolding(crate::specs::Text::byte_text))]
fn put_byte<W: Ink>(ink: &mut W, byte: u8)
    ensures { Wrote (W.pen ink.old) (W.pen ink.new) (spec.byte_text byte) }
{
    if is_plain(byte) {
        ink.raw(&[byte]);
    } else {
        let [high, low] = hex_pair(byte);
        ink.raw(&[b'\\', b'x', high, low]);
    }
}

/// How many bytes of a text stand there as they are, before the first that doesn't.
fn plain_len(text: &[u8]) -> usize
    ensures within { result ≤ length text.now }
    ensures plain { escaped (take result text.now) ≡ take result text.now }
{
    for i in 0..text.len() {
        if !is_plain(text[i]) {
            return i;
        }
    }
    text.len()
}

/// Writes the bytes of a text that stand there as they are, and the next one. Gives those after it.
fn put_run<'a, W: Ink>(ink: &mut W, text: &'a [u8]) -> &'a [u8]
    requires { 0 < length text.now }
    ensures front { EscapesUpTo (W.pen ink.old) (W.pen ink.new) text.now result.now }
    ensures shorter { length result.now < length text.now }
{
    let (plain, after) = text.split_at(plain_len(text));
    ink.raw(plain);
    let Some((byte, rest)) = after.split_first() else {
        return after;
    };
    put_byte(ink, *byte);
    rest
}

/// Writes a text, its bytes run by run.
#[tactic(auto, unfolding(crate::specs::Text::shown))]
fn put_shown<W: Ink>(ink: &mut W, text: &[u8])
    ensures { Wrote (W.pen ink.old) (W.pen ink.new) (spec.shown text.now) }
{
    if text.is_empty() {
        ink.raw(b"\\-");
    } else {
        put_shown_bytes(ink, text);
    }
}

#[tactic(auto, using(crate::proofs::Escaping::escapes_none, crate::proofs::Escaping::escapes_more, crate::proofs::Escaping::escapes_all))]
fn put_shown_bytes<W: Ink>(ink: &mut W, text: &[u8])
    ensures { Wrote (W.pen ink.old) (W.pen ink.new) (escaped text.now) }
{
    let mut rest = text;
    while !rest.is_empty() {
        rest = put_run(ink, rest);
    }
}

/// Writes bytes in hexadecimal.
#[tactic(auto, unfolding(crate::specs::Text::bytes_text))]
fn put_bytes<W: Ink>(ink: &mut W, bytes: &[u8])
    ensures { Wrote (W.pen ink.old) (W.pen ink.new) (spec.bytes_text bytes.now) }
{
    if bytes.is_empty() {
        ink.raw(b"\\-");
    } else {
        put_hex_bytes(ink, bytes);
    }
}

fn put_hex_bytes<W: Ink>(ink: &mut W, bytes: &[u8])
    ensures { Wrote (W.pen ink.old) (W.pen ink.new)
        (spec.all_from (λ n b. spec.hex 2 b) 0 bytes.now) }
{
    for i in 0..bytes.len() {
        ink.raw(&hex_pair(bytes[i]));
    }
}

/// Writes a word.
fn put_word<W: Ink>(ink: &mut W, word: Word<'_>)
    ensures { Wrote (W.pen ink.old) (W.pen ink.new) (word_text word.entry) }
{
    match word {
        Word::Plain(text) => ink.raw(text),
        Word::Text(text) => put_shown(ink, text),
        Word::Bytes(bytes) => put_bytes(ink, bytes),
        Word::Decimal(number) => ink.raw(Buffer::new().format(number).as_bytes()),
        Word::Signed(number) => ink.raw(Buffer::new().format(number).as_bytes()),
        Word::Address(number) => put_address(ink, number),
    }
}

impl<'a> Written for Word<'a> {
    ghost use Rattle.plcr_decode.specs.inner.Words.{word_text};

    ghost text = { λ _ word. codes " " ++ word_text word };

    #[tactic(auto, using(plcr_wire::proofs::Writing::wrote_twice))]
    fn put<W: Ink>(&self, ink: &mut W, _place: u64) {
        ink.raw(b" ");
        put_word(ink, *self);
    }
}

/// Writes what follows the first word of a line: the others, a space before each, and a newline.
#[tactic(auto, using(plcr_wire::proofs::Writing::wrote_twice))]
fn put_words<W: Ink>(ink: &mut W, words: &[Word<'_>])
    ensures { Wrote (W.pen ink.old) (W.pen ink.new)
        (spec.all_from (λ n word. codes " " ++ word) 0 (map word_text words.now) ++ codes "\n") }
{
    put_each(ink, words);
    ink.raw(b"\n");
}

/// Writes a line: its words with one space between them, and a newline.
#[inline(always)]
#[tactic(auto, using(plcr_wire::proofs::Writing::wrote_twice))]
pub(crate) fn put_line<W: Ink>(ink: &mut W, first: &[u8], words: &[Word<'_>])
    ensures { Wrote (W.pen ink.old) (W.pen ink.new)
        (spec.line first.now (map word_text words.now)) }
{
    ink.raw(first);
    put_words(ink, words);
}
