//! The last values of a message's fields and how many there are, gathered in one pass.
ghost use Rattle.std.specs.Prelude.{◌≡◌, ◌<◌, ◌==◌, ◌-◌, ◌^◌, ℕ, length, if◌then◌else◌};
ghost use Rattle.plcr_decode.specs.Fields.{fields_of, messages_in, joined, has, last_value, number_in, text_in, or_zero, or_empty};
ghost use Rattle.plcr_decode.specs.declared.found.TheConstants.{NUMBERS};
ghost use Rattle.plcr_decode.specs.inner.Views.{left, told};
ghost use Rattle.plcr_decode.specs.inner.Lasts.{nothing, under, again, shown, told_value, Keeps};

use crate::fields::Fields;
use crate::scanning::value_bytes;
use plcr_wire::{FieldSlice, ValueSlice};
use std::marker::Model;

/// Every known field has a number below this one.
pub(crate) const NUMBERS: usize = 10;

/// What is kept of the fields of one number: the last value, and how many there are.
#[derive(Clone, Copy)]
pub(crate) struct Kept<'a> {
    value: ValueSlice<'a>,
    count: usize,
}

impl<'a> Kept<'a> {
    /// Nothing yet.
    fn none() -> Kept<'a>
        ensures { result ≡ nothing }
    {
        Kept {
            value: ValueSlice::Number(0),
            count: 0,
        }
    }

    /// The same, once this value stands there too.
    #[inline(always)]
    fn followed_by(self, value: ValueSlice<'a>) -> Kept<'a>
        requires { self.count < 2 ^ 64 - 1 }
        ensures { result ≡ again self.entry value.entry }
    {
        Kept {
            value,
            count: self.count + 1,
        }
    }

    /// The last value, where there is one.
    #[inline(always)]
    fn last(self) -> Option<ValueSlice<'a>>
        ensures { told_value result ≡ shown self.entry }
    {
        if self.count == 0 {
            None
        } else {
            Some(self.value)
        }
    }
}

/// Nothing yet, under each number.
#[inline(always)]
#[tactic(auto, using(crate::proofs::Kept::nothing_at))]
pub(crate) fn keep_none<'a>() -> [Kept<'a>; NUMBERS]
    ensures { (n : ℕ) → n < NUMBERS → under result n ≡ nothing }
{
    [Kept::none(); NUMBERS]
}

/// Keeps the value of a field under its number.
#[inline(always)]
#[tactic(auto, using(crate::proofs::Kept::kept_new, crate::proofs::Kept::kept_same))]
pub(crate) fn keep<'a>(kept: &mut [Kept<'a>; NUMBERS], field: FieldSlice<'a>)
    requires { (n : ℕ) → n < NUMBERS → (under kept.old n).count < 2 ^ 64 - 1 }
    ensures { (n : ℕ) → n < NUMBERS →
        under kept.new n ≡ (if field.entry.number == n
        then again (under kept.old n) field.entry.value else under kept.old n) }
{
    let number = field.number as usize;
    if number < NUMBERS {
        kept[number] = kept[number].followed_by(field.value);
    }
}

/// The fields of a message: of each number the last value, and how many there are.
#[derive(Drop)]
pub(crate) struct Found<'a> {
    fields: Fields<'a>,
    kept: [Kept<'a>; NUMBERS],
}

impl<'a> Model for Found<'a> {
    ghost use Rattle.std.specs.Prelude.{List};
    ghost use Rattle.plcr_wire.specs.Message.{Field};
    ghost use Rattle.plcr_decode.specs.inner.Views.{left};
    ghost use Rattle.plcr_decode.specs.inner.Lasts.{Keeps};

    ghost Value = { List Field };

    ghost view = { λ f. left f.fields };

    ghost invariant = { λ f. Keeps f.kept (left f.fields) };
}

impl<'a> Found<'a> {
    /// Gathers these fields.
    #[inline(always)]
    #[tactic(auto, using(crate::proofs::Kept::keeps_start, crate::proofs::Kept::keeps_more, crate::proofs::Kept::few_more, crate::proofs::Kept::keeps_all))]
    pub(crate) fn of(fields: Fields<'a>) -> Found<'a>
        ensures { result ≡ left fields.entry }
    {
        let mut kept = keep_none();
        let mut left = fields;
        while let Some(field) = left.next() {
            keep(&mut kept, field);
        }
        Found { fields, kept }
    }

    /// The fields of these bytes, which were gathered so.
    pub(crate) fn gathered(bytes: &'a [u8], kept: [Kept<'a>; NUMBERS]) -> Found<'a>
        requires { Keeps kept (fields_of bytes.now) }
        ensures { result ≡ fields_of bytes.now }
    {
        Found {
            fields: Fields::of(bytes),
            kept,
        }
    }

    /// How many messages stand in the fields of this number.
    #[tactic(auto, using(crate::proofs::Kept::count_all))]
    pub(crate) fn count(&self, number: u32) -> usize
        requires { number < NUMBERS }
        ensures { result ≡ length (messages_in number self.now) }
    {
        self.kept[number as usize].count
    }

    /// The value of the last field of this number.
    fn last(&self, number: u32) -> Option<ValueSlice<'a>>
        requires { number < NUMBERS }
        ensures { told_value result ≡ last_value number self.now }
    {
        self.kept[number as usize].last()
    }

    /// Whether a field of this number stands there.
    #[inline(always)]
    pub(crate) fn has(&self, number: u32) -> bool
        requires { number < NUMBERS }
        ensures { result ≡ has number self.now }
    {
        match self.last(number) {
            None => false,
            Some(_) => true,
        }
    }

    /// The fields of the one message whose parts stand in the fields of this number, where these
    /// are the fields of this message.
    #[inline(always)]
    #[tactic(auto, using(crate::proofs::Kept::joined_once))]
    pub(crate) fn message(&self, bytes: &'a [u8], number: u32) -> Fields<'a>
        requires within { number < NUMBERS }
        requires whole { self.now ≡ fields_of bytes.now }
        ensures { left result ≡ joined number self.now }
    {
        let kept = self.kept[number as usize];
        if kept.count == 1 {
            Fields::of(value_bytes(kept.value))
        } else {
            Fields::joined(bytes, number)
        }
    }

    /// The number that stands in the last field of this number.
    pub(crate) fn number(&self, number: u32) -> Option<u64>
        requires { number < NUMBERS }
        ensures { result ≡ number_in number self.now }
    {
        match self.last(number) {
            None => None,
            Some(ValueSlice::Number(value)) => Some(value),
            Some(_) => Some(0),
        }
    }

    /// The number that stands in the last field of this number, 0 where there is none.
    pub(crate) fn number_or_zero(&self, number: u32) -> u64
        requires { number < NUMBERS }
        ensures { result ≡ or_zero (number_in number self.now) }
    {
        match self.number(number) {
            None => 0,
            Some(value) => value,
        }
    }

    /// The text or bytes that stand in the last field of this number.
    pub(crate) fn text(&self, number: u32) -> Option<&'a [u8]>
        requires { number < NUMBERS }
        ensures { told result ≡ text_in number self.now }
    {
        match self.last(number) {
            None => None,
            Some(value) => Some(value_bytes(value)),
        }
    }

    /// The same, empty where there is none.
    pub(crate) fn text_or_empty(&self, number: u32) -> &'a [u8]
        requires { number < NUMBERS }
        ensures { result.now ≡ or_empty (text_in number self.now) }
    {
        match self.text(number) {
            None => &[],
            Some(text) => text,
        }
    }
}
