//! The check of a file: its first fault in reading order, or else the first field that lacks.
ghost use Rattle.std.specs.Prelude.{◌≡◌, ◌≢◌, ◌≤◌, ◌<◌, ℕ, ◌∷◌, length, true, IfOk, IfErr, Ok, Err};
ghost use Rattle.plcr_wire.specs.Reading.{field_slice, value_slice_len};
ghost use Rattle.plcr_report.specs.Schema.{rule};
ghost use Rattle.plcr_report.specs.declared.kinds.Kind.TheVariants as kinds;
ghost use Rattle.plcr_decode.specs.Fields.{fields_of};
ghost use Rattle.plcr_decode.specs.Required.{whole};
ghost use Rattle.plcr_decode.specs.Scan as spec;
ghost use Rattle.plcr_decode.specs.inner.Marks as view;
ghost use Rattle.plcr_decode.specs.declared.found.TheConstants.{NUMBERS};
ghost use Rattle.plcr_decode.specs.inner.Marks.{told_lack, before, part, lack, SeesMore, MessageTakes, Takes};
ghost use Rattle.plcr_decode.specs.inner.Views.{step_view};

use crate::faults::DecodeFault;
use crate::found::{Found, keep, keep_none};
use crate::marks::{Lack, Marks, Seen};
use crate::scanning::{Step, step_of, value_bytes};
use plcr_report::{Holds, Kind};
use plcr_wire::FieldSlice;

/// Whether a message of this kind may stand in parts, in several fields. None of these holds
/// another message.
#[inline(always)]
fn is_joined(kind: Kind) -> bool
    ensures { result ≡ view.is_joined kind }
{
    match kind {
        Kind::Root => false,
        Kind::Thread => false,
        Kind::Frame => false,
        Kind::Register => false,
        Kind::Image => false,
        _ => true,
    }
}

/// Passes a part of a message that may stand in parts, and notes the numbers of its fields beside
/// those of the parts before it.
fn pass(seen: &mut Seen, kind: Kind, bytes: &[u8], end: usize) -> Result<(), DecodeFault>
    requires within { length bytes.now ≤ end }
    requires joined { view.is_joined kind ≡ true }
    ensures fault { IfErr result (λ e. spec.scan kind end bytes.now ≡ Err e) }
    ensures real { IfErr result (λ e. e ≢ DecodeFault.Memory) }
    ensures none { IfOk result (λ u. spec.scan kind end bytes.now ≡ Ok tt) }
    ensures seen { IfOk result (λ u. SeesMore seen.old seen.new (fields_of bytes.now)) }
{
    let mut rest = bytes;
    while rest.len() > 0 {
        let step = step_of(kind, rest, end)?;
        seen.note(step.field.number);
        rest = step.field.rest;
    }
    Ok(())
}

/// Passes a field, whose value ends at `end`.
#[inline(always)]
#[cycle(checking)]
fn take(marks: &mut Marks, kind: Kind, step: Step<'_>, end: usize) -> Result<(), DecodeFault>
    requires within { value_slice_len step.field.value ≤ end }
    requires known { step.holds ≡ rule kind step.field.number }
    ensures exact { result ≡ spec.scan (step_view kind step.entry).kind end
        (step_view kind step.entry).text }
    ensures real { IfErr result (λ e. e ≢ DecodeFault.Memory) }
    ensures marks { IfOk result
        (λ u. Takes kind (field_slice step.entry.field).0 marks.old marks.new) }
{
    marks.fields.note(step.field.number);
    match step.holds {
        None => Ok(()),
        Some(Holds::Number) => Ok(()),
        Some(Holds::Text) => Ok(()),
        Some(Holds::Message(inner)) => {
            take_message(
                marks,
                inner,
                step.field.number,
                value_bytes(step.field.value),
                end,
            )
        }
    }
}

/// Passes a message in a field of this number, or a part of it.
#[inline(always)]
#[cycle(checking)]
fn take_message(
    marks: &mut Marks,
    kind: Kind,
    number: u32,
    text: &[u8],
    end: usize,
) -> Result<(), DecodeFault>
    requires within { length text.now ≤ end }
    requires known { number < NUMBERS }
    ensures exact { result ≡ spec.scan kind end text.now }
    ensures real { IfErr result (λ e. e ≢ DecodeFault.Memory) }
    ensures fields { marks.new.fields ≡ marks.old.fields }
    ensures others { IfOk result (λ u. (n : ℕ) → n < NUMBERS → n ≢ number →
        (part marks.new n ≡ part marks.old n) × (lack marks.new n ≡ lack marks.old n)) }
    ensures here { IfOk result
        (λ u. MessageTakes (view.is_joined kind) kind number text.now marks.old marks.new) }
{
    let place = number as usize;
    if is_joined(kind) {
        pass(&mut marks.parts[place], kind, text, end)?;
    } else {
        let lack = check(kind, text, end)?;
        marks.lacks[place] = first_of(marks.lacks[place], lack);
    }
    Ok(())
}

/// The first of two.
#[inline(always)]
fn first_of(first: Option<Lack>, next: Option<Lack>) -> Option<Lack>
    ensures { told_lack result ≡ before (told_lack first) (told_lack next) }
{
    match first {
        None => next,
        Some(lack) => Some(lack),
    }
}

/// Passes the first field of a message, and the message in it.
#[inline(always)]
#[cycle(checking)]
fn pass_field<'a>(
    marks: &mut Marks,
    kind: Kind,
    bytes: &'a [u8],
    end: usize,
) -> Result<FieldSlice<'a>, DecodeFault>
    requires some { 0 < length bytes.now }
    requires within { length bytes.now ≤ end }
    ensures fault { IfErr result (λ e. spec.scan kind end bytes.now ≡ Err e) }
    ensures real { IfErr result (λ e. e ≢ DecodeFault.Memory) }
    ensures more { IfOk result (λ p. spec.scan kind end bytes.now ≡ spec.scan kind end p.rest.now) }
    ensures field { IfOk result (λ p. fields_of bytes.now ≡ (field_slice p).0
        ∷ fields_of p.rest.now) }
    ensures shorter { IfOk result (λ p. length p.rest.now < length bytes.now) }
    ensures marks { IfOk result (λ p. Takes kind (field_slice p).0 marks.old marks.new) }
{
    let step = step_of(kind, bytes, end)?;
    take(marks, kind, step, end - step.field.rest.len())?;
    Ok(step.field)
}

/// Checks a message that ends at `end`: what it lacks, where it has no fault in reading order.
/// Passes each of its bytes once, and takes no memory.
#[inline(never)]
#[cycle(checking)]
fn check(kind: Kind, bytes: &[u8], end: usize) -> Result<Option<Lack>, DecodeFault>
    requires { length bytes.now ≤ end }
    ensures fault { IfErr result (λ e. spec.scan kind end bytes.now ≡ Err e) }
    ensures real { IfErr result (λ e. e ≢ DecodeFault.Memory) }
    ensures none { IfOk result (λ l. spec.scan kind end bytes.now ≡ Ok tt) }
    ensures lack { IfOk result (λ l. told_lack l ≡ whole kind (fields_of bytes.now)) }
{
    let mut marks = Marks::none();
    let mut rest = bytes;
    while rest.len() > 0 {
        let field = pass_field(&mut marks, kind, rest, end)?;
        rest = field.rest;
    }
    Ok(marks.lack(kind))
}

/// Checks the root message, which ends at `end`, as every message is checked, and keeps what its
/// fields have: of each number the last value and how many there are.
pub(crate) fn check_root<'a>(bytes: &'a [u8], end: usize) -> Result<Found<'a>, DecodeFault>
    requires { length bytes.now ≤ end }
    ensures fault { IfErr result
        (λ e. before (spec.scan kinds.Root end bytes.now) (whole kinds.Root (fields_of bytes.now))
        ≡ Err e) }
    ensures real { IfErr result (λ e. e ≢ DecodeFault.Memory) }
    ensures none { IfOk result (λ f. spec.scan kinds.Root end bytes.now ≡ Ok tt) }
    ensures whole { IfOk result (λ f. whole kinds.Root (fields_of bytes.now) ≡ Ok tt) }
    ensures found { IfOk result (λ f. f ≡ fields_of bytes.now) }
{
    let mut marks = Marks::none();
    let mut kept = keep_none();
    let mut rest = bytes;
    while rest.len() > 0 {
        let field = pass_field(&mut marks, Kind::Root, rest, end)?;
        keep(&mut kept, field);
        rest = field.rest;
    }
    match marks.lack(Kind::Root) {
        None => Ok(Found::gathered(bytes, kept)),
        Some(lack) => Err(lack.fault()),
    }
}
