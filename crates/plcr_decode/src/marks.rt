//! What is known of a message once its fields are passed: which of them stand there, and what the
//! messages in it lack.
ghost use Rattle.std.specs.Prelude.{◌≡◌, ◌<◌, ◌==◌, ℕ, if◌then◌else◌, true, false};
ghost use Rattle.std.specs.List.{AllByRecursion};
ghost use Rattle.plcr_report.specs.Schema.{rows};
ghost use Rattle.plcr_decode.specs.declared.found.TheConstants.{NUMBERS};
ghost use Rattle.plcr_decode.specs.Required.{required_of};
ghost use Rattle.plcr_decode.specs.inner.Entries.{row_of, rows_of};
ghost use Rattle.plcr_decode.specs.inner.Marks.{seen, Small, Unmarked, told_lack, lack_fault, needs_by, joined_by, held_by, inner_by, marks_by};

use crate::faults::DecodeFault;
use crate::found::NUMBERS;
use crate::table::{Entry, entries};
use plcr_report::{Holds, Kind};

/// A field that a message lacks.
#[derive(Clone, Copy)]
pub(crate) struct Lack {
    pub(crate) message: Kind,
    pub(crate) field: u32,
}

impl Lack {
    pub(crate) fn fault(self) -> DecodeFault
        ensures { result ≡ lack_fault self }
    {
        DecodeFault::Missing {
            message: self.message,
            field: self.field,
        }
    }
}

/// Which numbers the fields have that were passed.
#[derive(Clone, Copy)]
pub(crate) struct Seen {
    numbers: [bool; NUMBERS],
}

impl Seen {
    #[tactic(auto, using(crate::proofs::Marked::replicate_at))]
    pub(crate) fn none() -> Seen
        ensures { (n : ℕ) → n < NUMBERS → seen result n ≡ false }
    {
        Seen {
            numbers: [false; NUMBERS],
        }
    }

    /// Notes that a field of this number is passed too.
    #[inline(always)]
    #[tactic(auto, using(crate::proofs::Marked::seen_new, crate::proofs::Marked::seen_same))]
    pub(crate) fn note(&mut self, number: u32)
        ensures { (n : ℕ) → n < NUMBERS →
            seen self.new n ≡ (if number == n then true else seen self.old n) }
    {
        let place = number as usize;
        if place < NUMBERS {
            self.numbers[place] = true;
        }
    }

    /// Whether a field of this number was passed.
    #[inline(always)]
    fn has(&self, number: u32) -> bool
        requires { number < NUMBERS }
        ensures { result ≡ seen self.now number }
    {
        self.numbers[number as usize]
    }
}

/// What the fields of a message say that were passed.
#[derive(Clone, Copy)]
pub(crate) struct Marks {
    /// Their numbers.
    pub(crate) fields: Seen,
    /// Of each message that may stand in parts, by its number, those of its own fields.
    pub(crate) parts: [Seen; NUMBERS],
    /// What the first message lacks that lacks a field, of those in the fields of a number that
    /// repeats.
    pub(crate) lacks: [Option<Lack>; NUMBERS],
}

/// The first of these fields that a message lacks, of those that have to be there.
#[inline(always)]
fn lacking(kind: Kind, entries: &[Entry], fields: &Seen) -> Option<Lack>
    requires { AllByRecursion Small (rows_of entries.now) }
    ensures { told_lack result ≡ needs_by kind (required_of (rows_of entries.now)) fields.now }
{
    let mut rest = entries;
    while let Some((entry, others)) = rest.split_first() {
        if let Entry::Required(field, _) = *entry {
            if !fields.has(field) {
                return Some(Lack {
                    message: kind,
                    field,
                });
            }
        }
        rest = others;
    }
    None
}

impl Marks {
    #[tactic(auto, using(crate::proofs::Marked::replicate_at))]
    pub(crate) fn none() -> Marks
        ensures { Unmarked result }
    {
        Marks {
            fields: Seen::none(),
            parts: [Seen::none(); NUMBERS],
            lacks: [None; NUMBERS],
        }
    }

    /// What a message of this kind lacks: a field of its own, or else what the messages in it do.
    #[inline(always)]
    #[tactic(auto, using(crate::proofs::Marked::small_rows))]
    pub(crate) fn lack(&self, kind: Kind) -> Option<Lack>
        ensures { told_lack result ≡ marks_by kind self.now }
    {
        match lacking(kind, entries(kind), &self.fields) {
            None => self.lack_within(entries(kind)),
            Some(lack) => Some(lack),
        }
    }

    /// What the messages lack that stand in these fields.
    #[inline(always)]
    fn lack_within(&self, entries: &[Entry]) -> Option<Lack>
        requires { AllByRecursion Small (rows_of entries.now) }
        ensures { told_lack result ≡ inner_by self.now (rows_of entries.now) }
    {
        let mut rest = entries;
        while let Some((entry, others)) = rest.split_first() {
            if let Some(lack) = self.lack_in(*entry) {
                return Some(lack);
            }
            rest = others;
        }
        None
    }

    /// What the messages lack that stand in this field.
    #[inline(always)]
    fn lack_in(&self, entry: Entry) -> Option<Lack>
        requires { Small (row_of entry) }
        ensures { told_lack result ≡ held_by self.now (row_of entry).holds (row_of entry).label
            (row_of entry).number }
    {
        match entry {
            Entry::Required(number, Holds::Message(kind)) => self.lack_joined(number, kind),
            Entry::Optional(number, Holds::Message(kind)) => self.lack_joined(number, kind),
            Entry::Repeated(number, Holds::Message(_)) => self.lacks[number as usize],
            _ => None,
        }
    }

    /// What the one message lacks that stands in the fields of this number, where there is one.
    #[inline(always)]
    #[tactic(auto, using(crate::proofs::Marked::small_rows))]
    fn lack_joined(&self, number: u32, kind: Kind) -> Option<Lack>
        requires { number < NUMBERS }
        ensures { told_lack result ≡ joined_by self.now kind number }
    {
        if !self.fields.has(number) {
            return None;
        }
        lacking(kind, entries(kind), &self.parts[number as usize])
    }
}
