//! Who is announced and inside, the stamps, and the counts.

ghost use Rattle.std.specs.Prelude.{◌≡◌, ◌+◌, List, ◌∷◌, reverse, if◌then◌else◌};
ghost use Rattle.plcr_machine.specs.declared.entry.Entry.{Entry};
ghost use Rattle.plcr_machine.specs.Passes.{is_inside, is_announced, seen_by, stamp_of, counts};

use crate::entry::Entry;

/// Whether a pass is inside after a history.
pub fn is_inside(history: &[Entry], pass: u32) -> bool
    ensures { result ≡ is_inside pass (reverse history.now) }
{
    let mut inside = false;
    for entry in history {
        inside = inside_after(inside, *entry, pass);
    }
    inside
}

fn inside_after(inside: bool, entry: Entry, pass: u32) -> bool
    ensures { (past : List Entry) → is_inside pass past ≡ inside →
        result ≡ is_inside pass (entry ∷ past) }
{
    match entry {
        Entry::Enter(p) => p == pass || inside,
        Entry::Leave(p) => p != pass && inside,
        Entry::Announce { .. }
        | Entry::Retire(_)
        | Entry::Load { .. }
        | Entry::Unload { .. }
        | Entry::Count
        | Entry::Look { .. } => inside,
    }
}

/// Whether a pass is announced after a history.
pub fn is_announced(history: &[Entry], pass: u32) -> bool
    ensures { result ≡ is_announced pass (reverse history.now) }
{
    let mut announced = false;
    for entry in history {
        announced = announced_after(announced, *entry, pass);
    }
    announced
}

fn announced_after(announced: bool, entry: Entry, pass: u32) -> bool
    ensures { (past : List Entry) → is_announced pass past ≡ announced →
        result ≡ is_announced pass (entry ∷ past) }
{
    match entry {
        Entry::Announce { pass: p, .. } => p == pass || announced,
        Entry::Retire(p) => p != pass && announced,
        Entry::Enter(_)
        | Entry::Leave(_)
        | Entry::Load { .. }
        | Entry::Unload { .. }
        | Entry::Count
        | Entry::Look { .. } => announced,
    }
}

/// The number of counts that a pass announced last in a history, 0 where it never announced itself.
pub fn seen_by(history: &[Entry], pass: u32) -> u32
    ensures { result ≡ seen_by pass (reverse history.now) }
{
    let mut last = 0;
    for entry in history {
        last = seen_after(last, *entry, pass);
    }
    last
}

fn seen_after(last: u32, entry: Entry, pass: u32) -> u32
    ensures { (past : List Entry) → seen_by pass past ≡ last →
        result ≡ seen_by pass (entry ∷ past) }
{
    match entry {
        Entry::Announce { pass: p, seen } if p == pass => seen,
        Entry::Announce { .. }
        | Entry::Enter(_)
        | Entry::Leave(_)
        | Entry::Retire(_)
        | Entry::Load { .. }
        | Entry::Unload { .. }
        | Entry::Count
        | Entry::Look { .. } => last,
    }
}

/// The stamp of a pass after a history.
pub fn stamp_of(history: &[Entry], pass: u32) -> u64
    ensures { result ≡ stamp_of pass (reverse history.now) }
{
    if is_announced(history, pass) {
        seen_by(history, pass) as u64 + 1
    } else {
        0
    }
}

/// How many counts a history has.
pub fn counts(history: &[Entry]) -> usize
    ensures { result ≡ counts (reverse history.now) }
{
    let mut counted = 0;
    for entry in history {
        if is_count(*entry) {
            counted += 1;
        }
    }
    counted
}

pub(super) fn is_count(entry: Entry) -> bool
    ensures { (past : List Entry) →
        counts (entry ∷ past) ≡ (if result then 1 else 0) + counts past }
{
    match entry {
        Entry::Count => true,
        Entry::Announce { .. }
        | Entry::Enter(_)
        | Entry::Leave(_)
        | Entry::Retire(_)
        | Entry::Load { .. }
        | Entry::Unload { .. }
        | Entry::Look { .. } => false,
    }
}
