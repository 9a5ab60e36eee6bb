//! Which nodes are new, removed, let go, free and in the list.

ghost use Rattle.std.specs.Prelude.{◌≡◌, List, ◌∷◌, reverse};
ghost use Rattle.plcr_machine.specs.declared.entry.Entry.{Entry};
ghost use Rattle.plcr_machine.specs.Lists.{has, live};
ghost use Rattle.plcr_machine.specs.Passes.{counts};
ghost use Rattle.plcr_machine.specs.Nodes.{is_new, is_removed, counts_before, lets_go, is_let_go, is_cleared, is_free};

use crate::entry::Entry;
use crate::plain::passes::is_count;

/// Whether a node was never loaded in a history.
pub fn is_new(history: &[Entry], node: u32) -> bool
    ensures { result ≡ is_new node (reverse history.now) }
{
    let mut new = true;
    for entry in history {
        new = new_after(new, *entry, node);
    }
    new
}

fn new_after(new: bool, entry: Entry, node: u32) -> bool
    ensures { (past : List Entry) → is_new node past ≡ new → result ≡ is_new node (entry ∷ past) }
{
    match entry {
        Entry::Load { node: n, .. } => n != node && new,
        Entry::Announce { .. }
        | Entry::Enter(_)
        | Entry::Leave(_)
        | Entry::Retire(_)
        | Entry::Unload { .. }
        | Entry::Count
        | Entry::Look { .. } => new,
    }
}

/// Whether the last load or unload of a node in a history is an unload.
pub fn is_removed(history: &[Entry], node: u32) -> bool
    ensures { result ≡ is_removed node (reverse history.now) }
{
    let mut removed = false;
    for entry in history {
        removed = removed_after(removed, *entry, node);
    }
    removed
}

fn removed_after(removed: bool, entry: Entry, node: u32) -> bool
    ensures { (past : List Entry) → is_removed node past ≡ removed →
        result ≡ is_removed node (entry ∷ past) }
{
    match entry {
        Entry::Load { node: n, .. } => n != node && removed,
        Entry::Unload { node: n } => n == node || removed,
        Entry::Announce { .. }
        | Entry::Enter(_)
        | Entry::Leave(_)
        | Entry::Retire(_)
        | Entry::Count
        | Entry::Look { .. } => removed,
    }
}

/// How many counts a history had before the last unload of a node, 0 where it was never unloaded.
pub fn counts_before(history: &[Entry], node: u32) -> usize
    ensures { result ≡ counts_before node (reverse history.now) }
{
    let mut counted = 0;
    let mut before = 0;
    for entry in history {
        before = before_after(before, counted, *entry, node);
        if is_count(*entry) {
            counted += 1;
        }
    }
    before
}

fn before_after(before: usize, counted: usize, entry: Entry, node: u32) -> usize
    ensures { (past : List Entry) → counts_before node past ≡ before → counts past ≡ counted →
        result ≡ counts_before node (entry ∷ past) }
{
    match entry {
        Entry::Unload { node: n } if n == node => counted,
        Entry::Announce { .. }
        | Entry::Enter(_)
        | Entry::Leave(_)
        | Entry::Retire(_)
        | Entry::Load { .. }
        | Entry::Unload { .. }
        | Entry::Count
        | Entry::Look { .. } => before,
    }
}

/// Whether a stamp lets go of what was unloaded after so many counts.
pub fn lets_go(before: usize, stamp: u64) -> bool
    ensures { result ≡ lets_go before stamp }
{
    stamp == 0 || (before as u64) < stamp - 1
}

/// Whether a pass has let go of a node in a history, since its last load or unload.
pub fn is_let_go(history: &[Entry], pass: u32, node: u32) -> bool
    ensures { result ≡ is_let_go pass node (reverse history.now) }
{
    let mut gone = false;
    for (i, entry) in history.iter().enumerate() {
        gone = gone_after(gone, &history[..i], *entry, pass, node);
    }
    gone
}

fn gone_after(gone: bool, past: &[Entry], entry: Entry, pass: u32, node: u32) -> bool
    ensures { is_let_go pass node (reverse past.now) ≡ gone →
        result ≡ is_let_go pass node (entry ∷ reverse past.now) }
{
    match entry {
        Entry::Load { node: n, .. } | Entry::Unload { node: n } => n != node && gone,
        Entry::Look { pass: p, stamp } => {
            p == pass && lets_go(counts_before(past, node), stamp) || gone
        }
        Entry::Announce { .. }
        | Entry::Enter(_)
        | Entry::Leave(_)
        | Entry::Retire(_)
        | Entry::Count => gone,
    }
}

/// Whether each pass has let go of a node in a history.
pub fn is_cleared(history: &[Entry], node: u32, passes: u32) -> bool
    ensures { result ≡ is_cleared passes node (reverse history.now) }
{
    let mut cleared = true;
    for pass in 0..passes {
        cleared = cleared && is_let_go(history, pass, node);
    }
    cleared
}

/// Whether a node is free after a history.
pub fn is_free(history: &[Entry], node: u32, passes: u32) -> bool
    ensures { result ≡ is_free passes node (reverse history.now) }
{
    is_new(history, node) || (is_removed(history, node) && is_cleared(history, node, passes))
}

/// Whether a node is in the list after a history.
pub fn is_listed(history: &[Entry], node: u32) -> bool
    ensures { result ≡ has node (live (reverse history.now)) }
{
    !is_new(history, node) && !is_removed(history, node)
}
