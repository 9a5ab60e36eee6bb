//! Which histories are legal.

ghost use Rattle.std.specs.Prelude.{◌↔◌, reverse, IsTrue};
ghost use Rattle.plcr_machine.specs.Histories.{MayFollow, IsLegal};

use crate::entry::Entry;
use crate::limits::MOST_CHANGES;
use crate::plain::lists::loads;
use crate::plain::nodes::{is_free, is_listed};
use crate::plain::passes::{counts, is_announced, is_inside, stamp_of};

/// Whether an entry may come next.
pub fn may_follow(history: &[Entry], entry: Entry, nodes: u32, passes: u32) -> bool
    ensures { IsTrue result ↔ MayFollow nodes passes (reverse history.now) entry }
{
    match entry {
        Entry::Announce { pass, seen } => {
            pass < passes && !is_announced(history, pass) && seen as usize <= counts(history)
        }
        Entry::Enter(pass) | Entry::Retire(pass) => {
            is_announced(history, pass) && !is_inside(history, pass)
        }
        Entry::Leave(pass) => is_inside(history, pass),
        Entry::Load { node, load, .. } => {
            0 < node
                && node <= nodes
                && is_free(history, node, passes)
                && 0 < load
                && load as usize - 1 == loads(history)
        }
        Entry::Unload { node } => is_listed(history, node),
        Entry::Count => counts(history) < MOST_CHANGES as usize,
        Entry::Look { pass, stamp } => pass < passes && stamp == stamp_of(history, pass),
    }
}

/// Whether a history is legal, for a number of nodes and a number of passes.
pub fn is_legal(history: &[Entry], nodes: u32, passes: u32) -> bool
    ensures { IsTrue result ↔ IsLegal nodes passes (reverse history.now) }
{
    for (i, entry) in history.iter().enumerate() {
        if !may_follow(&history[..i], *entry, nodes, passes) {
            return false;
        }
    }
    true
}
