//! The list of images that a history leaves.

ghost use Rattle.std.specs.Prelude.{◌≡◌, ◌+◌, List, ◌∷◌, reverse, IfOk, OnOk, if◌then◌else◌};
ghost use Rattle.plcr_machine.specs.declared.entry.Entry.{Entry};
ghost use Rattle.plcr_machine.specs.Lists.{live, loads, without};

use crate::entry::Entry;
use crate::image::Image;
use std::alloc::{AllocError, Global};

/// How many loads a history has.
pub fn loads(history: &[Entry]) -> usize
    ensures { result ≡ loads (reverse history.now) }
{
    let mut loaded = 0;
    for entry in history {
        if is_load(*entry) {
            loaded += 1;
        }
    }
    loaded
}

fn is_load(entry: Entry) -> bool
    ensures { (past : List Entry) → loads (entry ∷ past) ≡ (if result then 1 else 0) + loads past }
{
    match entry {
        Entry::Load { .. } => true,
        Entry::Announce { .. }
        | Entry::Enter(_)
        | Entry::Leave(_)
        | Entry::Retire(_)
        | Entry::Unload { .. }
        | Entry::Count
        | Entry::Look { .. } => false,
    }
}

/// The list of images that a history leaves.
pub fn images(alloc: Global, history: &[Entry]) -> Result<Vec<Image>, AllocError>
    ensures { IfOk result (λ v. v.items ≡ live (reverse history.now)) }
{
    let mut images = Vec::new(alloc);
    for entry in history {
        change(&mut images, *entry)?;
    }
    Ok(images)
}

fn change(images: &mut Vec<Image>, entry: Entry) -> Result<(), AllocError>
    ensures { OnOk result ((past : List Entry) → images.old.items ≡ live past →
        images.new.items ≡ live (entry ∷ past)) }
{
    match entry {
        Entry::Load { node, load, header } => images.push(Image { node, load, header })?,
        Entry::Unload { node } => take_away(images, node),
        Entry::Announce { .. }
        | Entry::Enter(_)
        | Entry::Leave(_)
        | Entry::Retire(_)
        | Entry::Count
        | Entry::Look { .. } => {}
    }
    Ok(())
}

fn take_away(images: &mut Vec<Image>, node: u32)
    ensures { images.new.items ≡ without node images.old.items }
{
    images.retain(|image| image.node != node);
}
