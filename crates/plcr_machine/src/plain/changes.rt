//! The lists that changes leave.

ghost use Rattle.std.specs.Prelude.{◌≡◌, ℕ, suc, ◌≤◌, List, ◌∷◌, reverse, length, IfOk, OnOk, IsTrue};
ghost use Rattle.plcr_machine.specs.declared.change.Change.{Change};
ghost use Rattle.plcr_machine.specs.Changes.{list_of, without_first, list_after_changes, lists_at};

use crate::change::{Change, Named};
use std::alloc::{AllocError, Global};

/// The lists that changes leave, from the empty list before the first to that after all.
pub fn lists_after(alloc: Global, changes: &[Change]) -> Result<Vec<Vec<Named>>, AllocError>
    ensures count { IfOk result (λ v. length v.items ≡ suc (length changes.now)) }
    ensures lists { IfOk result (λ v. (j : ℕ) → j ≤ length changes.now →
        lists_at v.items j ≡ list_after_changes (reverse changes.now) j) }
{
    let mut lists = Vec::new(alloc);
    let mut last = Vec::new(alloc);
    for change in changes {
        let next = changed(alloc, &last, change)?;
        lists.push(last)?;
        last = next;
    }
    lists.push(last)?;
    Ok(lists)
}

// A list after one more change.
fn changed(alloc: Global, list: &[Named], change: &Change) -> Result<Vec<Named>, AllocError>
    ensures { IfOk result (λ v. (past : List Change) → list.now ≡ list_of past →
        v.items ≡ list_of (change.now ∷ past)) }
{
    let mut next = copy_of(alloc, list)?;
    match change {
        Change::Loads(image) => next.push(copy_of_image(image)?)?,
        Change::Unloads(header) => take_first(&mut next, *header),
    }
    Ok(next)
}

fn copy_of(alloc: Global, list: &[Named]) -> Result<Vec<Named>, AllocError>
    ensures { IfOk result (λ v. v.items ≡ list.now) }
{
    let mut copy = Vec::new(alloc);
    for image in list {
        copy.push(copy_of_image(image)?)?;
    }
    Ok(copy)
}

fn copy_of_image(image: &Named) -> Result<Named, AllocError>
    ensures { IfOk result (λ copy. copy ≡ image.now) }
{
    let name = image.name.clone()?;
    Ok(Named {
        load: image.load,
        header: image.header,
        name,
    })
}

fn take_first(list: &mut Vec<Named>, header: u64)
    ensures { list.new.items ≡ without_first header list.old.items }
{
    if let Some(at) = list.iter().position(|image| image.header == header) {
        list.remove(at);
    }
}
