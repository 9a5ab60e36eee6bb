//! What follows what along lists that change, and which walks are lawful. A list after j changes
//! stands at place j.

ghost use Rattle.std.specs.Prelude.{◌≡◌, ◌↔◌, ◌<◌, ◌≤◌, length, IsTrue, Contains};
ghost use Rattle.std.specs.Option.{option_map};
ghost use Rattle.plcr_machine.specs.declared.change.Named.{Named};
ghost use Rattle.plcr_machine.specs.Walks.{RisesAbove, is_listed, first_of_list, next_in, last_with, follow, IsLawfulWalk};
ghost use Rattle.plcr_machine.specs.Changes.{load_of, lists_at};
ghost use Rattle.plcr_machine.specs.inner.Judging.{WasListed, StayedListed, EachWasListed, NoneWasMissed};

use crate::change::Named;

/// The number of the image that follows the image with a number after so many changes, if there is
/// one; after 0, that of the first of the list.
pub fn follow(lists: &[Vec<Named>], load: u32, changes: usize) -> Option<u32>
    requires { changes < length lists.now }
    ensures { result ≡ option_map load_of (follow load_of (lists_at lists.now) load changes) }
{
    if load == 0 {
        first_in(list_at(lists, changes))
    } else {
        next_in(list_at(lists, last_with(lists, load, changes)), load)
    }
}

// The list after so many changes.
fn list_at(lists: &[Vec<Named>], changes: usize) -> &[Named]
    requires { changes < length lists.now }
    ensures { result.now ≡ lists_at lists.now changes }
{
    &lists[changes]
}

// The greatest number of changes, up to some, after which an image was in the list; 0 where there
// is none.
fn last_with(lists: &[Vec<Named>], load: u32, changes: usize) -> usize
    requires { changes < length lists.now }
    ensures last { result ≡ last_with load_of (lists_at lists.now) load changes }
    ensures within { result ≤ changes }
{
    let mut last = 0;
    for at in 0..changes {
        if is_listed(list_at(lists, at + 1), load) {
            last = at + 1;
        }
    }
    last
}

fn is_listed(list: &[Named], load: u32) -> bool
    ensures { result ≡ is_listed load_of load list.now }
{
    list.iter().any(|image| image.load == load)
}

// The number of the first of a list.
fn first_in(list: &[Named]) -> Option<u32>
    ensures { result ≡ option_map load_of (first_of_list load_of list.now) }
{
    let image = list.first()?;
    Some(image.load)
}

// The number of what stands right after an image in a list.
fn next_in(list: &[Named], load: u32) -> Option<u32>
    ensures { result ≡ option_map load_of (next_in load_of load list.now) }
{
    let mut found = false;
    for image in list {
        if found {
            return Some(image.load);
        }
        found = image.load == load;
    }
    None
}

/// Whether a walk is lawful between the list after some changes and that after others.
pub fn is_lawful_walk(lists: &[Vec<Named>], from: usize, to: usize, met: &[Named]) -> bool
    requires order { from ≤ to }
    requires within { to < length lists.now }
    ensures { IsTrue result ↔ IsLawfulWalk load_of (lists_at lists.now) from to met.now }
{
    let first = list_at(lists, from);
    if !rises(met) {
        return false;
    }
    if !each_was_listed(lists, from, to, met) {
        return false;
    }
    if !none_was_missed(lists, from, to, met, first) {
        return false;
    }
    from != to || is_same(met, first)
}

// Whether the numbers rise.
fn rises(met: &[Named]) -> bool
    ensures { IsTrue result ↔ RisesAbove load_of 0 met.now }
{
    let mut last = 0;
    for image in met {
        if image.load <= last {
            return false;
        }
        last = image.load;
    }
    true
}

fn is_same(met: &[Named], list: &[Named]) -> bool
    ensures { IsTrue result ↔ (met.now ≡ list.now) }
{
    met == list
}

// Whether each image stood in one of the lists.
fn each_was_listed(lists: &[Vec<Named>], from: usize, to: usize, met: &[Named]) -> bool
    requires order { from ≤ to }
    requires within { to < length lists.now }
    ensures { IsTrue result ↔ EachWasListed lists.now from to met.now }
{
    for image in met {
        if !was_listed(lists, from, to, image) {
            return false;
        }
    }
    true
}

// Whether of some images each that stood in all of the lists was met.
fn none_was_missed(
    lists: &[Vec<Named>],
    from: usize,
    to: usize,
    met: &[Named],
    images: &[Named],
) -> bool
    requires order { from ≤ to }
    requires within { to < length lists.now }
    ensures { IsTrue result ↔ NoneWasMissed lists.now from to met.now images.now }
{
    for image in images {
        if !is_met_or_went(lists, from, to, met, image) {
            return false;
        }
    }
    true
}

// Whether an image was met, or did not stand in all of the lists.
fn is_met_or_went(
    lists: &[Vec<Named>],
    from: usize,
    to: usize,
    met: &[Named],
    image: &Named,
) -> bool
    requires order { from ≤ to }
    requires within { to < length lists.now }
    ensures { IsTrue result ↔ (StayedListed lists.now from to image.now →
        Contains met.now image.now) }
{
    is_in(met, image) || !stayed_listed(lists, from, to, image)
}

fn is_in(list: &[Named], image: &Named) -> bool
    ensures { IsTrue result ↔ Contains list.now image.now }
{
    list.contains(image)
}

// Whether an image stood in one of the lists.
fn was_listed(lists: &[Vec<Named>], from: usize, to: usize, image: &Named) -> bool
    requires order { from ≤ to }
    requires within { to < length lists.now }
    ensures { IsTrue result ↔ WasListed lists.now from to image.now }
{
    for at in from..to + 1 {
        if is_in(list_at(lists, at), image) {
            return true;
        }
    }
    false
}

// Whether it stood in each of them.
fn stayed_listed(lists: &[Vec<Named>], from: usize, to: usize, image: &Named) -> bool
    requires order { from ≤ to }
    requires within { to < length lists.now }
    ensures { IsTrue result ↔ StayedListed lists.now from to image.now }
{
    for at in from..to + 1 {
        if !is_in(list_at(lists, at), image) {
            return false;
        }
    }
    true
}
