//! Which removed nodes each pass has let go of, by the looks at its stamp so far.
ghost use Rattle.std.specs.Prelude.{◌≡◌, ◌+◌, ◌<◌, ◌≤◌, ◌++◌, filter, slice_set, slice_index, vec_len, vec_capacity, ◌==◌, if◌then◌else◌};
ghost use Rattle.plcr_machine.specs.Passes.{counts};
ghost use Rattle.plcr_imagelist.specs.declared.bounds.TheConstants.{MOST_BOUND};
ghost use Rattle.plcr_imagelist.specs.States.{IsAtRest};
ghost use Rattle.plcr_imagelist.specs.Changes.{Looks};
ghost use Rattle.plcr_imagelist.specs.inner.Keeping.{writer_state, AreBounds, bound_of, higher, least_from, let_go_below, is_above};

use plcr_nodes::{Nodes, Owner};

/// No bound is greater.
const MOST_BOUND: u64 = u64::MAX;

/// A node that was taken out of the list and isn't free yet, with how many changes were counted
/// before that.
#[derive(Clone, Copy)]
pub(crate) struct Removed {
    pub(crate) node: u32,
    pub(crate) before: u32,
}

// Whether a pass with this stamp is announced, as a number.
fn announced_in(stamp: u64) -> u32
    ensures announced { result ≡ (if stamp == 0 then 0 else 1) }
    ensures most { result ≤ 1 }
{
    if stamp == 0 { 0 } else { 1 }
}

// What a pass with this stamp has let go of, after so many counts: what was taken out below this
// bound.
fn bound_of(stamp: u64, counted: u32) -> u64
    ensures { result ≡ bound_of stamp counted }
{
    if stamp == 0 {
        counted as u64 + 1
    } else {
        stamp
    }
}

// Raises the bound of a pass, where it is lower.
fn raise(bounds: &mut Vec<u64>, pass: u32, bound: u64)
    requires { pass < vec_len bounds.old }
    ensures { bounds.new.items
        ≡ slice_set bounds.old.items pass (higher (slice_index bounds.old.items pass) bound) }
{
    let before = bounds[pass as usize];
    bounds[pass as usize] = if before < bound { bound } else { before };
}

/// Looks at the stamp of each pass, in the order of their numbers, and says how many were
/// announced.
pub(crate) fn look_at_all(
    owner: &mut Owner,
    bounds: &mut Vec<u64>,
    nodes: &Nodes,
    passes: u32,
    counted: u32,
) -> u32
    requires table { owner.old.table ≡ nodes.now }
    requires passes { passes ≡ owner.old.passes }
    requires counted { counted ≡ counts owner.old.history }
    requires rest { IsAtRest (writer_state owner.old) }
    requires bounds { AreBounds owner.old.passes owner.old.history bounds.old.items }
    ensures looks { Looks owner.old.passes (writer_state owner.old) result
        (writer_state owner.new) }
    ensures few { result ≤ owner.old.passes }
    ensures bounds { AreBounds owner.old.passes owner.new.history bounds.new.items }
    ensures rest { IsAtRest (writer_state owner.new) }
    ensures same { owner.new ≡ record owner.old {
      history = owner.new.history;
      names =
          owner.new.names;
    } }
{
    let mut announced = 0;
    for pass in 0..passes {
        let stamp = owner.look(nodes, pass);
        announced += announced_in(stamp);
        raise(bounds, pass, bound_of(stamp, counted));
    }
    announced
}

/// The least of the bounds. Each pass has let go of what was taken out below it.
#[tactic(auto, using(crate::proofs::Bounding::least_lower, crate::proofs::Bounding::least_same, crate::proofs::Bounding::least_all))]
pub(crate) fn least_of(bounds: &[u64]) -> u64
    ensures { result ≡ least_from MOST_BOUND bounds.now }
{
    let mut least = MOST_BOUND;
    for bound in bounds {
        if *bound < least {
            least = *bound;
        }
    }
    least
}

/// Makes the nodes free that were taken out below a bound.
#[tactic(auto, using(crate::proofs::Freeing::given_more, crate::proofs::Freeing::given_same, crate::proofs::Freeing::given_all))]
pub(crate) fn let_go(free: &mut Vec<u32>, removed: &mut Vec<Removed>, bound: u64)
    requires { vec_len free.old + vec_len removed.old ≤ vec_capacity free.old }
    ensures freed { free.new.items ≡ free.old.items ++ let_go_below bound removed.old.items }
    ensures kept { removed.new.items ≡ filter (is_above bound) removed.old.items }
    ensures room { (vec_capacity free.old ≤ vec_capacity free.new)
        × (vec_capacity removed.new ≡ vec_capacity removed.old) }
{
    for gone in removed.as_slice() {
        if gone.before as u64 + 1 < bound {
            free.push_reserved(gone.node);
        }
    }
    removed.retain(|gone| bound <= gone.before as u64 + 1);
}
