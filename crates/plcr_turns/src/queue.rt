//! The queue through which the turn goes round.
ghost use Rattle.std.specs.Prelude.{◌≡◌, IfOk, None};
ghost use Rattle.crossbeam_queue.specs.Passes.{view, IsSamePass, IsPassOf, ruled_capacity};
ghost use Rattle.plcr_turns.specs.Views.{first_view, opened_view, taken_view, given_view, IsTaken, MayGive, IsUnspent, HasAll};
ghost use Rattle.plcr_turns.specs.Turns.{IsTurn};
ghost use Rattle.plcr_turns.specs.declared.view.Role.TheVariants.{Chief};

use crate::rule::{Gives, OneTurn, Starts, Takes};
use crate::turn::Turn;
use crate::view::View;
use crossbeam_queue::{Pass, RuledArrayQueue};
use std::alloc::{AllocError, Global};
use std::sync::Wait;
use std::thread;

/// A queue with one place, for the turn.
pub type TurnQueue = RuledArrayQueue<Turn, View, OneTurn>;

/// A pass of it. It has no bytes. One that is dropped never gives its scripts back.
pub type TurnPass = Pass<Turn, View>;

/// A queue with no turn yet, and its first pass.
pub fn make(alloc: Global) -> Result<(TurnQueue, TurnPass), AllocError>
    ensures { IfOk result (λ q. (ruled_capacity q.0 ≡ 1) × IsPassOf q.0 q.1
        × (view q.1 ≡ first_view)) }
{
    TurnQueue::ruled(alloc, 1)
}

/// Puts the turn into a queue that was just made. All scripts belong to this pass, until they are
/// handed out.
pub fn start<R: Wait>(rt: &R, queue: &TurnQueue, pass: &mut TurnPass, turn: Turn)
    requires queue { IsPassOf queue.now pass.old × (ruled_capacity queue.now ≡ 1) }
    requires first { view pass.old ≡ first_view }
    ensures queue { IsSamePass pass.old pass.new }
    ensures view { view pass.new ≡ opened_view turn }
{
    match queue.push_as::<Starts, R>(rt, pass, turn) {
        Ok(()) => {}
        Err(_) => unreachable!(),
    }
}

/// Waits for the turn, and takes it.
pub fn take<R: Wait>(rt: &R, queue: &TurnQueue, pass: &mut TurnPass) -> Turn
    requires queue { IsPassOf queue.now pass.old }
    requires view { IsUnspent (view pass.old) }
    ensures queue { IsSamePass pass.old pass.new }
    ensures view { view pass.new ≡ taken_view (view pass.old) result }
    ensures taken { IsTaken (view pass.old) result }
    ensures turn { IsTurn result }
{
    for _ in rt.forever() {
        if let Some(turn) = queue.pop_as::<Takes, R>(rt, pass) {
            return turn;
        }
        thread::yield_now();
    }
    unreachable!()
}

/// Gives the turn back, after at most its own scripts went on. The queue is empty, so it is never
/// refused.
pub fn give<R: Wait>(rt: &R, queue: &TurnQueue, pass: &mut TurnPass, turn: Turn)
    requires queue { IsPassOf queue.now pass.old × (ruled_capacity queue.now ≡ 1) }
    requires may { MayGive (view pass.old) turn }
    ensures queue { IsSamePass pass.old pass.new }
    ensures view { view pass.new ≡ given_view (view pass.old) turn }
{
    match queue.push_as::<Gives, R>(rt, pass, turn) {
        Ok(()) => {}
        Err(_) => unreachable!(),
    }
}

/// Takes the turn by the pass that has all scripts again. It is in the queue, so there is nobody to
/// wait for.
pub fn take_last<R: Wait>(rt: &R, queue: &TurnQueue, pass: &mut TurnPass) -> Turn
    requires queue { IsPassOf queue.now pass.old }
    requires chief { ((view pass.old).role ≡ Chief) × ((view pass.old).turn ≡ None) }
    requires all { HasAll (view pass.old) }
    ensures queue { IsSamePass pass.old pass.new }
    ensures view { view pass.new ≡ taken_view (view pass.old) result }
    ensures taken { IsTaken (view pass.old) result }
    ensures turn { IsTurn result }
{
    match queue.pop_as::<Takes, R>(rt, pass) {
        Some(turn) => turn,
        None => unreachable!(),
    }
}
