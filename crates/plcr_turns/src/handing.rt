//! Passes for workers, handed out and taken in.
ghost use Rattle.std.specs.Prelude.{◌≡◌, ◌≢◌, [], None};
ghost use Rattle.crossbeam_queue.specs.Passes.{view, IsSamePass, IsPassOf};
ghost use Rattle.plcr_turns.specs.Views.{left_view, worker_view, both_view};
ghost use Rattle.plcr_turns.specs.declared.view.Role.TheVariants.{Chief, Worker};

use crate::queue::{TurnPass, TurnQueue};
use crate::rule::{Gathers, Hands};

/// A pass for a worker, to which the first script of the chief's pass belongs from now on.
pub fn hand_out(queue: &TurnQueue, pass: &mut TurnPass) -> TurnPass
    requires queue { IsPassOf queue.now pass.old }
    requires chief { ((view pass.old).role ≡ Chief) × ((view pass.old).turn ≡ None) }
    requires script { (view pass.old).shares ≢ [] }
    ensures queue { IsSamePass pass.old pass.new × IsPassOf queue.now result }
    ensures left { view pass.new ≡ left_view (view pass.old) }
    ensures right { view result ≡ worker_view (view pass.old) }
{
    queue.another::<Hands>(pass)
}

/// Takes a worker's pass in, with its scripts.
pub fn take_in(queue: &TurnQueue, pass: &mut TurnPass, other: TurnPass)
    requires queue { IsPassOf queue.now pass.old × IsPassOf queue.now other }
    requires chief { ((view pass.old).role ≡ Chief) × ((view pass.old).turn ≡ None) }
    requires worker { ((view other).role ≡ Worker) × ((view other).turn ≡ None) }
    ensures queue { IsSamePass pass.old pass.new }
    ensures both { view pass.new ≡ both_view (view pass.old) (view other) }
{
    queue.absorb::<Gathers>(pass, other);
}
