//! The rule of the queue, and the steps that keep it.
use crate::turn::Turn;
use crate::view::View;
use crossbeam_queue::protocol::{Join, Lesson, Outcome, Protocol, Split};

/// The rule: the turn is in the queue or with one pass, each script belongs to one pass, which
/// knows how far it has come, and what a pass saw of the journal begins it.
pub struct OneTurn;

impl Protocol<Turn, View> for OneTurn {
    ghost use Rattle.plcr_turns.specs.Views.{first_view};
    ghost use Rattle.plcr_turns.specs.Rule.{IsKept};

    ghost holds = { IsKept };

    ghost first = { first_view };
}

/// The first push.
pub struct Starts;

impl Outcome<Turn, View> for Starts {
    ghost use Rattle.std.specs.Prelude.{◌≡◌};
    ghost use Rattle.plcr_turns.specs.Views.{opened_view};

    ghost then = { λ v x w. w ≡ opened_view x };
}

impl Lesson<Turn, View> for Starts {
    ghost use Rattle.std.specs.Prelude.{◌≡◌, []};

    ghost fact = { λ v items. items ≡ [] };
}

/// The turn is taken.
pub struct Takes;

impl Outcome<Turn, View> for Takes {
    ghost use Rattle.std.specs.Prelude.{◌≡◌};
    ghost use Rattle.plcr_turns.specs.Views.{IsTaken, taken_view};

    ghost then = { λ v x w. (w ≡ taken_view v x) × IsTaken v x };
}

impl Lesson<Turn, View> for Takes {
    ghost use Rattle.plcr_turns.specs.Views.{MustHold};

    ghost fact = { MustHold };
}

/// The turn is given back.
pub struct Gives;

impl Outcome<Turn, View> for Gives {
    ghost use Rattle.std.specs.Prelude.{◌≡◌};
    ghost use Rattle.plcr_turns.specs.Views.{given_view};

    ghost then = { λ v x w. w ≡ given_view v x };
}

impl Lesson<Turn, View> for Gives {
    ghost use Rattle.std.specs.Prelude.{◌≡◌, []};

    ghost fact = { λ v items. items ≡ [] };
}

/// A worker gets a pass of its own, with the first script.
pub struct Hands;

impl Split<View> for Hands {
    ghost use Rattle.plcr_turns.specs.Views.{left_view, worker_view};

    ghost left = { left_view };

    ghost right = { worker_view };
}

/// A worker's pass is taken in.
pub struct Gathers;

impl Join<View> for Gathers {
    ghost use Rattle.plcr_turns.specs.Views.{both_view, spent_view};

    ghost both = { both_view };

    ghost spent = { spent_view };
}
