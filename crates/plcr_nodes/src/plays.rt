//! What each step on the table tells.
ghost use Rattle.plcr_nodes.specs.inner.Plays.{announced, counted, entered, filled, followed, given_view, giving, glanced, left, linked, loaded_word, looked, numbered, retired, unlinked};
ghost use Rattle.plcr_nodes.specs.inner.Telling.{gathered, hearing_view, learned, noted_view, spent_view};

use crate::view::View;
use atomic_table::{Join, Play, Split};

pub(crate) struct Glancing;

impl Play<(), View> for Glancing {
    ghost then = { glanced };
}

pub(crate) struct Announcing;

impl Play<(), View> for Announcing {
    ghost then = { announced };
}

pub(crate) struct Retiring;

impl Play<(), View> for Retiring {
    ghost then = { retired };
}

pub(crate) struct Entering;

impl Play<(), View> for Entering {
    ghost then = { entered };
}

pub(crate) struct Leaving;

impl Play<(), View> for Leaving {
    ghost then = { left };
}

pub(crate) struct Following;

impl Play<(), View> for Following {
    ghost then = { followed };
}

pub(crate) struct Reading;

impl Play<(), View> for Reading {
    ghost then = { loaded_word };
}

pub(crate) struct Filling;

impl Play<(), View> for Filling {
    ghost then = { filled };
}

pub(crate) struct Linking;

impl Play<(), View> for Linking {
    ghost then = { linked };
}

pub(crate) struct Unlinking;

impl Play<(), View> for Unlinking {
    ghost then = { unlinked };
}

pub(crate) struct Counting;

impl Play<(), View> for Counting {
    ghost then = { counted };
}

pub(crate) struct Looking;

impl Play<(), View> for Looking {
    ghost then = { looked };
}

pub(crate) struct Numbering;

impl Play<(), View> for Numbering {
    ghost then = { numbered };
}

/// Gives a pass number to a new seat.
pub(crate) struct Giving;

impl Split<View> for Giving {
    ghost left = { giving };

    ghost right = { given_view };
}

/// Copies what was seen to a new seat.
pub(crate) struct Noting;

impl Split<View> for Noting {
    ghost left = { λ v. v };

    ghost right = { noted_view };
}

/// Keeps what the joined seat had seen until the next load.
pub(crate) struct Hearing;

impl Join<View> for Hearing {
    ghost both = { hearing_view };

    ghost spent = { spent_view };
}

pub(crate) struct Learning;

impl Play<(), View> for Learning {
    ghost then = { learned };
}

pub(crate) struct Gathering;

impl Play<(), View> for Gathering {
    ghost then = { gathered };
}
