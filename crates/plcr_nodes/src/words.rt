//! How the words of a table lie: the gate, the count of pass numbers, the words of the head and of
//! each node, and behind them a stamp for each pass.
ghost use Rattle.std.specs.Prelude.{◌≡◌, ℕ, ◌+◌, ◌≤◌};
ghost use Rattle.plcr_machine.specs.declared.limits.TheConstants.{MOST_NODES};
ghost use Rattle.plcr_nodes.specs.inner.Words.{base, stamp_place};

use plcr_base::IMAGE_NAME_BYTES;

/// The word of the gate.
pub(crate) const GATE: usize = 0;

/// The word that has how many pass numbers were given.
pub(crate) const NUMBERS: usize = 1;

/// The first word of the head, which stands before the nodes.
pub(crate) const HEAD: usize = 2;

/// A node has so many payload words: the header, the length of the name, and the words of the
/// longest name.
pub const PAYLOAD_WORDS: usize = 2 + IMAGE_NAME_BYTES / 8;

/// A node has so many words: its link and its payload.
pub const NODE_WORDS: usize = 1 + PAYLOAD_WORDS;

/// The stamps of two passes that follow one another stand so many words apart.
pub const STAMP_SPACING: usize = 1;

/// The word in which a place's link lies.
pub(crate) fn place_of(node: u32) -> usize
    ensures { result ≡ base node }
{
    HEAD + NODE_WORDS * node as usize
}

/// The word in which a pass's stamp lies, in a table with so many places: the head and the nodes.
pub(crate) fn stamp_word(places: usize, pass: u32) -> usize
    requires { places ≤ MOST_NODES + 1 }
    ensures { (nodes : ℕ) → places ≡ nodes + 1 → result ≡ stamp_place nodes pass }
{
    HEAD + NODE_WORDS * places + STAMP_SPACING * pass as usize
}
