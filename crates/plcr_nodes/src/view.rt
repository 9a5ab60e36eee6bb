//! What one seat knows of the table, and the rule that ties all seats to its words.
use atomic_table::TableRule;
use plcr_machine::Entry;
use std::collections::LinkedList;

/// The sizes of a table.
#[derive(Clone, Copy)]
pub struct Sizes {
    pub nodes: u32,
    pub passes: u32,
}

/// One word that the owner stored in a free node. Word 0 is the link, and word k + 1 the payload
/// word k.
pub struct Store {
    pub node: u32,
    pub word: u32,
    pub value: u64,
}

/// What a joined seat had seen, and the pass numbers that it had.
pub struct Heard {
    pub history: LinkedList<Entry>,
    pub names: LinkedList<LinkedList<u8>>,
    pub numbers: LinkedList<u32>,
}

/// What a seat knows. No value of it is made. All lists have the newest first.
pub struct View {
    /// It was joined into another view, and says nothing any more.
    pub spent: bool,
    pub nodes: u32,
    pub passes: u32,
    /// The history as far as the seat has seen it, and the names of its loads.
    pub history: LinkedList<Entry>,
    pub names: LinkedList<LinkedList<u8>>,
    /// The right to change the list.
    pub owns: bool,
    /// How many pass numbers were given, if the seat owns.
    pub numbered: u32,
    /// The pass numbers under which the seat may step. An owner has those of the passes that it has
    /// joined.
    pub numbers: LinkedList<u32>,
    /// The nodes that a walk was given since the last enter.
    pub given: LinkedList<u32>,
    /// The words stored in free nodes, if the seat owns.
    pub filled: LinkedList<Store>,
    /// What joined seats had seen, until the next step takes the history in.
    pub heard: LinkedList<Heard>,
}

pub struct OneHistory;

impl TableRule<(), View, Sizes> for OneHistory {
    ghost use Rattle.plcr_nodes.specs.inner.Rule.{Holds, first_view};

    ghost holds = { λ key. Holds key.nodes key.passes };

    ghost first = { λ key. first_view key.nodes key.passes };
}
