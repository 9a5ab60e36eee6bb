//! The table, and its opening.
ghost use Rattle.std.specs.Prelude.{◌≡◌, ◌+◌, ◌<◌, IfOk, IfErr, IsErrOf};
ghost use Rattle.plcr_nodes.specs.Opening.{IsSized, IsOpened, FindsNothing, opened_pass, opened_passes};
ghost use Rattle.plcr_nodes.specs.inner.Seats.{IsOpening};

use crate::owner::Owner;
use crate::pass::NodePass;
use crate::plays::{Giving, Numbering};
use crate::view::{OneHistory, Sizes, View};
use crate::words::{NUMBERS, stamp_word};
use atomic_table::{Seat, Table};
use plcr_machine::{MOST_NODES, MOST_PASSES};
use std::alloc::{AllocError, Global};
use std::marker::Model;

/// The table's words, which all tokens share. Contracts see which table it is.
#[derive(Drop)]
pub struct Nodes {
    pub(crate) table: Table<(), View, Sizes, OneHistory, Global>,
}

impl Model for Nodes {
    ghost use Rattle.atomic_table.specs.Seated.{TableId, table_id_coded};

    ghost Value = { TableId };

    ghost coded = { table_id_coded };

    ghost view = { λ n. n.table.shared.table_id };
}

/// Why no table was opened.
#[derive(Clone, Copy, Debug, PartialEq, Eq)]
pub enum NodesError {
    /// The number of nodes isn't 1 to 4,096, or that of passes not 1 to 1,024.
    BadSize { nodes: u32, passes: u32 },
    /// There was no memory.
    Memory,
}

impl From<AllocError> for NodesError {
    ghost use Rattle.std.specs.Prelude.{◌≡◌};
    ghost use Rattle.plcr_nodes.specs.declared.nodes.NodesError.TheVariants.{Memory};

    ghost from_gives = { λ _ e. e ≡ Memory };

    fn from(_error: AllocError) -> NodesError {
        NodesError::Memory
    }
}

impl Nodes {
    /// A table with an empty list and the tokens for it: the owner, and as many passes, with the
    /// numbers from 0 on.
    /// `BadSize` comes exactly where there aren't 1 to 4,096 nodes and 1 to 1,024 passes.
    pub fn open(
        alloc: Global,
        nodes: u32,
        passes: u32,
    ) -> Result<(Nodes, Owner, Vec<NodePass>), NodesError>
        ensures opened { IfOk result (λ r. IsSized nodes passes
            × IsOpened nodes passes r.0 r.1 r.2.items) }
        ensures first { IfOk result (λ r. FindsNothing r.1) }
        ensures bad { ¬ IsSized nodes passes → IsErrOf result (NodesError.BadSize nodes passes) }
        ensures memory { IsSized nodes passes → IfErr result (λ e. e ≡ NodesError.Memory) }
    {
        if nodes == 0 || nodes > MOST_NODES || passes == 0 || passes > MOST_PASSES {
            return Err(NodesError::BadSize { nodes, passes });
        }
        let (table, mut seat) = Nodes::make(alloc, nodes, passes)?;
        let all = table.give_numbers(alloc, &mut seat, nodes, passes)?;
        let links = vec![in alloc; 0; nodes as usize + 1]?;
        Ok((table, Owner { seat, links }, all))
    }

    // The table with its first seat, which owns the list and has given no pass number away.
    fn make(alloc: Global, nodes: u32, passes: u32) -> Result<(Nodes, Seat<(), View>), AllocError>
        requires { IsSized nodes passes }
        ensures { IfOk result (λ r. (r.1.table_id ≡ r.0) × IsOpening nodes passes 0 r.0 r.1.me) }
    {
        let words = vec![in alloc; 0; stamp_word(nodes as usize + 1, passes)]?;
        let (table, seat) = Table::of_words(alloc, words.as_slice(), &Sizes { nodes, passes })?;
        Ok((Nodes { table }, seat))
    }

    // A pass for each number below `passes`.
    fn give_numbers(
        &self,
        alloc: Global,
        seat: &mut Seat<(), View>,
        nodes: u32,
        passes: u32,
    ) -> Result<Vec<NodePass>, AllocError>
        requires table { seat.old.table_id ≡ self.now }
        requires sized { IsSized nodes passes }
        requires opening { IsOpening nodes passes 0 self.now seat.old.me }
        ensures table { seat.new.table_id ≡ self.now }
        ensures given { IfOk result (λ all. IsOpening nodes passes passes self.now seat.new.me
            × (all.items ≡ opened_passes self.now nodes passes passes)) }
    {
        let mut all = Vec::with_capacity(alloc, passes as usize)?;
        for number in 0..passes {
            all.push(self.give_number(seat, nodes, passes, number))?;
        }
        Ok(all)
    }

    // Numbers a pass: the owner's seat takes the next number, and gives it to a new seat.
    fn give_number(
        &self,
        seat: &mut Seat<(), View>,
        nodes: u32,
        passes: u32,
        number: u32,
    ) -> NodePass
        requires table { seat.old.table_id ≡ self.now }
        requires sized { IsSized nodes passes }
        requires opening { IsOpening nodes passes number self.now seat.old.me }
        requires few { number < passes }
        ensures table { seat.new.table_id ≡ self.now }
        ensures opening { IsOpening nodes passes (number + 1) self.now seat.new.me }
        ensures pass { result ≡ opened_pass self.now nodes passes number }
    {
        self.table.shared.fetch_add::<Numbering>(seat, NUMBERS, 1);
        NodePass {
            seat: self.table.shared.split_seat::<Giving>(seat),
            stamp: stamp_word(nodes as usize + 1, number),
        }
    }
}
