//! The list that all tokens share.
ghost use Rattle.std.specs.Prelude.{◌≡◌, IfOk, IfErr, IsErrOf};
ghost use Rattle.plcr_nodes.specs.Opening.{IsSized, IsOpened};
ghost use Rattle.plcr_imagelist.specs.Opening.{IsOpenedList, StartsEmpty};

use crate::hold::Pass;
use crate::writer::Writer;
use plcr_nodes::{NodePass, Nodes, NodesError, Owner};
use std::alloc::{AllocError, Global};
use std::marker::Model;

/// The list's words, which all tokens share. Contracts see which table it is.
#[derive(Drop)]
pub struct ImageList {
    pub(crate) nodes: Nodes,
}

impl Model for ImageList {
    ghost use Rattle.atomic_table.specs.Seated.{TableId, table_id_coded};

    ghost Value = { TableId };

    ghost coded = { table_id_coded };

    ghost view = { λ list. list.nodes };
}

/// Why no list was opened.
#[derive(Clone, Copy, Debug, PartialEq, Eq)]
pub enum OpenError {
    /// The number of nodes isn't 1 to 4,096, or that of passes not 1 to 1,024.
    BadSize { nodes: u32, passes: u32 },
    /// There was no memory.
    Memory,
}

impl From<AllocError> for OpenError {
    ghost use Rattle.std.specs.Prelude.{◌≡◌};
    ghost use Rattle.plcr_imagelist.specs.declared.list.OpenError.TheVariants.{Memory};

    ghost from_gives = { λ _ e. e ≡ Memory };

    fn from(_error: AllocError) -> OpenError {
        OpenError::Memory
    }
}

impl ImageList {
    /// An empty list and the tokens for it: the writer, and as many passes, with the numbers from 0
    /// on. They take all their room here. `BadSize` comes exactly where there aren't 1 to 4,096
    /// nodes and 1 to 1,024 passes.
    pub fn open(
        alloc: Global,
        nodes: u32,
        passes: u32,
    ) -> Result<(ImageList, Writer, Vec<Pass>), OpenError>
        ensures opened { IfOk result (λ r. IsSized nodes passes
            × IsOpenedList nodes passes r.0 r.1 r.2.items) }
        ensures first { IfOk result (λ r. StartsEmpty r.1) }
        ensures bad { ¬ IsSized nodes passes → IsErrOf result (OpenError.BadSize nodes passes) }
        ensures memory { IsSized nodes passes → IfErr result (λ e. e ≡ OpenError.Memory) }
    {
        match Nodes::open(alloc, nodes, passes) {
            Ok((table, owner, all)) => {
                ImageList::furnish(alloc, table, owner, all, nodes, passes)
            }
            Err(NodesError::BadSize { nodes, passes }) => Err(OpenError::BadSize { nodes, passes }),
            Err(NodesError::Memory) => Err(OpenError::Memory),
        }
    }

    // The tokens with their room.
    fn furnish(
        alloc: Global,
        table: Nodes,
        owner: Owner,
        all: Vec<NodePass>,
        nodes: u32,
        passes: u32,
    ) -> Result<(ImageList, Writer, Vec<Pass>), OpenError>
        requires sized { IsSized nodes passes }
        requires opened { IsOpened nodes passes table owner all.items }
        ensures opened { IfOk result (λ r. IsOpenedList nodes passes r.0 r.1 r.2.items) }
        ensures first { IfOk result (λ r. StartsEmpty r.1) }
        ensures memory { IfErr result (λ e. e ≡ OpenError.Memory) }
    {
        let writer = Writer::open(alloc, owner, nodes, passes)?;
        let all = Pass::open_all(alloc, all, nodes)?;
        Ok((ImageList { nodes: table }, writer, all))
    }
}
