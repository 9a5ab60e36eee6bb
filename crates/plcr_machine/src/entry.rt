//! What happens to an image list, one entry after the other.

/// One entry of a history. Pass numbers count from 0, nodes and loads from 1.
#[derive(Clone, Copy, Debug, PartialEq, Eq)]
pub enum Entry {
    /// The pass of this number announced that it may go in, and that it had seen so many counts.
    Announce { pass: u32, seen: u32 },
    /// The pass of this number went in.
    Enter(u32),
    /// The pass of this number came out.
    Leave(u32),
    /// The pass of this number took its announcement back.
    Retire(u32),
    /// An image was put at the end of the list: its node, the number of its load and the address of
    /// its header.
    Load { node: u32, load: u32, header: u64 },
    /// The image on this node was taken from the list.
    Unload { node: u32 },
    /// A change was counted.
    Count,
    /// The stamp of a pass was looked at: 0, or 1 more than the number of counts that the pass
    /// announced.
    Look { pass: u32, stamp: u64 },
}
