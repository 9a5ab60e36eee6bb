//! An image in the list.

/// An image in the list: the node that it stands on, the number of its load and the address of its
/// header.
#[derive(Clone, Copy, Debug, PartialEq, Eq)]
pub struct Image {
    pub node: u32,
    pub load: u32,
    pub header: u64,
}
