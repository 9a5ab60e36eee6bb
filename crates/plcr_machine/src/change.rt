//! Changes of an image list as the one who asks for them names them: by headers and names, and not
//! by nodes.

use std::collections::LinkedList;

/// An image with its name: the number of its load, the address of its header, and the bytes of its
/// name.
#[derive(Debug, PartialEq, Eq, Drop)]
pub struct Named {
    pub load: u32,
    pub header: u64,
    pub name: LinkedList<u8>,
}

/// A change of an image list.
#[derive(Debug, PartialEq, Eq, Drop)]
pub enum Change {
    /// This image was put at the end of the list.
    Loads(Named),
    /// The first image of the list with this header was taken from it.
    Unloads(u64),
}
