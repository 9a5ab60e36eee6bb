//! What a pass of the queue knows.
use crate::lines::ChangeLine;
use crate::turn::Part;
use plcr_imagelist::ImageList;
use std::collections::LinkedList;

/// Whose pass it is.
#[derive(Clone, Copy, Debug, PartialEq, Eq)]
pub enum Role {
    /// The queue was just made, and holds no turn yet.
    Fresh,
    /// It hands passes out to workers and takes them in again.
    Chief,
    /// It is a worker's, who has a script at least.
    Worker,
    /// It was taken in, and says nothing any more.
    Spent,
}

/// A script that belongs to a pass, and how far it has come.
pub struct Share {
    pub script: u32,
    pub part: Part,
}

/// The journal and the progress that a turn had when it was popped.
pub struct Face {
    pub journal: LinkedList<ChangeLine>,
    pub parts: LinkedList<Part>,
}

/// What a pass knows. No value of it is made.
pub struct View {
    pub role: Role,
    /// The image list whose writer the turn has, once there is a turn.
    pub list: Option<ImageList>,
    /// How many nodes and passes that list has.
    pub nodes: u32,
    pub passes: u32,
    /// How many scripts there are.
    pub count: u32,
    /// The journal as the pass last saw it.
    pub journal: LinkedList<ChangeLine>,
    /// The journals of the views that it took in.
    pub joined: LinkedList<LinkedList<ChangeLine>>,
    /// The scripts that belong to it.
    pub shares: LinkedList<Share>,
    /// While it has the turn, what the turn had when it was popped.
    pub turn: Option<Face>,
}
