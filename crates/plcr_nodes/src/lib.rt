//! A table of nodes that holds a linked list of loaded images. One owner changes it in single
//! atomic steps while passes walk it, without a lock. `docs/image-list.md` has the picture of the
//! words and the rule.
#![tactic(auto)]

mod counting;
mod laws;
mod nodes;
mod owner;
mod pass;
mod plays;
mod stamps;
mod telling;
#[cfg(test)]
mod telling_tests;
#[cfg(test)]
mod tests;
mod unlinking;
mod view;
mod words;

pub use laws::{owners_know_the_list, passes_keep_their_reach};
pub use nodes::{Nodes, NodesError};
pub use owner::Owner;
pub use pass::NodePass;
pub use telling::NodeNote;
pub use view::{Heard, OneHistory, Sizes, Store, View};
pub use words::{NODE_WORDS, PAYLOAD_WORDS, STAMP_SPACING};
