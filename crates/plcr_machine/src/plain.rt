//! Plain, slow programs whose contracts are the definitions, and which compute these on small
//! histories. A history and a list of changes stand here with the oldest first.

mod changes;
mod histories;
mod lists;
mod nodes;
mod passes;
mod walks;

pub use changes::lists_after;
pub use histories::{is_legal, may_follow};
pub use lists::{images, loads};
pub use nodes::{
    counts_before, is_cleared, is_free, is_let_go, is_listed, is_new, is_removed, lets_go,
};
pub use passes::{counts, is_announced, is_inside, seen_by, stamp_of};
pub use walks::{follow, is_lawful_walk};
