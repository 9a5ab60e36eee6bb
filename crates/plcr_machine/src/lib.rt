//! The one history of an image list: which entries may follow one another, which list of images
//! stands after each change, which nodes are free, and what a walk through the list meets.
//! Everything here is about lists of entries; no table of words is in sight.
#![tactic(auto)]

mod change;
mod change_laws;
mod entry;
mod event_laws;
mod image;
mod laws;
mod limits;
pub mod plain;

pub use change::{Change, Named};
pub use change_laws::{
    before_enter_stays, changes_leave_the_lists, each_entry_has_one_maker, ended_walks_stay,
    met_finds_nobody, met_were_listed, nodes_are_counted, numbers_grow, walks_know_no_nodes,
};
pub use entry::Entry;
pub use event_laws::{events_are_added, events_tell, held_is_waiting};
pub use image::Image;
pub use laws::{
    ended_walk_is_lawful, freed_in_order, full_when_none_is_free, inside_is_announced,
    legal_is_kept, links_follow, lists_stay, one_link_changes, paced_prefixes, stale_links_lead_on,
    worked_examples,
};
pub use limits::{COUNT_UNIT, MOST_CHANGES, MOST_NODES, MOST_PASSES};

#[cfg(test)]
mod tests;
