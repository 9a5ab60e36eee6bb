//! Mach-O images as they lie in the memory of a process, and lists of loaded images.
#![tactic(auto)]

#[cfg(test)]
mod fixtures;
mod gain;
mod header;
mod image;
mod images;
#[cfg(test)]
mod index_tests;
mod kept;
mod laws;
mod list;
#[cfg(test)]
mod list_tests;
mod parsing;
mod search;
mod sections;
mod segment;
mod source;
mod spot;
mod spots;
mod standing;
mod tables;
mod window;

pub use image::{Image, ImageFault, Part, Symtab};
pub use images::Images;
pub use laws::{images_hold, images_lie, indexes_tell};
pub use list::{ListImages, PlainImage};
pub use parsing::parse;
pub use search::containing;
pub use spot::Spot;
pub use spots::{locate_in, put_spot, settle};

#[cfg(test)]
mod tests;
