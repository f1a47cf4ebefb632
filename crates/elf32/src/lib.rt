//! Programs as ELF32 files: loading a file, with the least-numbered fault if it is refused, and writing the file of an
//! assembled program.
#![tactic(auto)]

mod base_pages;
pub mod bytes;
mod error;
pub mod extent;
mod header;
mod header_faults;
mod image;
mod page_place;
mod reading;
mod rights;
mod segment;
mod segment_faults;
mod table;
mod words;
mod writing;

pub use base_pages::{BasePages, Page};
pub use error::ElfError;
pub use image::Image;
pub use page_place::PagePlace;
pub use reading::load;
pub use segment::{Content, Rights, Segment};
pub use words::{PlacedWord, words_ascend, words_stand_in_segments};
pub use writing::{file_loads, write};
