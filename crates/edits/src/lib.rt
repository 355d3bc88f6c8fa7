// What edits do with the lists of a track, over cells: an element by itself, putting in, copying and cutting out. The roots
// that are asked of are lent: they stay owned, and their lists stay. What is made is the caller's.
#![tactic(auto)]

mod editing;
mod extents;
mod removal;

pub use editing::{copy, cut, insert, put, single};
pub use extents::extent_at;
pub use removal::Removal;
