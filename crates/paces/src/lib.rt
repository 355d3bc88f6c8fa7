// Work on tracks as one C function, for the benchmark: a track of many elements is built over PCM bytes, and then the same
// thing is done with it again and again. Whatever was asked, every cell is free at the end.
#![tactic(auto)]

mod entry;
mod pace;
mod places;
mod rounds;
mod work;

pub use entry::pace_of;
pub use pace::Pace;
pub use work::{NoWork, Work};
