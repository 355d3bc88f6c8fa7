// Tracks: pieces laid one behind the other as a balanced tree over lent cells; ranges taken out and put in; columns of a tree.
#![tactic(auto)]

mod columns;
mod filling;
mod laying;
mod moving;
mod piece;
mod pile;
mod rearranging;
mod shift;
mod version;

pub use columns::{columns_of, stretch};
pub use filling::blank;
pub use laying::{lay, lay_all};
pub use moving::{put_in, take_out};
pub use piece::{Laid, Piece};
pub use pile::{rearrange_pile, rearrange_tempo};
pub use rearranging::rearrange;
pub use shift::Shift;
pub use version::{Rearranged, Version};
