// Linking in cells: two trees and an item between them become one balanced tree, by loops over a path of cell numbers.
// Each step is written once, for trees as they are and for their mirror images. They are functions over a store, since a
// crate adds no methods to the type of another.
#![tactic(auto)]

mod climbing;
mod facing;
mod hanging;
mod linking;
mod opening;
mod parts;
mod rebalancing;
mod rotating;
mod sinking;

pub use facing::far_of;
pub use linking::link;
