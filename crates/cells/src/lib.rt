// Trees in cells. The caller lends a slice of cells; versions of a list share them, and a cell counts the links that name
// it. What is reached from an owned root is never written; what none reaches is free, and used again.
#![tactic(auto)]

mod cell;
mod item;
mod making;
mod owning;
mod path;
mod pool;
mod read;
mod releasing;
mod starting;
mod store;

pub use cell::{Cell, NONE};
pub use item::Item;
pub use path::Path;
pub use pool::Pool;
pub use read::{cell_at, count_at, summary_at};
pub use releasing::free;
pub use store::Store;
