// Taking trees over cells apart at places, and putting them together: all by links, up the paths that a walk filled.
// The tree that is taken apart stays as it is; what is made shares its cells.
#![tactic(auto)]

mod joining;
mod loosening;
mod parting;
mod regrowing;
mod siding;
mod split;

pub use cells::NONE;
pub use joining::{join, merge};
pub use parting::{part, part_behind, part_rest};
pub use split::{Loose, Split};
