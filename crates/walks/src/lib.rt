// Walks over trees in cells: to a place, to a tally, over a range. They read the lent cells and change none. A walk is a
// loop; what it passed stands in paths of cell numbers.
#![tactic(auto)]

mod answers;
mod cursor;
mod places;
mod ranges;
mod rounds;
mod tallies;
mod view;

pub use answers::{Found, Located, Reading};
pub use cursor::Cursor;
pub use view::View;
