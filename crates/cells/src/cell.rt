// A cell: one element of a tree, with its children, and what is known of all that lies under it. A child is the number of
// a cell; any number that is no index of the slice stands for none.
#[derive(Clone, Copy)]
pub struct Cell<E, S> {
    pub element: E,
    // The element's own summary, kept so that a copy of the cell does not ask for it again.
    pub own: S,
    pub left: u32,
    pub right: u32,
    // How many elements lie under the cell, its own among them, and their summary in order.
    pub count: u32,
    pub summary: S,
    // How many links name the cell; 0 exactly for a free one.
    pub refs: u32,
}

// The link that names no cell: the root of an empty tree. No session has so many cells. It is a number and no Option, since
// cells are lent with any content: a link may always name no cell, and one test of its range tells both.
pub const NONE: u32 = u32::MAX;
