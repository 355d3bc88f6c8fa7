use crate::cell::Cell;
use crate::pool::Pool;
use kinds::Kind;

// The cells that a caller lends for trees of a kind, and the pool of free ones. It has no model and no invariant: behind a
// model a caller never learns what its cells hold in the end, and which roots own them is for each call to say.
#[derive(Drop)]
pub struct Store<'a, K: Kind> {
    pub kind: &'a K,
    pub cells: &'a mut [Cell<K::Element, K::Summary>],
    pub pool: Pool,
}
