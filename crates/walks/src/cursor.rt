// A cursor over the elements of a range. Its table has the cells whose left children it has gone through, each of them
// under the left child of the one before; the last is the next to give. `offset` is where the next element begins, and
// `left` how many atoms of the range are still to come.
// The table is an array with a depth beside it, and no Path, for a cursor can be copied and a Path cannot.
#[derive(Clone, Copy)]
pub struct Cursor {
    pub(crate) table: [u32; 64],
    pub(crate) depth: usize,
    pub(crate) offset: u32,
    pub(crate) left: u32,
}
