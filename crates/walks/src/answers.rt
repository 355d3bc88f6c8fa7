// What walks answer.

// The cell that holds a place and the offset of the place in its element.
#[derive(Clone, Copy)]
pub struct Found {
    pub cell: u32,
    pub offset: u32,
}

// The two numbers of the element that holds a place, the offset of the place in it, and how many cells lead there.
#[derive(Clone, Copy)]
pub struct Reading {
    pub first: u32,
    pub second: u32,
    pub offset: u32,
    pub count: u32,
}

// The place that a tally was found at, and how many cells lead there.
#[derive(Clone, Copy)]
pub struct Located {
    pub place: u32,
    pub count: u32,
}

// The cell at which a range parts, some of it at the cell's own element or on both sides; and where in the tree under the
// cell the range begins: no `Found`, whose offset lies in the element.
#[derive(Clone, Copy)]
pub struct Fork {
    pub cell: u32,
    pub from: u32,
}
