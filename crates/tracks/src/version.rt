// What is told of a version: how many elements it has, its extent, and how many cells it took to make it.
#[derive(Clone, Copy)]
pub struct Version {
    pub elements: u32,
    pub extent: u32,
    pub took: u32,
}

// A track, the same without a range, and with the range put in elsewhere; how many elements the range has, the columns of
// the last, and how many cells are free in the end.
#[derive(Drop)]
pub struct Rearranged<S> {
    pub laid: Version,
    pub cut: Version,
    pub clip: u32,
    pub moved: Version,
    pub columns: Vec<S>,
    pub free: u32,
}

// The root of a version, and how many cells it took.
#[derive(Clone, Copy)]
pub struct Made {
    pub root: u32,
    pub took: u32,
}

// Those versions and the root of the range, while all are kept.
#[derive(Clone, Copy)]
pub struct Versions {
    pub laid: Made,
    pub left: Made,
    pub range: u32,
    pub moved: Made,
}
