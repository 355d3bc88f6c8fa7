use arrayvec::ArrayVec;

// Numbers of cells, on a way through a tree: fixed memory, for no tree has so many levels.
pub type Path = ArrayVec<u32, 64>;
