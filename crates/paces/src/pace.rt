// What a run tells: a sum over what was found, by which two runs can be compared, and how many cells are free at the end.
#[repr(C)]
#[derive(Clone, Copy)]
pub struct Pace {
    pub sum: u64,
    pub free: u32,
}
