// What a cut leaves, and what it takes out: two roots.
#[derive(Clone, Copy)]
pub struct Removal {
    pub left: u32,
    pub taken: u32,
}
