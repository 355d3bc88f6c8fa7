// What is moved, and what is seen of it: `len` atoms from the place `from` on, to the place `to` of what is left, in so
// many columns.
#[derive(Clone, Copy)]
pub struct Shift {
    pub from: u32,
    pub len: u32,
    pub to: u32,
    pub columns: u32,
}
