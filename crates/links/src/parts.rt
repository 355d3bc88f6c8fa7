use cells::Item;

// A cell taken apart: what it holds, and its children as seen from one side.
#[derive(Clone, Copy)]
pub struct Parts<E, S> {
    pub near: u32,
    pub item: Item<E, S>,
    pub far: u32,
}
