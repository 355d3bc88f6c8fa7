// A tree taken apart at a place.

// The first element behind the place, which belongs to no cell yet, and the root of what lies behind it. Its own summary
// is there if a cell had it; else it is asked for once it is linked, if it ever is.
#[derive(Clone, Copy)]
pub struct Loose<E, S> {
    pub element: E,
    pub own: Option<S>,
    pub root: u32,
}

#[derive(Clone, Copy)]
pub struct Split<E, S> {
    pub before: u32,
    pub loose: Option<Loose<E, S>>,
}
