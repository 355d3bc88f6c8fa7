// A tempo element: so many ticks at a tempo in microseconds a beat. Only the kind makes one.
#[derive(Clone, Copy, PartialEq, Eq, Debug)]
pub struct Span {
    pub(crate) ticks: u32,
    pub(crate) tempo: u32,
}
