// An audio element: so many frames of a reel from `start` on. Only the kind makes one.
#[derive(Clone, Copy, PartialEq, Eq, Debug)]
pub struct Clip {
    pub(crate) start: u32,
    pub(crate) frames: u32,
}
