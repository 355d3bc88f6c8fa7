// The most atoms of an element and of a track, and the most samples of a reel.
pub const LIMIT: u32 = 1073741824;
