ghost use Rattle.std.specs.Prelude.{◌≡◌, ◌-◌, min, List, length, ℤ};
ghost use Rattle.std.specs.List.{slice_get};
ghost use Rattle.reels.specs.Samples.{Bounds, Copied};

// A finite list of 16-bit samples, at most 1,073,741,824 of them. Every answer is about that list.
pub trait Reel {
    ghost samples: { Self → List ℤ };

    ghost bounds: { (r : Self) → Bounds (samples r) };

    fn len(&self) -> u32
        ensures { result ≡ length (samples self.now) };

    // The sample at an index, refused exactly where the index is not below the length.
    fn sample(&self, i: u32) -> Option<i16>
        ensures { result ≡ slice_get (samples self.now) i };

    // Copies the samples from `start` on into the block, as many as there are and fit, and says how
    // many; the block beyond stays as found.
    fn copy_to(&self, start: u32, block: &mut [i16]) -> usize
        ensures { Copied (samples self.now) start block.old block.new result }
    {
        for (i, s) in block.iter_mut().enumerate() {
            match self.sample(start + i as u32) {
                Some(sample) => *s = sample,
                None => return i,
            }
        }
        block.len()
    }
}

// How many samples there are from `start` on, of so many, and fit in so much room.
pub(crate) fn fitting(len: u32, start: u32, room: usize) -> usize
    ensures { result ≡ min room (len - start) }
{
    (len.saturating_sub(start) as usize).min(room)
}
