ghost use Rattle.std.specs.Prelude.{◌≡◌, IfOk, Some, None, MatchResult};
ghost use Rattle.reels.specs.ByteReels.{byte_samples, samples_in, refusal_in};
ghost use Rattle.reels.specs.Keeps.{byte_reel_keeps};

use crate::mulaw::MuLaw;
use crate::pcm::Pcm;
use crate::reel::Reel;
use faults::ReelFault;

// How bytes mean samples.
#[derive(Clone, Copy, PartialEq, Eq, Debug)]
pub enum Format {
    Pcm,
    MuLaw,
}

// A reel of bytes, in either format.
#[derive(Clone, Copy)]
pub enum ByteReel<'a> {
    Pcm(Pcm<'a>),
    MuLaw(MuLaw<'a>),
}

impl<'a> ByteReel<'a> {
    // Refuses what the format's own reel refuses, and nothing else.
    pub fn new(bytes: &'a [u8], format: Format) -> Result<ByteReel<'a>, ReelFault>
        ensures refusal { MatchResult result (λ _. refusal_in format bytes.now ≡ None) (λ f. refusal_in format bytes.now ≡ Some f) }
        ensures reel { IfOk result (λ r. byte_samples r ≡ samples_in format bytes.now) }
    {
        match format {
            Format::Pcm => Ok(ByteReel::Pcm(Pcm::new(bytes)?)),
            Format::MuLaw => Ok(ByteReel::MuLaw(MuLaw::new(bytes)?)),
        }
    }
}

impl<'a> Reel for ByteReel<'a> {
    ghost samples = { byte_samples };

    ghost bounds = { byte_reel_keeps };

    fn len(&self) -> u32 {
        match self {
            ByteReel::Pcm(reel) => reel.len(),
            ByteReel::MuLaw(reel) => reel.len(),
        }
    }

    fn sample(&self, i: u32) -> Option<i16> {
        match self {
            ByteReel::Pcm(reel) => reel.sample(i),
            ByteReel::MuLaw(reel) => reel.sample(i),
        }
    }

    fn copy_to(&self, start: u32, block: &mut [i16]) -> usize {
        match self {
            ByteReel::Pcm(reel) => reel.copy_to(start, block),
            ByteReel::MuLaw(reel) => reel.copy_to(start, block),
        }
    }
}
