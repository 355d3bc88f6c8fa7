// What is done with a whole reel, whichever it is.
ghost use Rattle.std.specs.Prelude.{◌≡◌};
ghost use Rattle.reels.specs.Samples.{Written};
ghost use Rattle.speed.specs.Piles.{held_by};
ghost use Rattle.speed.specs.Summaries.{levels_of_samples, told};

use crate::summary::Summary;
use audio::{Audio, Levels};
use faults::ReelFault;
use kinds::Kind;
use reels::{Reel, write_out};

pub(crate) fn summary_of<R: Reel + Copy>(reel: Result<R, ReelFault>) -> Summary
    ensures { result ≡ told (levels_of_samples (held_by R.Reel.samples reel)) }
{
    let levels = match reel {
        Ok(reel) => levels_of(reel),
        Err(_) => Levels::default(),
    };
    Summary::from(levels)
}

pub(crate) fn written_of<R: Reel + Copy>(reel: Result<R, ReelFault>, out: &mut [u8]) -> usize
    ensures { Written (held_by R.Reel.samples reel) 0 out.old out.new result }
{
    match reel {
        Ok(reel) => write_out(&reel, 0, out),
        Err(_) => 0,
    }
}

// The levels of all samples of the reel: of the element that is the whole reel, if it has a frame.
fn levels_of<R: Reel + Copy>(reel: R) -> Levels
    ensures { result ≡ levels_of_samples (R.Reel.samples reel) }
{
    let frames = reel.len();
    let kind = Audio::new(reel);
    match kind.make(0, frames) {
        Ok(all) => kind.summary(all),
        Err(_) => kind.empty(),
    }
}
