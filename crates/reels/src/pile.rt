ghost use Rattle.std.specs.Prelude.{◌≡◌, IfOk, Some, None, MatchResult};
ghost use Rattle.reels.specs.Piles.{pile, pile_refusal};

use crate::gain::Gain;
use crate::joined::Joined;
use crate::mulaw::MuLaw;
use crate::pcm::Pcm;
use crate::reel::Reel;
use faults::ReelFault;

// PCM and mu-law joined, under a gain.
pub type Pile<'a> = Gain<Joined<Pcm<'a>, MuLaw<'a>>>;

// The pile over PCM bytes and mu-law bytes at a gain of n / 256. Refuses what is no PCM reel, then what is no
// mu-law reel, and nothing else.
pub fn piled<'a>(first: &'a [u8], second: &'a [u8], n: u16) -> Result<Pile<'a>, ReelFault>
    ensures refusal { MatchResult result (λ _. pile_refusal first.now second.now ≡ None) (λ f. pile_refusal first.now second.now ≡ Some f) }
    ensures reel { IfOk result (λ p. ⟦<Pile<'a> as Reel>⟧.samples p ≡ pile first.now second.now n) }
{
    let pcm = Pcm::new(first)?;
    let mulaw = MuLaw::new(second)?;
    Ok(Gain::new(Joined::new(pcm, mulaw), n))
}
