// The generic functions at audio over a pile of layers, and at tempo.
ghost use Rattle.std.specs.Prelude.{◌≡◌, ◌*◌, IfOk};
ghost use Rattle.tempo.specs.Tempo.{tempo, span_made, beats};
ghost use Rattle.profile.specs.Columns.{summary_of};
ghost use Rattle.profile.specs.Piles.{pile_levels};

use crate::columns::measure;
use crate::fault::SurveyFault;
use audio::{Audio, Levels};
use faults::SessionFault;
use reels::piled;
use tempo::{Beats, Tempo};

// The levels of a stretch of a PCM reel and a mu-law reel, joined, under a gain.
pub fn levels_of_pile(
    first: &[u8],
    second: &[u8],
    n: u16,
    start: u32,
    frames: u32,
) -> Result<Levels, SurveyFault>
    ensures { result ≡ pile_levels first.now second.now n start frames }
{
    let kind = Audio::new(piled(first, second, n)?);
    Ok(measure(&kind, start, frames)?)
}

// The beats of so many ticks at a tempo.
pub fn beats_of(ticks: u32, quarter: u32) -> Result<Beats, SessionFault>
    ensures answer { result ≡ summary_of tempo (span_made ticks quarter) }
    ensures sum { IfOk result (λ b. b ≡ beats ticks (ticks * quarter)) }
{
    measure(&Tempo, ticks, quarter)
}
