// The rearrangement at audio over a pile of layers, and at tempo.
ghost use Rattle.std.specs.Prelude.{length, MatchResult};
ghost use Rattle.audio.specs.Audio.{audio};
ghost use Rattle.tempo.specs.Tempo.{tempo};
ghost use Rattle.reels.specs.Piles.{pile, pile_refusal};
ghost use Rattle.tracks.specs.Moving.{NotRearranged, NotOver, Rearranges};

use crate::piece::Piece;
use crate::rearranging::rearrange;
use crate::shift::Shift;
use crate::version::Rearranged;
use audio::{Audio, Clip, Levels};
use cells::Cell;
use profile::SurveyFault;
use reels::piled;
use std::alloc::Global;
use tempo::{Beats, Span, Tempo};

// A track over a PCM reel and a mu-law reel, joined, under a gain.
pub fn rearrange_pile(
    alloc: Global,
    cells: &mut [Cell<Clip, Levels>],
    first: &[u8],
    second: &[u8],
    gain: u16,
    pieces: &[Piece],
    shift: Shift,
) -> Result<Rearranged<Levels>, SurveyFault>
    ensures { MatchResult result
        (Rearranges (audio (pile first.now second.now gain)) pieces.now shift (length cells.old))
        (NotOver (pile_refusal first.now second.now)
        (NotRearranged (audio (pile first.now second.now gain)) (length cells.old) pieces.now shift)) }
{
    let kind = Audio::new(piled(first, second, gain)?);
    rearrange(alloc, &kind, cells, pieces, shift)
}

// A track of tempos.
pub fn rearrange_tempo(
    alloc: Global,
    cells: &mut [Cell<Span, Beats>],
    pieces: &[Piece],
    shift: Shift,
) -> Result<Rearranged<Beats>, SurveyFault>
    ensures { MatchResult result
        (Rearranges tempo pieces.now shift (length cells.old))
        (NotRearranged tempo (length cells.old) pieces.now shift) }
{
    rearrange(alloc, &Tempo, cells, pieces, shift)
}
