ghost use Rattle.tempo.specs.Lawfulness.{tempo_laws};
ghost use Rattle.tempo.specs.Tempo.{tempo};

use crate::beats::Beats;
use crate::span::Span;
use faults::{Cause, LIMIT};
use kinds::{Kind, Tally};

const MOST_TEMPO: u32 = 16777215;

// The kind of tempo elements. It stands over no reel.
#[derive(Clone, Copy)]
pub struct Tempo;

impl Kind for Tempo {
    type Element = Span;

    type Summary = Beats;

    type Atom = u32;

    ghost meaning = { λ _. tempo };

    ghost laws = { λ _. tempo_laws };

    // Refuses with the smallest cause that applies.
    fn make(&self, a: u32, b: u32) -> Result<Span, Cause> {
        if a == 0 {
            return Err(Cause::NoExtent);
        }
        if b == 0 {
            return Err(Cause::NoTempo);
        }
        if b > MOST_TEMPO {
            return Err(Cause::TempoAboveLimit);
        }
        if a > LIMIT {
            return Err(Cause::ExtentAboveLimit);
        }
        Ok(Span { ticks: a, tempo: b })
    }

    fn tell(&self, e: Span) -> (u32, u32) {
        (e.ticks, e.tempo)
    }

    fn extent(&self, e: Span) -> u32 {
        e.ticks
    }

    // Every part of a stretch at one tempo is at that tempo, wherever it lies.
    fn part(&self, e: Span, _d: u32, m: u32) -> Span {
        Span {
            ticks: m,
            tempo: e.tempo,
        }
    }

    fn summary(&self, e: Span) -> Beats {
        Beats {
            ticks: e.ticks,
            units: e.ticks as u64 * e.tempo as u64,
        }
    }

    fn empty(&self) -> Beats {
        Beats::default()
    }

    fn join(&self, s: Beats, t: Beats) -> Beats {
        Beats {
            ticks: s.ticks.saturating_add(t.ticks),
            units: s.units.saturating_add(t.units),
        }
    }

    fn width(&self, s: Beats) -> u32 {
        s.ticks
    }
}

impl Tally for Tempo {
    ghost tallied = { λ _ s. s.units };

    fn tally(&self, s: Beats) -> u64 {
        s.units
    }
}
