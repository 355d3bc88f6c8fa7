ghost use Rattle.std.specs.Prelude.{◌≡◌, map, IfOk};
ghost use Rattle.profile.specs.Wave.{reaches, mark};

use audio::Levels;
use std::alloc::{AllocError, Global};

// Do the levels of a column reach the band from `low` to `high`? The two stay numbers of their own: so do the clauses
// name them, and a struct of both would be taken apart in each.
pub fn reaches_band(l: Levels, low: i16, high: i16) -> bool
    ensures { result ≡ reaches low high l }
{
    l.frames > 0 && l.low <= high && l.high >= low
}

// One row of a waveform, as ASCII bytes: a mark for each column that reaches the band.
pub fn wave_row(
    alloc: Global,
    columns: &[Levels],
    low: i16,
    high: i16,
) -> Result<Vec<u8>, AllocError>
    ensures { IfOk result (λ v. v.items ≡ map (mark low high) columns.now) }
{
    columns
        .iter()
        .map(|l| mark_of(*l, low, high))
        .collect(alloc)
}

fn mark_of(l: Levels, low: i16, high: i16) -> u8
    ensures { result ≡ mark low high l }
{
    if reaches_band(l, low, high) {
        b'#'
    } else {
        b' '
    }
}
