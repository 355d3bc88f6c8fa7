ghost use Rattle.std.specs.Prelude.{◌≡◌, ◌*◌, ◌<◌, pos, ◌-ℤ◌};

use audio::Levels;
use profile::wave_row;
use std::io;
use std::io::Write;

// A row of a waveform is a band of 4,096 sample values, and sixteen of them are the range of a sample.
const ROWS: u16 = 16;

const BAND: i32 = 4096;

// The lowest and the highest sample value of a row, counted from the top.
pub fn band_of(row: u16) -> (i16, i16)
    requires { row < 16 }
    ensures low { result.0 ≡ pos 28672 -ℤ pos (row * 4096) }
    ensures high { result.1 ≡ pos 32767 -ℤ pos (row * 4096) }
{
    let high = 32767 - row as i32 * BAND;
    ((high - BAND + 1) as i16, high as i16)
}

// Prints a waveform, a row after the other.
pub fn print_wave(rt: &(impl Print + AllocGlobal), columns: &[Levels]) -> anyhow::Result<()> {
    for row in 0..ROWS {
        let (low, high) = band_of(row);
        let marks = wave_row(rt.alloc(), columns, low, high)?;
        io::writer(rt).write_all(marks.as_slice())?;
        println!(rt; "|")?;
    }
    Ok(())
}
