// The C functions: for each of four piles of layers, its levels and its samples as bytes. Writing
// says how many samples were written; the bytes beyond stay as found. They are eight, since a C
// function has no type parameter.
ghost use Rattle.std.specs.Prelude.{◌≡◌};
ghost use Rattle.reels.specs.Samples.{Written};
ghost use Rattle.speed.specs.Piles.{held_by, pcm_pile, mu_law_pile, gain_pile, joined_pile};
ghost use Rattle.speed.specs.Summaries.{levels_of_samples, told};

use crate::summary::Summary;
use crate::whole::{summary_of, written_of};
use faults::ReelFault;
use reels::{Gain, MuLaw, Pcm, Reel, piled};

#[unsafe(no_mangle)]
pub extern "C" fn speed_summary_pcm(bytes: &[u8]) -> Summary
    ensures { result ≡ told (levels_of_samples (pcm_pile bytes.now)) }
{
    summary_of(Pcm::new(bytes))
}

#[unsafe(no_mangle)]
pub extern "C" fn speed_write_pcm(bytes: &[u8], out: &mut [u8]) -> usize
    ensures { Written (pcm_pile bytes.now) 0 out.old out.new result }
{
    written_of(Pcm::new(bytes), out)
}

#[unsafe(no_mangle)]
pub extern "C" fn speed_summary_mulaw(bytes: &[u8]) -> Summary
    ensures { result ≡ told (levels_of_samples (mu_law_pile bytes.now)) }
{
    summary_of(MuLaw::new(bytes))
}

#[unsafe(no_mangle)]
pub extern "C" fn speed_write_mulaw(bytes: &[u8], out: &mut [u8]) -> usize
    ensures { Written (mu_law_pile bytes.now) 0 out.old out.new result }
{
    written_of(MuLaw::new(bytes), out)
}

#[unsafe(no_mangle)]
pub extern "C" fn speed_summary_gain(bytes: &[u8], n: u16) -> Summary
    ensures { result ≡ told (levels_of_samples (gain_pile bytes.now n)) }
{
    summary_of(gained(bytes, n))
}

#[unsafe(no_mangle)]
pub extern "C" fn speed_write_gain(bytes: &[u8], n: u16, out: &mut [u8]) -> usize
    ensures { Written (gain_pile bytes.now n) 0 out.old out.new result }
{
    written_of(gained(bytes, n), out)
}

#[unsafe(no_mangle)]
pub extern "C" fn speed_summary_pile(first: &[u8], second: &[u8], n: u16) -> Summary
    ensures { result ≡ told (levels_of_samples (joined_pile first.now second.now n)) }
{
    summary_of(piled(first, second, n))
}

#[unsafe(no_mangle)]
pub extern "C" fn speed_write_pile(first: &[u8], second: &[u8], n: u16, out: &mut [u8]) -> usize
    ensures { Written (joined_pile first.now second.now n) 0 out.old out.new result }
{
    written_of(piled(first, second, n), out)
}

// PCM under a gain.
fn gained<'a>(bytes: &'a [u8], n: u16) -> Result<Gain<Pcm<'a>>, ReelFault>
    ensures { held_by ⟦<Gain<Pcm<'a>> as Reel>⟧.samples result ≡ gain_pile bytes.now n }
{
    Ok(Gain::new(Pcm::new(bytes)?, n))
}
