// survey: length, levels and waveform of a reel, through layers, and its samples as raw PCM.
#![tactic(auto)]

mod options;

use anyhow::anyhow;
use audio::{Audio, Levels};
use options::{Options, Source, parse};
use profile::{SurveyFault, survey_of, time_of};
use reels::{ByteReel, Gain, Joined, Reel, write_out};
use std::fs;
use terminal::{called_with, print_wave, read};

const HELP: &str = "survey: length, levels and waveform of a reel

  survey [OPTIONS] FILE

FILE is a raw reel at 48,000 frames a second: 16-bit PCM, low byte first.

  --mulaw            FILE is mu-law (ITU-T G.711), one byte a sample
  --join FILE        a second PCM reel follows the first
  --join-mulaw FILE  a second reel, mu-law, follows the first
  --gain N           each sample times N / 256, rounded down, held within 16 bits (0 to 65535)
  --columns N        columns of the waveform, 1 to 200 (64)
  --write OUT        write the samples as raw PCM to OUT
  --help             this text";

fn main(rt: HostRuntime) -> anyhow::Result<()> {
    run(&rt)
}

fn run(rt: &HostRuntime) -> anyhow::Result<()> {
    let words = called_with(rt)?;
    match parse(words.as_slice())? {
        Some(options) => with_reels(rt, &options),
        None => {
            rt.println(HELP)?;
            Ok(())
        }
    }
}

fn with_reels(rt: &HostRuntime, options: &Options<'_>) -> anyhow::Result<()> {
    let bytes = read(rt, options.first.path)?;
    let first = reel_of(options.first, bytes.as_slice())?;
    match options.chosen.second {
        None => with_gain(rt, options, first),
        Some(source) => {
            let bytes = read(rt, source.path)?;
            let second = reel_of(source, bytes.as_slice())?;
            with_gain(rt, options, Joined::new(first, second))
        }
    }
}

// The file's bytes as a reel, or an error that names the file, with the refusal's number.
fn reel_of<'a>(source: Source<'_>, bytes: &'a [u8]) -> anyhow::Result<ByteReel<'a>> {
    let Source { path, format } = source;
    ByteReel::new(bytes, format).map_err(|f| {
        let number = f.number();
        anyhow!("{path}: refused with {number}: {f}")
    })
}

fn with_gain<R: Reel + Copy>(
    rt: &HostRuntime,
    options: &Options<'_>,
    reel: R,
) -> anyhow::Result<()> {
    match options.chosen.gain {
        None => finish(rt, options, reel),
        Some(n) => finish(rt, options, Gain::new(reel, n)),
    }
}

fn finish<R: Reel + Copy>(rt: &HostRuntime, options: &Options<'_>, reel: R) -> anyhow::Result<()> {
    print_report(rt, reel, options.chosen.columns)?;
    if let Some(path) = options.chosen.out {
        save(rt, reel, path)?;
        println!(rt; "wrote    {path}")?;
    }
    Ok(())
}

// Length, levels and waveform.
fn print_report<R: Reel + Copy>(rt: &HostRuntime, reel: R, columns: u32) -> anyhow::Result<()> {
    let frames = reel.len();
    let time = time_of(frames);
    println!(rt; "frames   {frames}")?;
    println!(rt; "length   {time}")?;
    if frames == 0 {
        return Ok(());
    }
    match survey_of(rt.alloc(), &Audio::new(reel), 0, frames, columns) {
        Ok(survey) => {
            print_levels(rt, survey.whole)?;
            print_wave(rt, survey.columns.as_slice())
        }
        Err(SurveyFault::NoMemory) => Err(anyhow!("memory is wanting")),
        Err(_) => Err(anyhow!("the reel changed while it was read")),
    }
}

fn print_levels(rt: &HostRuntime, levels: Levels) -> anyhow::Result<()> {
    let Levels {
        low,
        high,
        clipped,
        ..
    } = levels;
    println!(rt; "lowest   {low}")?;
    println!(rt; "highest  {high}")?;
    println!(rt; "clipped  {clipped}")?;
    Ok(())
}

// Writes the samples as raw PCM: into a file beside it first, so that no half-written file has the
// name asked for.
fn save<R: Reel>(rt: &HostRuntime, reel: R, path: &str) -> anyhow::Result<()>
where
    R: Drop,
{
    let mut bytes = vec![in rt.alloc(); 0u8; 2 * reel.len() as usize]?;
    write_out(&reel, 0, bytes.as_mut_slice());
    let part = format!(in rt.alloc(); "{path}.part")?;
    if let Err(e) = fs::write(rt, part.as_str(), bytes.as_slice()) {
        let _ = fs::remove_file(rt, part.as_str());
        return Err(anyhow!("{path}: not written: {e}"));
    }
    fs::rename(rt, part.as_str(), path).map_err(|e| anyhow!("{path}: not written: {e}"))
}
