// splice: pieces of a reel as a track, a range of it moved, and the waveform of the result, drawn from the tree.
#![tactic(auto)]

mod options;

use anyhow::{Context, anyhow};
use audio::{Audio, Clip, Levels};
use faults::SessionFault;
use kinds::Kind;
use options::{Options, parse};
use profile::{SurveyFault, time_of};
use reels::{Gain, Joined, MuLaw, Pcm};
use terminal::{called_with, print_wave, read};
use tracks::{Rearranged, Version, blank, rearrange};

const CELLS: usize = 8192;

const HELP: &str = "splice: pieces of a reel as a track, with a range of it moved

  splice [OPTIONS] --piece START+FRAMES .. --move FROM+LEN@TO FILE

FILE is a raw reel at 48,000 frames a second: 16-bit PCM, low byte first.

  --join-mulaw FILE     a second reel, mu-law (ITU-T G.711), follows the first
  --gain N              each sample times N / 256, rounded down, held within 16 bits (256)
  --piece START+FRAMES  so many frames of the reel from START on are laid behind what was laid before
  --move FROM+LEN@TO    LEN frames of the track from FROM on are taken out, and put in at TO of what is left
  --columns N           columns of the waveform, 1 to 200 (64)
  --help                this text

Each version is told with its elements, its length, the cells that it took and those that it shares with the versions
before it; all three are kept until the end.";

fn main(rt: HostRuntime) -> anyhow::Result<()> {
    run(&rt)
}

fn run(rt: &HostRuntime) -> anyhow::Result<()> {
    let words = called_with(rt)?;
    match parse(rt.alloc(), words.as_slice())? {
        Some(options) => with_reels(rt, &options),
        None => {
            rt.println(HELP)?;
            Ok(())
        }
    }
}

// The bytes of a file, and none where none is named.
fn bytes_of(rt: &HostRuntime, path: Option<&str>) -> anyhow::Result<Vec<u8>> {
    match path {
        None => Ok(Vec::new(rt.alloc())),
        Some(path) => read(rt, path),
    }
}

// The pile is not made at once, since each file has a message of its own.
fn with_reels(rt: &HostRuntime, options: &Options<'_>) -> anyhow::Result<()> {
    let first = bytes_of(rt, options.chosen.first)?;
    let second = bytes_of(rt, options.chosen.second)?;
    let pcm = Pcm::new(first.as_slice()).map_err(|_| anyhow!("the file is no PCM reel"))?;
    let mulaw = MuLaw::new(second.as_slice()).map_err(|_| anyhow!(
        "the second file is too long for a reel"
    ))?;
    let kind = Audio::new(Gain::new(Joined::new(pcm, mulaw), options.chosen.gain));
    let piece = options
        .pieces
        .first()
        .context("no piece is named; --help tells how")?;
    let element = kind
        .make(piece.first, piece.second)
        .map_err(|cause| refused(SessionFault::from(cause)))?;
    splice(rt, options, &kind, element)
}

// Lays and moves, over cells of its own. What they hold at first does not matter.
fn splice<K: Kind<Element = Clip, Summary = Levels>>(
    rt: &HostRuntime,
    options: &Options<'_>,
    kind: &K,
    element: Clip,
) -> anyhow::Result<()> {
    let mut cells = vec![in rt.alloc(); blank(kind, element); CELLS]?;
    let r = rearrange(
        rt.alloc(),
        kind,
        cells.as_mut_slice(),
        options.pieces.as_slice(),
        options.chosen.shift,
    )
    .map_err(|fault| match fault {
        SurveyFault::Session(fault) => refused(fault),
        _ => anyhow!("memory is wanting"),
    })?;
    print_versions(rt, &r)
}

// A refusal, with its number and the cause inside it.
fn refused(fault: SessionFault) -> anyhow::Error {
    let number = fault.number();
    let cause = fault.cause();
    anyhow!("refused with {number}, cause {cause}")
}

fn print_versions(rt: &HostRuntime, r: &Rearranged<Levels>) -> anyhow::Result<()> {
    print_version(rt, "laid ", r.laid, 0)?;
    print_version(rt, "cut  ", r.cut, r.clip)?;
    print_version(rt, "moved", r.moved, 0)?;
    print_wave(rt, r.columns.as_slice())?;
    let free = r.free;
    println!(rt; "free     {free} of {CELLS} cells")?;
    Ok(())
}

// A version; a cut also makes the list of what was taken out, of so many elements.
fn print_version(rt: &HostRuntime, name: &str, v: Version, beside: u32) -> anyhow::Result<()> {
    let elements = v.elements;
    let time = time_of(v.extent);
    let took = v.took;
    let shares = elements.saturating_add(beside).saturating_sub(took);
    println!(rt; "{name}    {elements} elements, {time}, took {took} cells, shares {shares}")?;
    Ok(())
}
