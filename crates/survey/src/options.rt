ghost use Rattle.std.specs.Prelude.{◌≤◌, IfSome, IfOk};

use anyhow::{Context, anyhow};
use reels::Format;
use terminal::{number, value};

#[derive(Clone, Copy)]
pub struct Source<'a> {
    pub path: &'a str,
    pub format: Format,
}

// What is asked for on the command line.
#[derive(Clone, Copy)]
pub struct Options<'a> {
    pub first: Source<'a>,
    pub chosen: Chosen<'a>,
}

// The options that have a value. The bounds of `columns` stand in the clauses below: as ghost fields they would be said
// a second time, in the invariant of the loop that fills the options in.
#[derive(Clone, Copy)]
pub struct Chosen<'a> {
    pub second: Option<Source<'a>>,
    pub gain: Option<u16>,
    pub columns: u32,
    pub out: Option<&'a str>,
}

// What the words name, or none where help is asked for.
pub fn parse(words: &[String]) -> anyhow::Result<Option<Options<'_>>>
    ensures { IfOk result (λ o. IfSome o (λ p. (1 ≤ p.chosen.columns) × (p.chosen.columns ≤ 200))) }
{
    let mut file = None;
    let mut format = Format::Pcm;
    let mut options = Chosen {
        second: None,
        gain: None,
        columns: 64,
        out: None,
    };
    let mut words = words.iter();
    while let Some(word) = words.next() {
        let word = word.as_str();
        if word == "--help" {
            return Ok(None);
        }
        if !word.starts_with("--") {
            file = Some(only(file, word)?);
        } else if word == "--mulaw" {
            format = Format::MuLaw;
        } else {
            options = with_value(options, word, value(&mut words)?)?;
        }
    }
    let path = file.context("no file is named; --help tells how")?;
    Ok(Some(Options {
        first: Source { path, format },
        chosen: options,
    }))
}

// The options with one more that has a value.
fn with_value<'a>(so_far: Chosen<'a>, word: &str, value: &'a str) -> anyhow::Result<Chosen<'a>>
    requires { (1 ≤ so_far.columns) × (so_far.columns ≤ 200) }
    ensures { IfOk result (λ o. (1 ≤ o.columns) × (o.columns ≤ 200)) }
{
    let mut options = so_far;
    match word {
        "--join" => options.second = Some(Source {
            path: value,
            format: Format::Pcm,
        }),
        "--join-mulaw" => options.second = Some(Source {
            path: value,
            format: Format::MuLaw,
        }),
        "--gain" => options.gain = Some(number(value, 0, 65535)? as u16),
        "--columns" => options.columns = number(value, 1, 200)?,
        "--write" => options.out = Some(value),
        _ => return Err(anyhow!("an option is unknown; --help tells which there are")),
    }
    Ok(options)
}

// The one file that is named.
fn only<'a>(file: Option<&'a str>, word: &'a str) -> anyhow::Result<&'a str> {
    match file {
        None => Ok(word),
        Some(_) => Err(anyhow!("more than one file is named; --join takes a second")),
    }
}
