ghost use Rattle.std.specs.Prelude.{◌≡◌, ◌≤◌, IfSome, IfOk};

use anyhow::{Context, anyhow};
use std::alloc::Global;
use terminal::{number, value};
use tracks::{Piece, Shift};

// What is asked for on the command line.
#[derive(Drop)]
pub struct Options<'a> {
    pub chosen: Chosen<'a>,
    pub pieces: Vec<Piece>,
}

// All but the pieces.
#[derive(Clone, Copy)]
pub struct Chosen<'a> {
    pub first: Option<&'a str>,
    pub second: Option<&'a str>,
    pub gain: u16,
    pub shift: Shift,
}

// What the words name, or none where help is asked for.
pub fn parse(alloc: Global, words: &[String]) -> anyhow::Result<Option<Options<'_>>>
    ensures { IfOk result (λ o. IfSome o (λ p. (1 ≤ p.chosen.shift.columns) × (p.chosen.shift.columns ≤ 200))) }
{
    let mut pieces = Vec::new(alloc);
    let mut chosen = Chosen {
        first: None,
        second: None,
        gain: 256,
        shift: Shift {
            from: 0,
            len: 0,
            to: 0,
            columns: 64,
        },
    };
    let mut words = words.iter();
    while let Some(word) = words.next() {
        let word = word.as_str();
        if word == "--help" {
            return Ok(None);
        }
        if !word.starts_with("--") {
            chosen.first = Some(word);
        } else if word == "--piece" {
            pieces.push(piece_of(value(&mut words)?)?)?;
        } else {
            chosen = with_value(chosen, word, value(&mut words)?)?;
        }
    }
    Ok(Some(Options { chosen, pieces }))
}

// The options with one more that has a value.
fn with_value<'a>(so_far: Chosen<'a>, word: &str, value: &'a str) -> anyhow::Result<Chosen<'a>>
    requires { (1 ≤ so_far.shift.columns) × (so_far.shift.columns ≤ 200) }
    ensures { IfOk result (λ o. (1 ≤ o.shift.columns) × (o.shift.columns ≤ 200)) }
{
    let mut options = so_far;
    match word {
        "--join-mulaw" => options.second = Some(value),
        "--gain" => options.gain = number(value, 0, 65535)? as u16,
        "--columns" => options.shift.columns = number(value, 1, 200)?,
        "--move" => options.shift = moved(options.shift, value)?,
        _ => return Err(anyhow!("an option is unknown; --help tells which there are")),
    }
    Ok(options)
}

// START+FRAMES
fn piece_of(word: &str) -> anyhow::Result<Piece> {
    let (first, second) = halves(word, '+')?;
    Ok(Piece {
        first: number(first, 0, u32::MAX)?,
        second: number(second, 0, u32::MAX)?,
    })
}

// FROM+LEN@TO, in as many columns as before.
fn moved(shift: Shift, word: &str) -> anyhow::Result<Shift>
    ensures { IfOk result (λ s. s.columns ≡ shift.columns) }
{
    let (range, to) = halves(word, '@')?;
    let (from, len) = halves(range, '+')?;
    Ok(Shift {
        from: number(from, 0, u32::MAX)?,
        len: number(len, 0, u32::MAX)?,
        to: number(to, 0, u32::MAX)?,
        ..shift
    })
}

fn halves(word: &str, mark: char) -> anyhow::Result<(&str, &str)> {
    word.split_once(mark)
        .context("a piece or a move is not written as --help tells")
}
