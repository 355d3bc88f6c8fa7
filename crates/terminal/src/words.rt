ghost use Rattle.std.specs.Prelude.{◌≡◌, ◌≤◌, ◌∷◌, map, length, IfOk, string_bytes};
ghost use Rattle.std.specs.Slice.Iter.{iter_rest};

use anyhow::{Context, anyhow};
use std::env;
use std::env::Env;
use std::slice::Iter;

// The words that a program is called with, behind its own name.
pub fn called_with(rt: &(impl Env + AllocGlobal)) -> anyhow::Result<Vec<String>> {
    Ok(env::args(rt)?.skip(1).collect(rt.alloc())?)
}

// The word behind an option that has a value.
pub fn value<'a>(words: &mut Iter<'a, String>) -> anyhow::Result<&'a str>
    ensures next { IfOk result (λ w. map string_bytes (iter_rest words.old) ≡ w.now ∷ map string_bytes (iter_rest words.new)) }
    ensures rest { length (iter_rest words.new) ≤ length (iter_rest words.old) }
{
    let word = words.next().context("the last option wants a value")?;
    Ok(word.as_str())
}

// The number of a word that lies between two others.
pub fn number(word: &str, least: u32, most: u32) -> anyhow::Result<u32>
    ensures { IfOk result (λ n. (least ≤ n) × (n ≤ most)) }
{
    match word.parse::<u32>() {
        Ok(n) if least <= n && n <= most => Ok(n),
        _ => Err(anyhow!("a number is none, or is out of its range; --help tells which")),
    }
}
