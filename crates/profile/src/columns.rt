ghost use Rattle.std.specs.Prelude.{◌≡◌, ◌<◌, ◌≤◌, map, length, Ok, MatchResult, IfOk};
ghost use Rattle.std.specs.List.{range_with_len};
ghost use Rattle.kinds.specs.Kinds.{Lawful};
ghost use Rattle.profile.specs.Columns.{edge, Columns, TakesStretches, between, column, carried, summary_of, Surveyed, NoSurvey};

use crate::fault::SurveyFault;
use faults::SessionFault;
use kinds::Kind;
use std::alloc::{AllocError, Global};

// The summaries of an element's columns, and that of the whole.
#[derive(Drop)]
pub struct Survey<S> {
    pub columns: Vec<S>,
    pub whole: S,
}

// The summary of the element of two numbers.
pub fn measure<K: Kind>(k: &K, a: u32, b: u32) -> Result<K::Summary, SessionFault>
    ensures { result ≡ summary_of (K.meaning k.now) ((K.meaning k.now).made a b) }
{
    let e = k.make(a, b)?;
    Ok(k.summary(e))
}

// The element of two numbers, seen in n columns.
pub fn survey_of<K: Kind>(
    alloc: Global,
    k: &K,
    a: u32,
    b: u32,
    n: u32,
) -> Result<Survey<K::Summary>, SurveyFault>
    ensures { MatchResult result (λ s. (e : K.Element) × ((K.meaning k.now).made a b ≡ Ok e) × Surveyed (K.meaning k.now) ((K.meaning k.now).atoms e) n s.columns.items s.whole) (NoSurvey ((K.meaning k.now).made a b)) }
{
    let e = element(k, a, b)?;
    Ok(survey_element(alloc, k, e, n)?)
}

fn element<K: Kind>(k: &K, a: u32, b: u32) -> Result<K::Element, SessionFault>
    ensures { result ≡ carried ((K.meaning k.now).made a b) }
{
    Ok(k.make(a, b)?)
}

// The element, seen in n columns.
fn survey_element<K: Kind>(
    alloc: Global,
    k: &K,
    e: K::Element,
    n: u32,
) -> Result<Survey<K::Summary>, AllocError>
    requires { Lawful (K.meaning k.now) e }
    ensures { IfOk result (λ s. Surveyed (K.meaning k.now) ((K.meaning k.now).atoms e) n s.columns.items s.whole) }
{
    let columns = columns_of(alloc, k, e, n)?;
    let mut whole = k.empty();
    for s in &columns {
        whole = k.join(whole, *s);
    }
    Ok(Survey { columns, whole })
}

// The summaries of the element's columns.
fn columns_of<K: Kind>(
    alloc: Global,
    k: &K,
    e: K::Element,
    n: u32,
) -> Result<Vec<K::Summary>, AllocError>
    requires { Lawful (K.meaning k.now) e }
    ensures { IfOk result (λ v. v.items ≡ map (column (K.meaning k.now) ((K.meaning k.now).atoms e) n) (range_with_len 0 n)) }
{
    in_columns(alloc, k.extent(e), n, |from, to| stretch(k, e, from, to))
}

// The values of n columns of an extent, as equal as there can be: `stretch` gives each, of where the column begins
// and where it ends.
pub fn in_columns<S: Drop, F: Fn(u32, u32) -> S>(
    alloc: Global,
    extent: u32,
    n: u32,
    stretch: F,
) -> Result<Vec<S>, AllocError>
    requires { TakesStretches (F.pre stretch) extent }
    ensures { IfOk result (λ v. Columns (F.post stretch) extent n v.items) }
{
    let mut columns = Vec::new(alloc);
    let mut from = 0;
    // Not a `map` that is collected: there it stays open that `stretch` may be called at each number below n.
    for i in 0..n {
        let to = edge_of(extent, n, i + 1);
        columns.push(stretch(from, to))?;
        from = to;
    }
    Ok(columns)
}

// Where the column i begins.
pub fn edge_of(extent: u32, n: u32, i: u32) -> u32
    requires within { i ≤ n }
    requires some { 0 < n }
    ensures place { result ≡ edge extent n i }
    ensures inside { result ≤ extent }
{
    (i as u64 * extent as u64 / n as u64) as u32
}

// The summary of the element's atoms from one place to another.
fn stretch<K: Kind>(k: &K, e: K::Element, from: u32, to: u32) -> K::Summary
    requires lawful { Lawful (K.meaning k.now) e }
    requires order { from ≤ to }
    requires inside { to ≤ length ((K.meaning k.now).atoms e) }
    ensures { result ≡ between (K.meaning k.now) ((K.meaning k.now).atoms e) from to }
{
    if from == to {
        k.empty()
    } else {
        k.summary(k.part(e, from, to - from))
    }
}
