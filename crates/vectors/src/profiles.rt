// Profiles: a pile of layers, columns of an element, and lengths in time.
use audio::Levels;
use faults::SessionFault;
use profile::{SurveyFault, beats_of, levels_of_pile, survey_of, time_of};
use std::process::Abort;
use std::test::Fail;
use tempo::{Beats, Tempo};

// Samples 1, 32,767, -32,768 and -2.
const FIRST: [u8; 8] = [0x01, 0x00, 0xff, 0x7f, 0x00, 0x80, 0xfe, 0xff];

// Samples 32,124 and -32,124.
const SECOND: [u8; 2] = [0x80, 0x00];

fn check_pile(
    rt: &impl Abort,
    n: u16,
    start: u32,
    frames: u32,
    levels: (i16, i16, u32),
) -> Result<(), Fail> {
    let s = levels_of_pile(&FIRST, &SECOND, n, start, frames).map_err(|_| Fail::new("refused"))?;
    assert_eq!(rt;
        (s.frames, s.low, s.high, s.clipped),
        (frames, levels.0, levels.1, levels.2)
    );
    Ok(())
}

// The refusal's number, and the cause in it, 0 where it has none.
fn refusal(made: Result<Levels, SurveyFault>) -> Option<(u16, u16)> {
    match made {
        Err(SurveyFault::Reel(fault)) => Some((fault.number(), 0)),
        Err(SurveyFault::Session(fault)) => Some((fault.number(), fault.cause())),
        _ => None,
    }
}

#[test]
fn levels_at_a_pile_of_layers(rt: HostRuntime) -> Result<(), Fail> {
    check_pile(&rt, 256, 0, 6, (-32768, 32767, 2))?;
    check_pile(&rt, 512, 0, 6, (-32768, 32767, 4))?;
    check_pile(&rt, 128, 0, 6, (-16384, 16383, 0))?;
    check_pile(&rt, 128, 3, 2, (-1, 16062, 0))?;
    assert_eq!(rt;
        refusal(levels_of_pile(&FIRST[0..7], &SECOND, 256, 0, 0)),
        Some((19, 0))
    );
    assert_eq!(rt;
        refusal(levels_of_pile(&FIRST, &SECOND, 256, 7, 0)),
        Some((5, 1))
    );
    assert_eq!(rt;
        refusal(levels_of_pile(&FIRST, &SECOND, 256, 5, 2)),
        Some((5, 2))
    );
    Ok(())
}

fn check_columns(rt: &(impl Abort + AllocGlobal), ticks: u32, columns: &[u32]) -> Result<(), Fail> {
    let n = columns.len();
    assert!(rt; n <= 100);
    let survey = survey_of(rt.alloc(), &Tempo, ticks, 3, n as u32).map_err(|_| Fail::new(
        "refused",
    ))?;
    assert_eq!(rt; survey.columns.len(), n);
    for (column, expected) in survey.columns.iter().zip(columns.iter()) {
        assert_eq!(rt;
            (column.ticks, column.units),
            (*expected, 3 * u64::from(*expected))
        );
    }
    assert_eq!(rt;
        (survey.whole.ticks, survey.whole.units),
        (ticks, 3 * u64::from(ticks))
    );
    Ok(())
}

#[test]
fn columns_differ_by_one_at_most(rt: HostRuntime) -> Result<(), Fail> {
    check_columns(&rt, 10, &[10])?;
    check_columns(&rt, 10, &[2, 3, 2, 3])?;
    check_columns(&rt, 2, &[0, 1, 0, 1])?;
    check_columns(&rt, 1073741824, &[357913941, 357913941, 357913942])
}

// The ticks and units, or the refusal's number and cause.
fn beats(made: Result<Beats, SessionFault>) -> Result<(u32, u64), (u16, u16)> {
    made.map(|s| (s.ticks, s.units))
        .map_err(|fault| (fault.number(), fault.cause()))
}

#[test]
fn lengths_in_time(rt: HostRuntime) -> Result<(), Fail> {
    assert_eq!(rt; beats(beats_of(960, 500000)), Ok((960, 480000000)));
    assert_eq!(rt; beats(beats_of(960, 0)), Err((5, 3)));
    for (frames, text) in [
        (0u32, "0:00:00.00000"),
        (47999, "0:00:00.47999"),
        (2880000, "0:01:00.00000"),
        (172799999, "0:59:59.47999"),
        (1073741824, "6:12:49.29824"),
        (u32::MAX, "24:51:18.23295"),
    ] {
        let shown = time_of(frames).to_string(rt.alloc())?;
        assert_eq!(rt; shown.as_str(), text);
    }
    Ok(())
}
