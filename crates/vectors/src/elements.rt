// Elements of the two kinds: what is refused and why, and what is summarised.
use crate::byte_reels::pcm;
use crate::ramp::Ramp;
use audio::{Audio, Levels};
use faults::Cause;
use kinds::{Kind, Tally};
use reels::{Gain, Reel};
use std::process::Abort;
use std::test::Fail;
use tempo::{Beats, Tempo};

// (a, b, the cause of refusal, none where the element is made), over a reel of 200 samples.
const CLIPS: [(u32, u32, Option<u16>); 12] = [
    (0, 1, None),
    (0, 200, None),
    (150, 50, None),
    (199, 1, None),
    (151, 50, Some(2)),
    (200, 1, Some(2)),
    (0, 201, Some(2)),
    (0, 4294967295, Some(2)),
    (4294967295, 1, Some(2)),
    (4294967295, 4294967295, Some(2)),
    (0, 0, Some(1)),
    (201, 0, Some(1)),
];

const SPANS: [(u32, u32, Option<u16>); 12] = [
    (1, 1, None),
    (1073741824, 16777215, None),
    (0, 0, Some(1)),
    (0, 500000, Some(1)),
    (0, 16777216, Some(1)),
    (1, 0, Some(3)),
    (1073741825, 0, Some(3)),
    (1, 16777216, Some(4)),
    (1073741825, 16777216, Some(4)),
    (4294967295, 4294967295, Some(4)),
    (1073741825, 1, Some(5)),
    (1073741825, 500000, Some(5)),
];

// An element that is made tells its two numbers.
fn check_made<K: Kind>(rt: &impl Abort, kind: &K, a: u32, b: u32, cause: Option<u16>) {
    let made = kind.make(a, b);
    assert_eq!(rt; made.err().map(Cause::number), cause, "({a}, {b})");
    if let Ok(e) = made {
        assert_eq!(rt; kind.tell(e), (a, b));
    }
}

#[test]
fn the_smallest_cause_is_given(rt: HostRuntime) {
    let audio = Audio::new(Ramp::new(200));
    for (a, b, cause) in CLIPS {
        check_made(&rt, &audio, a, b, cause);
    }
    for (a, b, cause) in SPANS {
        check_made(&rt, &Tempo, a, b, cause);
    }
    let empty = Audio::new(Ramp::new(0));
    check_made(&rt, &empty, 0, 0, Some(1));
    check_made(&rt, &empty, 0, 1, Some(2));
}

// The element of two numbers.
fn element<K: Kind>(kind: &K, a: u32, b: u32) -> Result<K::Element, Fail> {
    kind.make(a, b).map_err(Fail::new)
}

fn check_levels(rt: &impl Abort, s: Levels, levels: (u32, i16, i16, u32)) {
    assert_eq!(rt; (s.frames, s.low, s.high, s.clipped), levels);
}

#[test]
fn levels_of_a_reel_with_both_ends_of_the_range(rt: HostRuntime) -> Result<(), Fail> {
    let bytes = [5, 0, 0x00, 0x80, 0xff, 0x7f, 0xfe, 0x7f, 0x01, 0x80];
    let kind = Audio::new(pcm(&bytes)?);
    let e = element(&kind, 0, 5)?;
    let (head, tail) = (kind.part(e, 0, 2), kind.part(e, 2, 3));
    let (s, t) = (kind.summary(head), kind.summary(tail));
    assert_eq!(rt; (kind.tell(head), kind.tell(tail)), ((0, 2), (2, 3)));
    assert_eq!(rt; (kind.extent(e), kind.extent(tail)), (5, 3));
    check_levels(&rt, kind.empty(), (0, 32767, -32768, 0));
    check_levels(&rt, s, (2, -32768, 5, 1));
    check_levels(&rt, t, (3, -32767, 32767, 1));
    check_levels(&rt, kind.summary(e), (5, -32768, 32767, 2));
    check_levels(&rt, kind.join(s, t), (5, -32768, 32767, 2));
    check_levels(&rt, kind.join(kind.empty(), s), (2, -32768, 5, 1));
    check_levels(&rt, kind.join(t, kind.empty()), (3, -32767, 32767, 1));
    assert_eq!(rt;
        (kind.width(kind.empty()), kind.tally(kind.empty())),
        (0, 0)
    );
    assert_eq!(rt; (kind.width(s), kind.tally(s)), (2, 1));
    assert_eq!(rt;
        (kind.width(kind.join(s, t)), kind.tally(kind.join(s, t))),
        (5, 2)
    );
    Ok(())
}

// The levels of the stretch of so many frames as they tell.
fn check_stretch<R: Reel>(
    rt: &impl Abort,
    kind: &Audio<R>,
    start: u32,
    levels: (u32, i16, i16, u32),
) -> Result<(), Fail> {
    check_levels(rt, kind.summary(element(kind, start, levels.0)?), levels);
    Ok(())
}

// More samples than are measured at a time. Under that gain a sample from 128 on becomes 32,767.
#[test]
fn levels_of_many_samples(rt: HostRuntime) -> Result<(), Fail> {
    let ramp = Ramp::new(2000);
    let plain = Audio::new(ramp);
    let loud = Audio::new(Gain::new(ramp, 65535));
    check_stretch(&rt, &plain, 0, (2000, 0, 999, 0))?;
    check_stretch(&rt, &plain, 100, (800, 100, 899, 0))?;
    check_stretch(&rt, &loud, 0, (2000, 0, 32767, 1744))?;
    check_stretch(&rt, &loud, 600, (512, 0, 32767, 400))?;
    check_stretch(&rt, &loud, 600, (528, 0, 32767, 400))?;
    check_stretch(&rt, &loud, 600, (529, 0, 32767, 401))
}

fn check_beats(rt: &impl Abort, s: Beats, beats: (u32, u64)) {
    assert_eq!(rt; (s.ticks, s.units), beats);
    assert_eq!(rt; (Tempo.width(s), Tempo.tally(s)), beats);
}

#[test]
fn beats_are_ticks_and_units(rt: HostRuntime) -> Result<(), Fail> {
    let slow = element(&Tempo, 960, 500000)?;
    let fast = element(&Tempo, 960, 250000)?;
    let most = element(&Tempo, 1073741824, 16777215)?;
    let (s, t) = (Tempo.summary(slow), Tempo.summary(fast));
    check_beats(&rt, Tempo.empty(), (0, 0));
    check_beats(&rt, s, (960, 480000000));
    check_beats(&rt, t, (960, 240000000));
    check_beats(&rt, Tempo.join(s, t), (1920, 720000000));
    check_beats(&rt, Tempo.join(Tempo.empty(), s), (960, 480000000));
    check_beats(&rt, Tempo.summary(most), (1073741824, 18014397435740160));
    assert_eq!(rt; Tempo.extent(most), 1073741824);
    assert_eq!(rt; Tempo.tell(Tempo.part(slow, 959, 1)), (1, 500000));
    check_beats(
        &rt,
        Tempo.summary(Tempo.part(slow, 0, 959)),
        (959, 479500000),
    );
    Ok(())
}
