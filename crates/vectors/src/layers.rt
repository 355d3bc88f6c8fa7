// The two layers at their edges: rounding and holding of gain, the border and the limit of joined.
use crate::byte_reels::{mulaw, pcm};
use crate::ramp::Ramp;
use reels::{Gain, Joined, Reel};
use std::process::Abort;
use std::test::Fail;

// The most samples that a reel has.
const LIMIT: u32 = 1073741824;

// (n, sample below, sample)
const GAINS: [(u16, i16, i16); 24] = [
    (0, 32767, 0),
    (0, -32768, 0),
    (1, 255, 0),
    (1, 256, 1),
    (1, -1, -1),
    (1, -257, -2),
    (128, 1, 0),
    (128, -1, -1),
    (255, 1, 0),
    (255, -1, -1),
    (255, 32767, 32639),
    (255, -32768, -32640),
    (256, 32767, 32767),
    (256, -32768, -32768),
    (256, -1, -1),
    (257, 32767, 32767),
    (257, -32768, -32768),
    (257, -1, -2),
    (512, 16383, 32766),
    (512, 16384, 32767),
    (512, 20000, 32767),
    (512, -16384, -32768),
    (65535, 32767, 32767),
    (65535, -32768, -32768),
];

#[test]
fn gain_rounds_down_and_holds(rt: HostRuntime) -> Result<(), Fail> {
    for (n, below, sample) in GAINS {
        let bytes = below.to_le_bytes();
        let reel = Gain::new(pcm(&bytes)?, n);
        let mut block = [7i16; 2];
        assert_eq!(rt; reel.len(), 1);
        assert_eq!(rt; reel.sample(0), Some(sample), "{below} under gain {n}");
        assert_eq!(rt; reel.sample(1), None);
        assert_eq!(rt; reel.copy_to(0, &mut block), 1);
        assert_eq!(rt; block, [sample, 7], "{below} under gain {n}, copied");
        assert_eq!(rt; reel.copy_to(1, &mut block), 0);
        assert_eq!(rt; block, [sample, 7]);
    }
    Ok(())
}

// Asks a reel of a few samples for each of them, and for a block from each index on.
fn check_samples<R: Reel>(rt: &impl Abort, reel: &R, samples: &[i16]) {
    assert_eq!(rt; reel.len() as usize, samples.len());
    for i in 0..=samples.len() as u32 {
        let rest = &samples[i as usize..];
        assert_eq!(rt; reel.sample(i), rest.first().copied(), "sample {i}");
        let mut block = [7i16; 8];
        let n = reel.copy_to(i, &mut block);
        let mut expected = [7i16; 8];
        for (place, sample) in expected.iter_mut().zip(rest) {
            *place = *sample;
        }
        assert_eq!(rt; n, rest.len().min(8), "copied from {i}");
        assert_eq!(rt; block, expected, "copied from {i}");
    }
    assert_eq!(rt; reel.sample(u32::MAX), None);
    assert_eq!(rt; reel.copy_to(u32::MAX, &mut [7i16; 8]), 0);
}

#[test]
fn joined_is_the_first_and_then_the_second(rt: HostRuntime) -> Result<(), Fail> {
    let low = pcm(&[1, 0, 2, 0, 3, 0])?;
    let high = mulaw(&[0x80, 0x00])?;
    let none = pcm(&[])?;
    check_samples(&rt, &Joined::new(low, high), &[1, 2, 3, 32124, -32124]);
    check_samples(&rt, &Joined::new(high, low), &[32124, -32124, 1, 2, 3]);
    check_samples(&rt, &Joined::new(none, low), &[1, 2, 3]);
    check_samples(&rt, &Joined::new(low, none), &[1, 2, 3]);
    check_samples(&rt, &Joined::new(none, none), &[]);
    check_samples(
        &rt,
        &Joined::new(Joined::new(low, high), low),
        &[1, 2, 3, 32124, -32124, 1, 2, 3],
    );
    check_samples(
        &rt,
        &Gain::new(Joined::new(low, high), 512),
        &[2, 4, 6, 32767, -32768],
    );
    check_samples(&rt, &Joined::new(Ramp::new(3), low), &[0, 1, 2, 1, 2, 3]);
    Ok(())
}

// Asks a reel as long as the limit for its last samples, and beyond.
fn check_limit<R: Reel>(rt: &impl Abort, reel: &R, last: [i16; 3]) {
    assert_eq!(rt; reel.len(), LIMIT);
    for (i, sample) in (LIMIT - 3..LIMIT).zip(last) {
        assert_eq!(rt; reel.sample(i), Some(sample));
    }
    let mut block = [7i16; 5];
    assert_eq!(rt; reel.copy_to(LIMIT - 3, &mut block), 3);
    assert_eq!(rt; block, [last[0], last[1], last[2], 7, 7]);
    for beyond in [LIMIT, LIMIT + 1, u32::MAX] {
        let mut block = [7i16; 5];
        assert_eq!(rt; reel.sample(beyond), None);
        assert_eq!(rt; reel.copy_to(beyond, &mut block), 0);
        assert_eq!(rt; block, [7; 5], "beyond the limit, at {beyond}");
    }
}

#[test]
fn joined_ends_at_the_limit(rt: HostRuntime) -> Result<(), Fail> {
    let long = Ramp::new(LIMIT);
    let three = pcm(&[0xff, 0xff, 0xfe, 0xff, 0xfd, 0xff])?;
    check_limit(&rt, &long, [821, 822, 823]);
    check_limit(&rt, &Joined::new(long, three), [821, 822, 823]);
    check_limit(&rt, &Joined::new(long, long), [821, 822, 823]);
    check_limit(
        &rt,
        &Joined::new(Ramp::new(LIMIT - 1), three),
        [821, 822, -1],
    );
    check_limit(&rt, &Joined::new(Ramp::new(LIMIT - 3), three), [-1, -2, -3]);
    check_limit(&rt, &Joined::new(three, long), [818, 819, 820]);
    Ok(())
}
