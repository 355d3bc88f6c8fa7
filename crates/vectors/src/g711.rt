// ITU-T G.711's table of the mu-law decoder, all 256 values, beside our decoder.
use crate::byte_reels::mulaw;
use reels::{Reel, decode};
use std::test::Fail;

// The decoder output values y0 to y127 as published, two rows for each segment. The positive ones
// have the character signals 11111111 down to 10000000, the negative ones 01111111 down to 00000000.
const PUBLISHED: [[i16; 8]; 16] = [
    [0, 2, 4, 6, 8, 10, 12, 14],
    [16, 18, 20, 22, 24, 26, 28, 30],
    [33, 37, 41, 45, 49, 53, 57, 61],
    [65, 69, 73, 77, 81, 85, 89, 93],
    [99, 107, 115, 123, 131, 139, 147, 155],
    [163, 171, 179, 187, 195, 203, 211, 219],
    [231, 247, 263, 279, 295, 311, 327, 343],
    [359, 375, 391, 407, 423, 439, 455, 471],
    [495, 527, 559, 591, 623, 655, 687, 719],
    [751, 783, 815, 847, 879, 911, 943, 975],
    [1023, 1087, 1151, 1215, 1279, 1343, 1407, 1471],
    [1535, 1599, 1663, 1727, 1791, 1855, 1919, 1983],
    [2079, 2207, 2335, 2463, 2591, 2719, 2847, 2975],
    [3103, 3231, 3359, 3487, 3615, 3743, 3871, 3999],
    [4191, 4447, 4703, 4959, 5215, 5471, 5727, 5983],
    [6239, 6495, 6751, 7007, 7263, 7519, 7775, 8031],
];

#[test]
fn all_256_bytes_decode_to_four_times_the_published_value(rt: HostRuntime) {
    for (n, value) in (0..128u8).zip(PUBLISHED.as_flattened()) {
        let sample = 4 * i32::from(*value);
        let signal = 255 - n;
        assert_eq!(rt; i32::from(decode(signal)), sample, "positive, number {n}");
        assert_eq!(rt;
            i32::from(decode(signal & 0x7f)),
            -sample,
            "negative, number {n}"
        );
    }
}

// The same bytes as one reel, asked sample by sample and in bulk.
#[test]
fn a_mulaw_reel_of_all_bytes_answers_as_the_decoder(rt: HostRuntime) -> Result<(), Fail> {
    let mut bytes = [0u8; 256];
    for (byte, b) in bytes.iter_mut().zip(0..=255u8) {
        *byte = b;
    }
    let reel = mulaw(&bytes)?;
    let mut block = [7i16; 300];
    assert_eq!(rt; reel.len(), 256);
    assert_eq!(rt; reel.copy_to(0, &mut block), 256);
    for (b, copied) in (0..=255u8).zip(block.iter()) {
        assert_eq!(rt; reel.sample(u32::from(b)), Some(decode(b)));
        assert_eq!(rt; *copied, decode(b));
    }
    assert_eq!(rt; reel.sample(256), None);
    assert_eq!(rt; (block[256], block[299]), (7, 7));
    Ok(())
}
