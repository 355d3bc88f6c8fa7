// Reels written out as bytes over a pattern: what is written, and what stays as found.
use crate::byte_reels::pcm;
use crate::ramp::Ramp;
use reels::{Joined, write_out};
use std::test::Fail;

// (start, bytes of room, samples written, the first eight bytes then)
const WRITTEN: [(u32, usize, usize, [u8; 8]); 10] = [
    (0, 0, 0, [0xaa; 8]),
    (0, 1, 0, [0xaa; 8]),
    (0, 2, 1, [0x00, 0x80, 0xaa, 0xaa, 0xaa, 0xaa, 0xaa, 0xaa]),
    (0, 5, 2, [0x00, 0x80, 0xff, 0x7f, 0xaa, 0xaa, 0xaa, 0xaa]),
    (0, 8, 3, [0x00, 0x80, 0xff, 0x7f, 0xfe, 0xff, 0xaa, 0xaa]),
    (1, 3, 1, [0xff, 0x7f, 0xaa, 0xaa, 0xaa, 0xaa, 0xaa, 0xaa]),
    (2, 8, 1, [0xfe, 0xff, 0xaa, 0xaa, 0xaa, 0xaa, 0xaa, 0xaa]),
    (3, 8, 0, [0xaa; 8]),
    (4, 8, 0, [0xaa; 8]),
    (u32::MAX, 8, 0, [0xaa; 8]),
];

#[test]
fn as_many_samples_as_fit_are_written_and_the_rest_stays(rt: HostRuntime) -> Result<(), Fail> {
    let reel = pcm(&[0x00, 0x80, 0xff, 0x7f, 0xfe, 0xff])?;
    for (start, room, count, bytes) in WRITTEN {
        assert!(rt; room <= 8);
        let mut out = [0xaau8; 8];
        let n = write_out(&reel, start, &mut out[0..room]);
        assert_eq!(rt; n, count, "from {start} into {room} bytes");
        assert_eq!(rt; out, bytes, "from {start} into {room} bytes");
    }
    Ok(())
}

// More samples than are copied at a time, over the border of two reels, into an odd number of bytes.
#[test]
fn many_samples_are_written_in_order(rt: HostRuntime) -> Result<(), Fail> {
    let reel = Joined::new(Ramp::new(2000), pcm(&[0x34, 0x12])?);
    let mut out = [0xaau8; 2605];
    assert_eq!(rt; write_out(&reel, 700, &mut out), 1301);
    for (i, bytes) in (700..2000u32).zip(out.chunks_exact(2)) {
        let sample = (i % 1000) as i16;
        assert_eq!(rt; bytes, &sample.to_le_bytes()[..], "sample {i}");
    }
    assert_eq!(rt; [out[2600], out[2601]], [0x34, 0x12]);
    assert_eq!(rt; [out[2602], out[2603], out[2604]], [0xaa; 3]);
    Ok(())
}
