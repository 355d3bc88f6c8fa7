// Reels of bytes: which bytes are one, and the samples at the ends of the range.
ghost use Rattle.std.specs.Prelude.{◌≡◌, IfOk};
ghost use Rattle.reels.specs.MuLaw.{mu_law_bytes};
ghost use Rattle.reels.specs.Pcm.{pcm_bytes};

use faults::ReelFault;
use reels::{MuLaw, Pcm, Reel};
use std::test::Fail;

pub(crate) fn pcm(bytes: &[u8]) -> Result<Pcm<'_>, Fail>
    ensures { IfOk result (λ p. pcm_bytes p ≡ bytes.now) }
{
    Pcm::new(bytes).map_err(Fail::new)
}

pub(crate) fn mulaw(bytes: &[u8]) -> Result<MuLaw<'_>, Fail>
    ensures { IfOk result (λ m. mu_law_bytes m ≡ bytes.now) }
{
    MuLaw::new(bytes).map_err(Fail::new)
}

// The refusal's number, where there is one.
fn refusal<T: Drop>(made: Result<T, ReelFault>) -> Option<u16> {
    made.err().map(ReelFault::number)
}

#[test]
fn only_an_odd_number_of_pcm_bytes_is_refused(rt: HostRuntime) {
    let bytes = [0u8; 5];
    for (count, number) in [
        (0usize, None),
        (1, Some(19u16)),
        (2, None),
        (3, Some(19)),
        (4, None),
        (5, Some(19)),
    ] {
        assert_eq!(rt;
            refusal(Pcm::new(&bytes[0..count])),
            number,
            "{count} bytes"
        );
        assert_eq!(rt;
            refusal(MuLaw::new(&bytes[0..count])),
            None,
            "{count} bytes"
        );
    }
}

#[test]
fn pcm_bytes_are_pairs_with_the_low_byte_first(rt: HostRuntime) -> Result<(), Fail> {
    let bytes = [0x00, 0x80, 0xff, 0x7f, 0xff, 0xff, 0x01, 0x00, 0x00, 0x01];
    let samples = [-32768i16, 32767, -1, 1, 256];
    let reel = pcm(&bytes)?;
    let mut block = [7i16; 4];
    assert_eq!(rt; reel.len(), 5);
    for (i, sample) in samples.iter().enumerate() {
        assert_eq!(rt; reel.sample(i as u32), Some(*sample));
    }
    assert_eq!(rt; reel.sample(5), None);
    assert_eq!(rt; reel.copy_to(3, &mut block), 2);
    assert_eq!(rt; block, [1, 256, 7, 7]);
    assert_eq!(rt; reel.copy_to(5, &mut block), 0);
    assert_eq!(rt; reel.copy_to(u32::MAX, &mut block), 0);
    assert_eq!(rt; block, [1, 256, 7, 7]);
    Ok(())
}

#[test]
fn mulaw_bytes_of_the_worked_example(rt: HostRuntime) -> Result<(), Fail> {
    let reel = mulaw(&[0xff, 0x7f, 0xf0, 0x80, 0x00])?;
    let mut block = [7i16; 6];
    assert_eq!(rt; reel.copy_to(0, &mut block), 5);
    assert_eq!(rt; block, [0, 0, 120, 32124, -32124, 7]);
    Ok(())
}
