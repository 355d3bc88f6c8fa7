// Worked examples that want a session or a runner, as data; the data itself is looked at until these
// calls are there.
use kinds::Kind;
use std::test::Fail;
use tempo::Tempo;

// Inserts into an empty tempo track: place, ticks, tempo, and the refusal's number, none where accepted.
const INSERTS: [(u32, u32, u32, Option<u16>); 3] = [
    (0, 536870912, 500000, None),
    (536870912, 536870912, 250000, None),
    (1073741824, 1, 500000, Some(10)),
];

// A tempo script of an insert and a redo, and its replies: accepted with length 960, refused with 8 at
// offset 16.
const SCRIPT: [u8; 20] = [
    0x0c, 0x00, 0x01, 0x00, 0x00, 0x00, 0x00, 0x00, 0xc0, 0x03, 0x00, 0x00, 0x20, 0xa1, 0x07, 0x00,
    0x00, 0x00, 0x07, 0x00,
];

const REPLIES: [u8; 20] = [
    0x04, 0x00, 0x01, 0x01, 0xc0, 0x03, 0x00, 0x00, 0x08, 0x00, 0x00, 0x02, 0x08, 0x00, 0x00, 0x00,
    0x10, 0x00, 0x00, 0x00,
];

// How many records the heads lead through, if they lead to the end.
fn records(bytes: &[u8]) -> Option<u8> {
    let mut rest = bytes;
    for n in 0..9u8 {
        match rest {
            [] => return Some(n),
            [low, high, _, _, payload @ ..] => {
                let length = u16::from_le_bytes([*low, *high]) as usize;
                if length > payload.len() {
                    return None;
                }
                rest = &payload[length..];
            }
            _ => return None,
        }
    }
    None
}

#[test]
fn heads_lead_to_the_end(rt: HostRuntime) {
    assert_eq!(rt; records(&SCRIPT), Some(2));
    assert_eq!(rt; records(&REPLIES), Some(2));
    assert_eq!(rt; records(&SCRIPT[0..19]), None);
}

#[test]
fn two_elements_fill_a_track(rt: HostRuntime) -> Result<(), Fail> {
    let mut length = 0u64;
    for (place, ticks, tempo, number) in INSERTS {
        assert_eq!(rt; place as u64, length);
        let element = Tempo.make(ticks, tempo).ok().ok_or("no element")?;
        let after = length.saturating_add(Tempo.extent(element) as u64);
        assert_eq!(rt; (after > 1073741824).then_some(10), number);
        length = after;
    }
    assert_eq!(rt; length, 1073741825);
    Ok(())
}
