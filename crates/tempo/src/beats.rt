// The summary of tempo elements: their ticks, and their length in time. A tick of tempo t has t
// units, so 960 units are a microsecond.
#[derive(Clone, Copy, PartialEq, Eq, Default, Debug)]
pub struct Beats {
    pub ticks: u32,
    pub units: u64,
}
