ghost use Rattle.profile.specs.Times.{Times};

use std::fmt;

// How long so many frames last, at 48,000 frames a second.
#[derive(Clone, Copy, PartialEq, Eq, Debug)]
pub struct Time {
    pub hours: u32,
    pub minutes: u32,
    pub seconds: u32,
    pub frames: u32,
}

pub fn time_of(frames: u32) -> Time
    ensures { Times frames result.hours result.minutes result.seconds result.frames }
{
    let seconds = frames / 48000;
    let minutes = seconds / 60;
    Time {
        hours: minutes / 60,
        minutes: minutes % 60,
        seconds: seconds % 60,
        frames: frames % 48000,
    }
}

// hours:minutes:seconds.frames
impl fmt::Display for Time {
    fn fmt<W: fmt::Write>(&self, f: &mut fmt::Formatter<W>) -> fmt::Result {
        let Time {
            hours,
            minutes,
            seconds,
            frames,
        } = *self;
        write!(f, "{hours}:{minutes:02}:{seconds:02}.{frames:05}")
    }
}
