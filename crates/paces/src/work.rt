ghost use Rattle.paces.specs.Works.{Names};

// What is done with the track again and again.
#[derive(Clone, Copy, PartialEq, Eq, Debug)]
pub enum Work {
    Put,
    Cut,
    Read,
    Overview,
}

// A number that names no work.
#[derive(Clone, Copy, PartialEq, Eq, Debug)]
pub struct NoWork(pub u32);

impl TryFrom<u32> for Work {
    type Error = NoWork;

    ghost try_from_gives = { Names };

    fn try_from(number: u32) -> Result<Work, NoWork> {
        match number {
            1 => Ok(Work::Put),
            2 => Ok(Work::Cut),
            3 => Ok(Work::Read),
            4 => Ok(Work::Overview),
            _ => Err(NoWork(number)),
        }
    }
}
