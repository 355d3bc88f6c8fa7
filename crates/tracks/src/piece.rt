use faults::SessionFault;

// The two numbers of an element to be laid: of audio the first frame and how many, of tempo the ticks and the tempo.
#[derive(Clone, Copy)]
pub struct Piece {
    pub first: u32,
    pub second: u32,
}

// A track of pieces: its root, how many were laid, and why no more where those were not all. What was laid is wanted
// beside the refusal, so the whole is no Result.
#[derive(Clone, Copy)]
pub struct Laid {
    pub root: u32,
    pub laid: usize,
    pub done: Result<(), SessionFault>,
}
