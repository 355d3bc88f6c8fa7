// Places without a pattern, the same in each run.
ghost use Rattle.std.specs.Prelude.{◌≡◌, ◌≤◌};
ghost use Rattle.paces.specs.Sums.{step, place_in};

// A generator of places: its state, 1 at first.
#[derive(Clone, Copy)]
pub(crate) struct Places {
    state: u64,
}

impl Places {
    pub(crate) fn new() -> Places
        ensures { result.state ≡ 1 }
    {
        Places { state: 1 }
    }

    // A place from 0 to `end`, by the upper bits of the next state.
    pub(crate) fn next(&mut self, end: u32) -> u32
        ensures state { self.new.state ≡ step self.old.state }
        ensures place { result ≡ place_in self.new.state end }
        ensures inside { result ≤ end }
    {
        self.state = self
            .state
            .wrapping_mul(6364136223846793005)
            .wrapping_add(1442695040888963407);
        (self.state / 8589934592 % (end as u64 + 1)) as u32
    }
}
