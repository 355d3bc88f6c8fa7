ghost use Rattle.std.specs.Prelude.{◌≡◌, ℕ};
ghost use Rattle.kinds.specs.Kinds.{Tallies};

use crate::kind::Kind;

// A kind with a tally: one reading more, by which places can be found.
pub trait Tally: Kind {
    ghost tallied: { Self → Self.Summary → ℕ };

    // The tally of a summary; that it adds under joining comes with each answer.
    fn tally(&self, s: Self::Summary) -> u64
        ensures value { result ≡ tallied self.now s }
        ensures adds { Tallies (Self.Kind.meaning self.now) (tallied self.now) };
}
