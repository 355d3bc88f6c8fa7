ghost use Rattle.std.specs.Prelude.{◌≡◌, length};
ghost use Rattle.kinds.specs.Kinds.{Meaning, Laws, Lawful, Joinable, Within, total};

use faults::Cause;

// A kind of element. Its functions ask nothing of their caller: of an element that was never made,
// and of summaries of too many atoms, they end in some value of which nothing is promised.
pub trait Kind {
    type Element: Copy;

    type Summary: Copy;
    // What elements are made of. No code holds one.
    type Atom;

    ghost meaning: { Self → Meaning Self.Element Self.Atom Self.Summary };

    ghost laws: { (k : Self) → Laws (meaning k) };

    // The element of two numbers, or why there is none.
    fn make(&self, a: u32, b: u32) -> Result<Self::Element, Cause>
        ensures { result ≡ (meaning self.now).made a b };

    // The two numbers of an element.
    fn tell(&self, e: Self::Element) -> (u32, u32)
        ensures { (result.0 ≡ (meaning self.now).first e) × (result.1 ≡ (meaning self.now).second e) };

    // How many atoms the element means.
    fn extent(&self, e: Self::Element) -> u32
        ensures { Lawful (meaning self.now) e → result ≡ length ((meaning self.now).atoms e) };

    // The part of `m` atoms from the atom `d` on.
    fn part(&self, e: Self::Element, d: u32, m: u32) -> Self::Element
        ensures { Lawful (meaning self.now) e → Within (meaning self.now) e d m → result ≡ (meaning self.now).part e d m };

    // The summary of the element's atoms. Callers keep it: it may have to look at each atom.
    fn summary(&self, e: Self::Element) -> Self::Summary
        ensures { Lawful (meaning self.now) e → result ≡ total (meaning self.now) ((meaning self.now).atoms e) };

    fn empty(&self) -> Self::Summary
        ensures { result ≡ (meaning self.now).none };

    fn join(&self, s: Self::Summary, t: Self::Summary) -> Self::Summary
        ensures { Joinable (meaning self.now) s t → result ≡ (meaning self.now).plus s t };

    // The extent that a summary tells.
    fn width(&self, s: Self::Summary) -> u32
        ensures { result ≡ (meaning self.now).width s };
}
