// What the flat sequence keeps, for every kind: each clause names a statement of specs/, and the
// functions are there so that the check asks for its proof.
ghost use Rattle.flat.specs.Promises.{ExtentCounts, DividesNothing, DividesInside, DividesAtoms, DividesTwice};
ghost use Rattle.flat.specs.Promises.{PutsAtoms, TakesAtoms, PasteOfCut, ReadSome, ReadOne, ReadAtom};
ghost use Rattle.flat.specs.Promises.{FindSome, FindOne, FindNone};
ghost use Rattle.flat.specs.Promises.{CallSmallest, QuestionSmallest, RefusedChangesNothing};
ghost use Rattle.flat.specs.Promises.{InsertAccepted, CutAccepted, EraseAccepted, CopyAccepted, PasteAccepted, ForgetAccepted};
ghost use Rattle.flat.specs.Promises.{QuestionAnswered, LacksNone, StartAccepted};
ghost use Rattle.flat.specs.Promises.{RunTied, RunUndo, RunRedo, RunSound};
ghost use Rattle.flat.specs.Promises.{HoldFinds, RunPlaces, RunHeld, RunApart, RunRelease, RunHold};

use kinds::Kind;

// Places, dividing, and what edits make of the atoms.
pub fn places_stand<K: Kind>(kind: &K)
    ensures counts { ExtentCounts (K.meaning kind.now) }
    ensures nothing { DividesNothing (K.meaning kind.now) }
    ensures inside { DividesInside (K.meaning kind.now) }
    ensures atoms { DividesAtoms (K.meaning kind.now) }
    ensures twice { DividesTwice (K.meaning kind.now) }
    ensures puts { PutsAtoms (K.meaning kind.now) }
    ensures takes { TakesAtoms (K.meaning kind.now) }
    ensures pasted { PasteOfCut (K.meaning kind.now) }
{}

// The element that holds an atom.
pub fn reads_stand<K: Kind>(kind: &K)
    ensures some { ReadSome (K.meaning kind.now) }
    ensures one { ReadOne (K.meaning kind.now) }
    ensures atom { ReadAtom (K.meaning kind.now) }
{}

// The place at which a tally is reached.
pub fn finds_stand<K: Kind>(kind: &K)
    ensures some { FindSome (K.meaning kind.now) }
    ensures one { FindOne (K.meaning kind.now) }
    ensures none { FindNone (K.meaning kind.now) }
{}

// Of several refusals that apply the smallest number is told, and a refused call changes nothing.
pub fn refusals_stand<K: Kind>(kind: &K)
    ensures calls { CallSmallest (K.meaning kind.now) }
    ensures questions { QuestionSmallest (K.meaning kind.now) }
    ensures unchanged { RefusedChangesNothing (K.meaning kind.now) }
{}

// Where each call is accepted and each question is answered.
pub fn acceptance_stands<K: Kind>(kind: &K)
    ensures start { StartAccepted }
    ensures insert { InsertAccepted (K.meaning kind.now) }
    ensures cut { CutAccepted (K.meaning kind.now) }
    ensures erase { EraseAccepted (K.meaning kind.now) }
    ensures copy { CopyAccepted (K.meaning kind.now) }
    ensures paste { PasteAccepted (K.meaning kind.now) }
    ensures forget { ForgetAccepted (K.meaning kind.now) }
    ensures questions { QuestionAnswered (K.meaning kind.now) }
    ensures sampled { LacksNone (K.meaning kind.now) }
{}

// Every list of calls on a session just started, refused ones included: its lists are what the edits in
// force and the edits undone make.
pub fn runs_stand<K: Kind>(kind: &K)
    ensures tied { RunTied (K.meaning kind.now) }
    ensures undo { RunUndo (K.meaning kind.now) }
    ensures redo { RunRedo (K.meaning kind.now) }
    ensures sound { RunSound (K.meaning kind.now) }
{}

// Holds, over every list of calls: since when a version is held, and where a hold and a release are accepted.
pub fn holds_stand<K: Kind>(kind: &K)
    ensures finds { HoldFinds (K.meaning kind.now) }
    ensures places { RunPlaces (K.meaning kind.now) }
    ensures held { RunHeld (K.meaning kind.now) }
    ensures apart { RunApart (K.meaning kind.now) }
    ensures release { RunRelease (K.meaning kind.now) }
    ensures hold { RunHold (K.meaning kind.now) }
{}
