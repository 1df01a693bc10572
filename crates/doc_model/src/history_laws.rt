//! Laws of histories: each function's contract is one, and it does nothing.
ghost use Rattle.doc_model.specs.laws.Histories.{
  FitsWhatStands,
  FitsWhatWasTried,
  HistoryAtFirst,
  HistoryWithGained,
  MovesByKind,
  OneThread,
  StandsLater,
  StandsNowhere,
  StandsWithNext,
  TriedLater,
  TriedNothing,
  TriedWithNext,
  UnmovedBetween,
};

/// A call that moves is of a kind that may be a change. So one that only reads never is one.
pub fn changes_are_of_their_kinds()
    ensures { MovesByKind }
{}

/// A call that doesn't move may stand anywhere in a list of calls, and changes nothing of the document that the list leads to.
pub fn unmoved_calls_stand_between()
    ensures { UnmovedBetween }
{}

/// Where each caller's calls stand in the history of a document, all callers' calls together are one thread's run: each is
/// answered as the document then says, the changes are the history, and each caller's calls come in its order.
pub fn the_callers_are_one_thread()
    ensures { OneThread }
{}

/// The replies of calls that stand in the history of a document that is kept are replies that fit.
pub fn what_stands_fits()
    ensures { FitsWhatStands }
{}

/// What became of all that a caller tried on a document that is kept fits.
pub fn what_was_tried_fits()
    ensures { FitsWhatWasTried }
{}

/// As a history grows at its end, the calls of a caller stand in it: none, where none in it is under the caller's number; those
/// that stood in it, behind which come changes of others; and these with one more call at the end, answered as the document
/// then says, which the history gains where it moves.
pub fn calls_stand_as_the_history_grows()
    ensures nowhere { StandsNowhere }
    ensures later { StandsLater }
    ensures next { StandsWithNext }
{}

/// The same of all that a caller tried. One more attempt may be answered or not: without an answer there is a cause, and the
/// history gains nothing.
pub fn attempts_stand_as_the_history_grows()
    ensures nothing { TriedNothing }
    ensures later { TriedLater }
    ensures next { TriedWithNext }
{}

/// A document's history stays one, if at each step it gained what an answered call that moves there gives it.
pub fn a_history_grows_to_a_history()
    ensures first { HistoryAtFirst }
    ensures gained { HistoryWithGained }
{}
