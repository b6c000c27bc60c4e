ghost use Rattle.coherence.specs.Laws.{StartIsCoherent, StepsKeepFacts, RunsAreCoherent, NothingIsStray, OneWriter};
ghost use Rattle.coherence.specs.Lines.{LinesKeepOrder};
ghost use Rattle.coherence.specs.Entries.{RowsAreBuilt, RowsAreSteps};
ghost use Rattle.coherence.specs.Meetings.{MeetingsAreOrderly};
ghost use Rattle.coherence.specs.Values.{ValuesAreKept};

/// At the start the facts of a block hold.
pub fn start_is_coherent()
    ensures { StartIsCoherent }
{}

/// Every step of a block keeps them.
pub fn steps_keep_facts()
    ensures { StepsKeepFacts }
{}

/// So they hold after any steps from a start.
pub fn runs_are_coherent()
    ensures { RunsAreCoherent }
{}

/// No message comes that nobody asked for.
pub fn nothing_is_stray()
    ensures { NothingIsStray }
{}

/// A copy that can be written is the only copy.
pub fn one_writer()
    ensures { OneWriter }
{}

/// Lines of messages are first in, first out: what is above all of a line joins it at its end, and the first of a line
/// is taken from its front.
pub fn lines_keep_order()
    ensures { LinesKeepOrder }
{}

/// The rows of the directory as it is built do what the rows over the full roll do, where a message is one that was
/// asked for.
pub fn rows_are_built()
    ensures { RowsAreBuilt }
{}

/// What comes to the home of a coherent block is a step of it, by the directory as it is built, and isn't stray.
pub fn rows_are_steps()
    ensures { RowsAreSteps }
{}

/// Whoever waits at the barrier or has left it is in one place, and no message about the barrier is stray.
pub fn meetings_are_orderly()
    ensures { MeetingsAreOrderly }
{}

/// Every copy has the value that the last store left, and so has the memory of the home where nobody may write.
pub fn values_are_kept()
    ensures { ValuesAreKept }
{}
