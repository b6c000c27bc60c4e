ghost use Rattle.coherence.specs.Runs.{EventsKeepCoherence, HasNoStray, HasOneWriter, InEachWorld, LoadsAreRight, RunsAreCoherent};

/// One more event of the serial run keeps a world of a machine coherent.
pub fn events_keep_coherence()
    ensures { EventsKeepCoherence }
{}

/// So is each world of every serial run from the start of a machine: in it a node that may write a block has the only
/// copy, and no message was stray. What was recorded until then is right: each load read what the last stores left.
pub fn runs_of_machines_are_coherent()
    ensures coherent { RunsAreCoherent }
    ensures one_writer { InEachWorld HasOneWriter }
    ensures no_stray { InEachWorld HasNoStray }
    ensures loads { LoadsAreRight }
{}
