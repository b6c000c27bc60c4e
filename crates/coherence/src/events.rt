ghost use Rattle.coherence.specs.Accesses.{AccessesAreRight};
ghost use Rattle.coherence.specs.Deals.{DealsAreSteps, StepsDeal, MessagesDeal};
ghost use Rattle.coherence.specs.Moves.{EventsMove};
ghost use Rattle.coherence.specs.RowDeals.{RowsDeal};
ghost use Rattle.coherence.specs.Sends.{SendsAreRight};

/// What a node does to a block by some deals is as many steps of that block.
pub fn deals_are_steps()
    ensures { DealsAreSteps }
{}

/// A step of a processor deals with each block.
pub fn steps_deal()
    ensures { StepsDeal }
{}

/// So does a message, where Data is asked for.
pub fn messages_deal()
    ensures { MessagesDeal }
{}

/// A message to the home of its block does what the row of the directory's tables says. The home's
/// processor and copies stay as they are. What it sends is about the block, and is no request, no
/// copy that goes back and no answer.
pub fn rows_deal()
    ensures { RowsDeal }
{}

/// What each event of a node does at the barrier: where its processor stands after it, whom it
/// tells, and what the unit answers. A step leaves the directory, the unit and the count of stray
/// messages, in a machine of one node too.
pub fn events_move()
    ensures { EventsMove }
{}

/// Each message of an event goes to the home of its block or comes from it, or goes to the barrier
/// unit or comes from it. All messages of one event leave at one time: at the time of the event,
/// but for a trap's calls. What only a home sends comes from a row of the directory alone.
pub fn sends_are_right()
    ensures { SendsAreRight }
{}

/// A load of shared memory reads the bytes of the copy that its node has, a store changes them, and a processor that
/// waits goes on with the word that it was at.
pub fn accesses_are_right()
    ensures { AccessesAreRight }
{}
