ghost use Rattle.discrete_events.specs.Simulation.{Simulation, Message};
ghost use Rattle.discrete_events.specs.Laws.{IsSimulation};
ghost use Rattle.discrete_events.specs.Merges.{InOrderIsMerge, MergesAreRounds};
ghost use Rattle.discrete_events.specs.Theorems.{LateMessagePasses, LeastEventPeels, RoundIsSerial, RoundsAreSerial, SerialRunEnds, NoPast, NoPastOfRun, KeysAreNew, KeysRise, StartIsWorld, EveryInterleaving, StandsFor};

/// A simulation whose node states are the values of a type, and that keeps the laws.
pub trait Simulated {
    /// What its messages say.
    type Body;

    ghost simulation: { Simulation Self Self.Body };

    /// What every event keeps of a node.
    ghost is_sound: { Self → Type 0 };

    /// The messages that may be sent.
    ghost fits: { Message Self.Body → Type 0 };

    ghost laws: { IsSimulation simulation is_sound fits };
}

/// A message that comes at the end of a quantum or later passes through the run of its node.
pub fn late_message_passes<T: Simulated>()
    ensures { LateMessagePasses T.simulation T.is_sound T.fits }
{}

/// The least event of a world peels off a round.
pub fn least_event_peels<T: Simulated>()
    ensures { LeastEventPeels T.simulation T.is_sound T.fits }
{}

/// A round of a conservative quantum is the serial run, and so are many rounds.
pub fn round_is_serial<T: Simulated>()
    ensures one { RoundIsSerial T.simulation T.is_sound T.fits }
    ensures many { RoundsAreSerial T.simulation T.is_sound T.fits }
{}

/// The serial run comes to a world without events.
pub fn serial_run_ends<T: Simulated>()
    ensures { SerialRunEnds T.simulation T.is_sound T.fits }
{}

/// No node has a message stamped at or before an event that it has handled.
pub fn no_past<T: Simulated>()
    ensures worlds { NoPast T.simulation T.is_sound T.fits }
    ensures runs { NoPastOfRun T.simulation T.is_sound T.fits }
    ensures start { StartIsWorld T.simulation T.is_sound T.fits }
{}

/// No message is placed under the key of one that is pending.
pub fn keys_are_new<T: Simulated>()
    ensures { KeysAreNew T.simulation T.is_sound T.fits }
{}

/// The keys of the events handled rise along the serial run.
pub fn keys_rise<T: Simulated>()
    ensures { KeysRise T.simulation T.is_sound T.fits }
{}

/// Every interleaving of quanta, deposits and turns comes to the serial run, and a core at rest stands for its world.
pub fn every_interleaving<T: Simulated>()
    ensures interleaving { EveryInterleaving T.simulation T.is_sound T.fits }
    ensures stands { StandsFor T.simulation T.is_sound T.fits }
{}

/// A round in which each node is given what the others sent it, in any order that keeps that of each of them, comes to
/// the same world.
pub fn merges_are_rounds<T: Simulated>()
    ensures any { MergesAreRounds T.simulation T.is_sound T.fits }
    ensures in_order { InOrderIsMerge T.simulation T.is_sound T.fits }
{}
