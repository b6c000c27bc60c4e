ghost use Rattle.discrete_events.specs.Merges.{InOrderIsMerge, MergesAreRounds};
ghost use Rattle.discrete_events.specs.Theorems.{EveryInterleaving, KeysAreNew, KeysRise, LateMessagePasses, LeastEventPeels, NoPast, NoPastOfRun, RoundIsSerial, RoundsAreSerial, SerialRunEnds, StandsFor, StartIsWorld};
ghost use Rattle.node.specs.Laws.{HoldsOfMachines, MachinesAreSimulations};

/// Every machine keeps the laws of a simulation, and its quanta are conservative. So what is proved of every simulation
/// holds of every machine, each theorem under its own name.
pub fn machines_are_simulations()
    ensures laws { MachinesAreSimulations }
    ensures passes { HoldsOfMachines LateMessagePasses }
    ensures peels { HoldsOfMachines LeastEventPeels }
    ensures round { HoldsOfMachines RoundIsSerial }
    ensures rounds { HoldsOfMachines RoundsAreSerial }
    ensures ends { HoldsOfMachines SerialRunEnds }
    ensures no_past { HoldsOfMachines NoPast }
    ensures no_past_of_run { HoldsOfMachines NoPastOfRun }
    ensures start { HoldsOfMachines StartIsWorld }
    ensures new { HoldsOfMachines KeysAreNew }
    ensures rise { HoldsOfMachines KeysRise }
    ensures interleaving { HoldsOfMachines EveryInterleaving }
    ensures stands { HoldsOfMachines StandsFor }
    ensures merges { HoldsOfMachines MergesAreRounds }
    ensures in_order { HoldsOfMachines InOrderIsMerge }
{}
