ghost use Rattle.quantum.specs.Starts.{StartsAreWorlds};

/// The start of every machine, with images that were loaded for it, is a world of the machine's simulation between two
/// quanta. So what is proved of such worlds holds of it: its serial run comes to a world without events.
pub fn starts_are_worlds()
    ensures { StartsAreWorlds }
{}
