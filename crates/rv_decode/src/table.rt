ghost use Rattle.rv_decode.specs.Table.{MatchesAtMostOne};

/// The law of the instruction table that no word matches two of its rows. It does nothing: its contract is the
/// law.
#[tactic(auto, using(crate::proofs::Search::at_most_one))]
pub fn at_most_one_row(word: u32)
    ensures { MatchesAtMostOne word }
{}
