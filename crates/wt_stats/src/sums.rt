ghost use Rattle.std.specs.Prelude.{◌≡◌};
ghost use Rattle.wt_stats.specs.Counts.{totals_of};

use crate::counters::Counters;
use crate::numbers::Totals;

/// The sums over a list of nodes.
pub fn totals(list: &[Counters]) -> Totals
    ensures { result ≡ totals_of list.now }
{
    let mut totals = Totals::default();
    for counters in list {
        totals.steps += counters.steps as u128;
        totals.messages += counters.messages as u128;
        totals.done += counters.done as u128;
        totals.hits += counters.hits as u128;
        totals.misses += counters.misses as u128;
        totals.upgrades += counters.upgrades as u128;
        totals.replaced += counters.replaced as u128;
        totals.checkins += counters.checkins as u128;
        totals.invs += counters.invs as u128;
        totals.traps += counters.traps as u128;
        totals.trap_cycles += counters.trap_cycles as u128;
        totals.barriers += counters.barriers as u128;
        totals.stray += counters.stray as u128;
        totals.sent += counters.sent as u128;
    }
    totals
}
