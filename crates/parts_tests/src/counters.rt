use std::test::Fail;
use wt_stats::{COUNTER_NAMES, Counters, Totals, totals};

/// Counters that differ from each other, in the order of their names.
fn counted(first: u64) -> Counters {
    Counters {
        steps: first,
        messages: first / 2,
        done: first / 3,
        hits: first / 4,
        misses: first / 5,
        upgrades: first / 6,
        replaced: first / 7,
        checkins: first / 8,
        invs: first / 9,
        traps: first / 10,
        trap_cycles: first / 11,
        barriers: first / 12,
        stray: first / 13,
        sent: first / 14,
    }
}

#[test]
fn names_and_sums_in_order(rt: HostRuntime) -> Result<(), Fail> {
    let most = u64::MAX;
    let rows: [(&[u8], u128, u128); 14] = [
        (b"steps", 27720, 36893488147419103230),
        (b"messages", 13860, 18446744073709551614),
        (b"done", 9240, 12297829382473034410),
        (b"hits", 6930, 9223372036854775806),
        (b"misses", 5544, 7378697629483820646),
        (b"upgrades", 4620, 6148914691236517204),
        (b"replaced", 3960, 5270498306774157604),
        (b"checkins", 3465, 4611686018427387902),
        (b"invs", 3080, 4099276460824344802),
        (b"traps", 2772, 3689348814741910322),
        (b"trap_cycles", 2520, 3353953467947191202),
        (b"barriers", 2310, 3074457345618258602),
        (b"stray", 2132, 2837960626724546402),
        (b"sent", 1980, 2635249153387078802),
    ];
    let one = totals(&[counted(27720)]).values();
    let two = totals(&[counted(most), counted(most)]).values();
    for i in 0..14 {
        let (name, of_one, of_two) = rows[i];
        assert_eq!(rt; COUNTER_NAMES[i], name);
        assert_eq!(rt; one[i], of_one, "one node, at {i}");
        assert_eq!(rt; two[i], of_two, "two nodes, at {i}");
    }
    assert_eq!(rt; totals(&[]), Totals::default());
    assert_eq!(rt; totals(&[Counters::default()]), Totals::default());
    Ok(())
}
