ghost use Rattle.std.specs.Prelude.{◌≡◌, ◌<◌, ◌^◌, length};

use event_queue::{Queue, Steps};
use std::alloc::{AllocError, Global};
use std::marker::Brand;
use std::process::Abort;
use std::sync::ledger::{Blank, Ledger};
use std::test::Fail;
use wt_proto::{Body, Key, Msg, Stamped};

/// Puts messages with these times, destinations and sources into a queue, the last of their sequences first, and
/// takes them out.
fn in_order<L: Ledger>(
    alloc: Global,
    blank: Blank,
    rows: &[(u64, u32, u32)],
) -> Result<Vec<Key>, AllocError>
    requires name { blank.name ≡ L.name }
    requires parts { blank.parts ≡ L.parts }
    requires some { 0 < blank.parts }
{
    let mut steps = Steps::<L>::new(blank);
    let mut queue = Queue::new(alloc);
    let mut sequence = rows.len() as u64;
    for (time, to, from) in rows {
        sequence -= 1;
        let message = Stamped {
            time: *time,
            to: *to,
            from: *from,
            sequence,
            msg: Msg {
                block: 0,
                body: Body::Go,
            },
        };
        queue
            .insert(message, &mut steps)
            .map_err(|_back| AllocError)?;
    }
    let mut keys = Vec::new(alloc);
    for _row in rows {
        let first = queue.peek(&mut steps);
        let message = queue.pop(&mut steps);
        if let Some(message) = message {
            if first == Some(message.key()) {
                keys.push(message.key())?;
            }
        }
    }
    Ok(keys)
}

fn in_order_uncounted(alloc: Global, rows: &[(u64, u32, u32)]) -> Result<Vec<Key>, AllocError> {
    in_order::<Brand>(alloc, Blank::new(1), rows)
}

/// What comes out for these rows of times, nodes and sources, which are numbered from the last on.
fn assert_order(
    rt: &impl Abort,
    alloc: Global,
    rows: &[(u64, u32, u32)],
    expected: &[(u64, u32, u32, u64)],
) -> Result<(), Fail> {
    let keys = in_order_uncounted(alloc, rows)?;
    assert!(rt; keys.len() == expected.len());
    for (key, expected) in keys.iter().zip(expected) {
        let found = (key.time, key.to, key.from, key.sequence);
        assert!(rt; found == *expected, "{key:?}");
    }
    Ok(())
}

#[test]
fn least_key_first(rt: HostRuntime) -> Result<(), Fail> {
    let rows = [
        (7, 1, 1),
        (7, 1, 0),
        (3, 2, 0),
        (7, 0, 9),
        (3, 2, 0),
        (9, 0, 0),
        (3, 1, 4),
        (3, 2, 0),
    ];
    let expected = [
        (3, 1, 4, 1),
        (3, 2, 0, 0),
        (3, 2, 0, 3),
        (3, 2, 0, 5),
        (7, 0, 9, 4),
        (7, 1, 0, 6),
        (7, 1, 1, 7),
        (9, 0, 0, 2),
    ];
    assert_order(&rt, rt.alloc(), &rows, &expected)
}

/// Messages of cycles that are near the first one, and of others.
#[test]
fn near_and_far(rt: HostRuntime) -> Result<(), Fail> {
    let rows = [(5, 0, 2), (300, 0, 1), (5, 0, 1), (261, 0, 1), (3, 0, 1)];
    let expected = [
        (3, 0, 1, 0),
        (5, 0, 1, 2),
        (5, 0, 2, 4),
        (261, 0, 1, 1),
        (300, 0, 1, 3),
    ];
    assert_order(&rt, rt.alloc(), &rows, &expected)
}

/// Many messages by numbers, next to a sorted list.
#[test]
fn as_a_sorted_list(rt: HostRuntime) -> Result<(), Fail> {
    let alloc = rt.alloc();
    for spread in [3, 200, 700, 100_000] {
        let (mut rows, mut sorted) = (Vec::new(alloc), Vec::new(alloc));
        let mut number = 1u32;
        for place in 0..300u64 {
            number = number.wrapping_mul(1_664_525).wrapping_add(1_013_904_223);
            let (time, from) = (u64::from(number / 65_536 % spread), number / 256 % 4);
            rows.push((time, 0, from))?;
            sorted.push((time, 0, from, 299 - place))?;
        }
        sorted.sort()?;
        assert_order(&rt, alloc, &rows, &sorted)?;
    }
    Ok(())
}
