use std::cmp::Ordering;
use std::test::Fail;
use wt_proto::{Block, Body, Letter, Msg, NodeSet, Outgoing, Sends, Stamped, StampedList};

fn message(time: u64, to: u32, from: u32, sequence: u64) -> Stamped {
    Stamped {
        time,
        to,
        from,
        sequence,
        msg: Msg {
            block: 0,
            body: Body::Go,
        },
    }
}

#[test]
fn lists_sets_blocks_and_keys(rt: HostRuntime) -> Result<(), Fail> {
    let mut sends = Sends::new(rt.alloc());
    assert!(rt; sends.is_empty());
    for to in 0..3 {
        let msg = Msg {
            block: 7,
            body: Body::GetX { had: true },
        };
        sends.push(Outgoing { to, msg })?;
    }
    assert!(rt; sends.len() == 3);
    assert!(rt; sends.get(1).map(|item| item.to) == Some(1));
    assert!(rt; sends.get(3).is_none());
    assert!(rt; sends.pop_first().map(|item| item.to) == Some(0));
    assert!(rt; sends.len() == 2);

    let mut set = NodeSet::new();
    for node in [9, 255, 0, 64, 9] {
        assert!(rt; node < 256);
        set.insert(node);
    }
    assert!(rt; set.contains(255) && !set.contains(8) && !set.contains(256));
    for (i, node) in [
        (0, Some(0)),
        (1, Some(9)),
        (2, Some(64)),
        (3, Some(255)),
        (4, None),
    ] {
        assert!(rt; set.get(i) == node, "at {i}");
    }

    let mut block = Block::new(&[7; 16]);
    block.overwrite(14, &[1, 2]);
    assert!(rt; block.bytes() == [7, 7, 7, 7, 7, 7, 7, 7, 7, 7, 7, 7, 7, 7, 1, 2].as_slice());

    // By time, then destination, then source, then sequence.
    for (a, b) in [
        (message(1, 9, 9, 9), message(2, 0, 0, 0)),
        (message(1, 1, 9, 9), message(1, 2, 0, 0)),
        (message(1, 1, 1, 9), message(1, 1, 2, 0)),
        (message(1, 1, 1, 1), message(1, 1, 1, 2)),
    ] {
        assert!(rt; a.key().cmp(&b.key()) == Ordering::Less);
        assert!(rt; b.key() > a.key());
    }
    Ok(())
}

#[test]
fn letters_go_through_a_list(rt: HostRuntime) -> Result<(), Fail> {
    let mut list = StampedList::new(rt.alloc());
    assert!(rt; list.is_empty());
    for sequence in 0..3 {
        list.push(message(5, 1, 0, sequence))?;
    }
    assert!(rt; list.len() == 3);
    assert!(rt; list.get(2).map(|message| message.sequence) == Some(2) && list.get(3).is_none());
    let second = list.remove_letter(1).ok_or("no second")?;
    assert!(rt; second.message().sequence == 1 && second.key() == message(5, 1, 0, 1).key());
    assert!(rt; list.remove_letter(2).is_none());
    list.push_letter(second)?;
    let first = list.pop_letter().ok_or("no first")?;
    list.give_back(first);
    list.push(message(6, 1, 0, 3))?;
    for (time, sequence) in [(5, 2), (5, 1), (6, 3)] {
        assert!(rt; list.pop_first() == Some(message(time, 1, 0, sequence)));
    }
    assert!(rt; list.pop_first() == None);
    list.push(message(7, 1, 0, 4))?;
    list.clear();
    assert!(rt; list.is_empty());
    let letter = Letter::new(rt.alloc(), message(8, 1, 0, 5));
    let mut letter = letter.ok().ok_or("no letter")?;
    letter.rewrite(message(9, 1, 0, 6));
    assert!(rt; letter.into_message() == message(9, 1, 0, 6));
    Ok(())
}
