use block_tags::{Tag, TagTable};
use std::test::Fail;

#[test]
fn a_tag_for_each_block(rt: HostRuntime) -> Result<(), Fail> {
    let mut table = TagTable::new(rt.alloc(), 3)?;
    table.set(1, Tag::Writable);
    table.set(2, Tag::ReadOnly);
    assert!(rt;
        (table.get(0), table.get(1), table.get(2)) == (Tag::Invalid, Tag::Writable, Tag::ReadOnly)
    );
    table.set(1, Tag::Invalid);
    assert!(rt;
        (table.get(0), table.get(1), table.get(2)) == (Tag::Invalid, Tag::Invalid, Tag::ReadOnly)
    );
    let _none = TagTable::new(rt.alloc(), 0)?;
    Ok(())
}
