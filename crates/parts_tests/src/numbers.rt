use std::test::Fail;
use wt_params::{Field, Machine, ParamFault};

#[test]
fn a_machine_and_its_first_fault(rt: HostRuntime) -> Result<(), Fail> {
    let flat = Machine::flat();
    assert!(rt; flat.home(7) == 0 && flat.block_at(0x8000_0000) == None);
    assert!(rt; flat.with_budget(5).budget() == 5);
    let mut parts = flat.parts();
    parts.blocks = 4;
    parts.block_bytes = 64;
    let machine = Machine::new(parts).ok().ok_or("refused")?;
    assert!(rt; machine.block_address(3) == 0x8000_00c0);
    assert!(rt; machine.block_at(0x8000_00ff) == Some(3));
    let fields = Field::all();
    assert!(rt; fields[0].key() == "nodes" && fields[22].key() == "costs.trap_each");
    assert!(rt; parts.number(Field::BlockBytes) == 64);
    parts.sets = 1024;
    parts.ways = 8;
    parts.quantum = 2;
    let fault = ParamFault {
        field: Field::Ways,
        value: 8,
    };
    assert!(rt; Machine::new(parts).err() == Some(fault));
    Ok(())
}
