use std::test::Fail;
use wt_outside::MemStore;
use wwt_case::{Name, prepare};

/// What other words and files call for is told by the worked commands of `wwt_rows`.
#[test]
fn words_and_files_call_for_a_job(rt: HostRuntime) -> Result<(), Fail> {
    let alloc = rt.alloc();
    let mut words = Vec::new(alloc);
    words.push(String::from_str(alloc, "load")?)?;
    words.push(String::from_str(alloc, "7")?)?;
    let mut store = MemStore::new(alloc, Vec::new(alloc), Vec::new(alloc));
    assert!(rt; prepare(alloc, &words, &mut store).is_ok());
    Ok(())
}

#[test]
fn a_name_has_its_text(rt: HostRuntime) -> Result<(), Fail> {
    assert_eq!(rt; Name::new(rt.alloc(), "a.elf")?.get(), "a.elf");
    Ok(())
}
