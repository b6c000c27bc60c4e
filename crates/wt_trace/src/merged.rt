ghost use Rattle.std.specs.Prelude.{◌≡◌, ◌++◌, [], IfOk, OnOk, map};
ghost use Rattle.wt_trace.specs.Merged.{records_of, merge_of, IsMerge};

use crate::node_log::NodeLog;
use crate::record::Record;
use std::alloc::Global;
use wt_params::NoMemory;

/// All records of the logs in rising order of keys, those of equal key in the order of the logs.
pub fn merge(alloc: Global, logs: &[NodeLog]) -> Result<NodeLog, NoMemory>
    ensures { IfOk result (λ log. log ≡ merge_of logs.now) }
{
    let mut items = all_records(alloc, logs)?;
    items.sort_by_key(|item| item.key)?;
    copies(alloc, &items)
}

/// The records of the logs, one log after another.
fn all_records<'a>(alloc: Global, logs: &'a [NodeLog]) -> Result<Vec<&'a Record>, NoMemory>
    ensures { IfOk result (λ items. map (λ item. item.now) items.items ≡ records_of logs.now) }
{
    let mut items = Vec::new(alloc);
    for log in logs {
        add_records(&mut items, log)?;
    }
    Ok(items)
}

fn add_records<'a>(items: &mut Vec<&'a Record>, log: &'a NodeLog) -> Result<(), NoMemory>
    ensures { OnOk result (map (λ item. item.now) items.new.items ≡ map (λ item. item.now) items.old.items ++ log.now) }
{
    let mut i = 0;
    while let Some(item) = log.get(i) {
        items.push(item)?;
        i += 1;
    }
    Ok(())
}

/// Records once more, as a log.
fn copies(alloc: Global, items: &[&Record]) -> Result<NodeLog, NoMemory>
    ensures { IfOk result (λ log. log ≡ map (λ item. item.now) items.now) }
{
    let mut log = NodeLog::new(alloc);
    for item in items {
        log.push(item.copy(alloc)?)?;
    }
    Ok(log)
}

/// The laws of merging: all records are there and no others, and there is no other such list where keys rise. So the
/// events of many nodes come back in their order.
pub fn merge_order()
    ensures { IsMerge }
{}
