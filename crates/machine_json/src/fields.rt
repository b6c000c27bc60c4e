ghost use Rattle.std.specs.Prelude.{◌≡◌, ◌≢◌, OnOk, IfOk, IfErr, IfSome, IfNone, None, Err};
ghost use Rattle.std.specs.Option.{option_map, option_and_then};
ghost use Rattle.machine_json.specs.Answers.{IsFaultOf};
ghost use Rattle.machine_json.specs.Description.{numbers_fault};
ghost use Rattle.machine_json.specs.Numbers.{parts_of, costs_or, number_or, kind_fault, number_fault, fields_fault, version_fault, few_nodes_fault, costs_fault, IsFirstAmong};
ghost use Rattle.machine_json.specs.Table.{whole_number};
ghost use Rattle.serde_json.specs.View.{view};
ghost use Rattle.wt_params.specs.Fields.{fault_among, machine_of};

use crate::default::default_parts;
use crate::fault::MachineFault;
use crate::keys::{COSTS, OWN_FIELDS, Table, VERSION, cost_key, key, value_of, version_of};
use serde_json::Value;
use std::alloc::Global;
use wt_params::{CostParts, Field, Machine, MachineParts, ParamFault};

/// The machine of a description, by its numbers.
pub(crate) fn read_numbers(alloc: Global, description: &Value) -> Result<Machine, MachineFault>
    ensures machine { IfOk result (λ machine. machine ≡ parts_of (view description.now)) }
    ensures none { OnOk result (numbers_fault (view description.now) ≡ None) }
    ensures fault { IfErr result (IsFaultOf (numbers_fault (view description.now))) }
{
    let parts = parts_of(description);
    check_few_nodes(alloc, description)?;
    let fields = Field::all();
    let made = Machine::new(parts);
    check_fields(alloc, description, &made, &fields[..OWN_FIELDS])?;
    check_costs(alloc, description)?;
    check_fields(alloc, description, &made, &fields[OWN_FIELDS..])?;
    Ok(made.unwrap())
}

/// Tests some fields in their order, each whole before the next one: it is there where it has to be, it is a whole
/// number, and a machine of these numbers isn't refused by it.
fn check_fields(
    alloc: Global,
    description: &Value,
    made: &Result<Machine, ParamFault>,
    fields: &[Field],
) -> Result<(), MachineFault>
    requires made { made.now ≡ machine_of (parts_of (view description.now)) }
    requires first { IsFirstAmong (parts_of (view description.now)) fields.now }
    ensures none { OnOk result (fields_fault (view description.now) (parts_of (view description.now)) fields.now ≡ None) }
    ensures in_range { OnOk result (fault_among (parts_of (view description.now)) fields.now ≡ None) }
    ensures fault { IfErr result (IsFaultOf (fields_fault (view description.now) (parts_of (view description.now)) fields.now)) }
{
    for field in fields {
        check_number(alloc, description, *field)?;
        if let Some(value) = refused_at(made, *field) {
            return Err(MachineFault::Range(key(alloc, field.key())?, value));
        }
    }
    Ok(())
}

/// The number that a machine was refused by, where it was by this field.
fn refused_at(made: &Result<Machine, ParamFault>, field: Field) -> Option<u64>
    ensures refused { IfSome result (λ value. made.now ≡ Err (record { field = field; value = value })) }
    ensures passed { IfNone result ((fault : ParamFault) → made.now ≡ Err fault → fault.field ≢ field) }
{
    match made {
        Err(fault) if fault.field == field => Some(fault.value),
        _ => None,
    }
}

/// Tests that a number is there where it has to be, and is a whole number.
fn check_number(alloc: Global, description: &Value, field: Field) -> Result<(), MachineFault>
    ensures ok { OnOk result (number_fault (view description.now) field ≡ None) }
    ensures fault { IfErr result (IsFaultOf (number_fault (view description.now) field)) }
{
    check_kind(
        alloc,
        matches!(field, Field::Nodes),
        field.key(),
        value_of(description, field),
    )
}

/// Tests that a whole number stands at a key, or nothing where it isn't required.
fn check_kind(
    alloc: Global,
    required: bool,
    name: &str,
    value: Option<&Value>,
) -> Result<(), MachineFault>
    ensures ok { OnOk result (kind_fault required name.now (option_map (λ v. view v.now) value.entry) ≡ None) }
    ensures fault { IfErr result (IsFaultOf (kind_fault required name.now (option_map (λ v. view v.now) value.entry))) }
{
    match value {
        None if required => Err(MachineFault::Missing(key(alloc, name)?)),
        Some(value) if value.as_u64().is_none() => Err(MachineFault::Kind(key(alloc, name)?)),
        _ => Ok(()),
    }
}

/// Tests that a machine of version 1 has few nodes.
#[tactic(auto, unfolding(crate::specs::Numbers::few_nodes_fault))]
fn check_few_nodes(alloc: Global, description: &Value) -> Result<(), MachineFault>
    ensures ok { OnOk result (few_nodes_fault (view description.now) ≡ None) }
    ensures fault { IfErr result (IsFaultOf (few_nodes_fault (view description.now))) }
{
    let nodes = number_or(description, Field::Nodes, 0);
    if version_of(description) == 2 || nodes <= 32 {
        return Ok(());
    }
    Err(MachineFault::Range(key(alloc, Field::Nodes.key())?, nodes))
}

/// Tests the version, which is there and is 1 or 2.
pub(crate) fn check_version(alloc: Global, description: &Value) -> Result<(), MachineFault>
    ensures ok { OnOk result (version_fault (view description.now) ≡ None) }
    ensures fault { IfErr result (IsFaultOf (version_fault (view description.now))) }
{
    let version = description.get(VERSION);
    check_kind(alloc, true, VERSION, version)?;
    let number = whole_number(version).unwrap_or(1);
    if !(1..=2).contains(&number) {
        return Err(MachineFault::Range(key(alloc, VERSION)?, number));
    }
    Ok(())
}

/// Tests that the costs, where they are there, are an object of nothing but costs.
fn check_costs(alloc: Global, description: &Value) -> Result<(), MachineFault>
    ensures ok { OnOk result (costs_fault (view description.now) ≡ None) }
    ensures fault { IfErr result (IsFaultOf (costs_fault (view description.now))) }
{
    let Some(costs) = description.get(COSTS) else {
        return Ok(());
    };
    let Some(members) = costs.as_object() else {
        return Err(MachineFault::Kind(key(alloc, COSTS)?));
    };
    match Table::Costs.unknown_in(members) {
        Some(name) => Err(MachineFault::Unknown(cost_key(alloc, name)?)),
        None => Ok(()),
    }
}

/// The numbers of a description, with the defaults of those that aren't there.
#[tactic(auto, unfolding(crate::specs::Numbers::parts_of))]
fn parts_of(description: &Value) -> MachineParts
    ensures { result ≡ parts_of (view description.now) }
{
    let default = default_parts(0);
    let nodes = number_or(description, Field::Nodes, default.nodes);
    let mut parts = MachineParts {
        nodes,
        private_bytes: number_or(description, Field::PrivateBytes, default.private_bytes),
        block_bytes: number_or(description, Field::BlockBytes, default.block_bytes),
        blocks: number_or(description, Field::Blocks, default.blocks),
        sets: number_or(description, Field::Sets, default.sets),
        ways: number_or(description, Field::Ways, default.ways),
        latency: number_or(description, Field::Latency, default.latency),
        self_latency: number_or(description, Field::SelfLatency, default.self_latency),
        hop: number_or(description, Field::Hop, default.hop),
        width: number_or(description, Field::Width, nodes),
        pointers: number_or(description, Field::Pointers, default.pointers),
        quantum: default.quantum,
        event_limit: number_or(description, Field::EventLimit, default.event_limit),
        budget: number_or(description, Field::Budget, default.budget),
        costs: costs_of(description, &default.costs),
    };
    parts.quantum = number_or(description, Field::Quantum, parts.lookahead());
    parts
}

/// The costs of a description, and others in the places of those that aren't there.
fn costs_of(description: &Value, default: &CostParts) -> CostParts
    ensures { result ≡ costs_or (view description.now) default.now }
{
    CostParts {
        op: number_or(description, Field::Op, default.op),
        taken: number_or(description, Field::Taken, default.taken),
        mem: number_or(description, Field::Mem, default.mem),
        hit: number_or(description, Field::Hit, default.hit),
        cico: number_or(description, Field::Cico, default.cico),
        call: number_or(description, Field::Call, default.call),
        fill: number_or(description, Field::Fill, default.fill),
        trap: number_or(description, Field::Trap, default.trap),
        trap_each: number_or(description, Field::TrapEach, default.trap_each),
    }
}

/// The number at a field, or its default where none is there.
fn number_or(description: &Value, field: Field, default: u64) -> u64
    ensures { result ≡ number_or (view description.now) field default }
{
    whole_number(value_of(description, field)).unwrap_or(default)
}

/// The unsigned whole number that stands somewhere.
pub(crate) fn whole_number(value: Option<&Value>) -> Option<u64>
    ensures { result ≡ option_and_then whole_number (option_map (λ v. view v.now) value.entry) }
{
    value.and_then(Value::as_u64)
}
