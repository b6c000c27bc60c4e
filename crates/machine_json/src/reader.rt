ghost use Rattle.std.specs.Prelude.{◌≡◌, Ok, Some, None, IfOk, OnOk, IfErr};
ghost use Rattle.machine_json.specs.Answers.{IsFaultOf, IsRefusalOf};
ghost use Rattle.machine_json.specs.Description.{data_of, data_fault, keys_fault, description_of, HasImages};
ghost use Rattle.serde_json.specs.View.{view};

use crate::description::Description;
use crate::fault::MachineFault;
use crate::fields::{check_version, read_numbers};
use crate::images::read_images;
use crate::keys::{key, table_of, version_of};
use serde_json::Value;
use std::alloc::Global;

/// Reads the description of a machine, a JSON object, with the images of its nodes. Keys are tested in the order of
/// their table, each whole before the next one, and the first fault decides.
pub fn read_machine(alloc: Global, bytes: &[u8]) -> Result<Description, MachineFault>
    ensures ok { IfOk result (λ description. description_of bytes.now ≡ Ok description) }
    ensures fault { IfErr result (IsRefusalOf (description_of bytes.now)) }
    ensures images { IfOk result HasImages }
{
    let description = read_value(alloc, bytes)?;
    check_keys(alloc, &description)?;
    check_version(alloc, &description)?;
    let machine = read_numbers(alloc, &description)?;
    let images = read_images(alloc, &description, machine.nodes())?;
    Ok(Description {
        machine,
        images,
        version: version_of(&description),
    })
}

/// The value of a text, where the bytes are UTF-8 and JSON.
fn read_value(alloc: Global, bytes: &[u8]) -> Result<Value, MachineFault>
    ensures ok { IfOk result (λ value. data_of bytes.now ≡ Some (view value)) }
    ensures fault { IfErr result (IsFaultOf (data_fault (data_of bytes.now))) }
{
    let Ok(text) = str::from_utf8(bytes) else {
        return Err(MachineFault::Syntax);
    };
    match Value::from_str(alloc, text) {
        Ok(value) => Ok(value),
        Err(refused) => {
            if refused.is_memory() {
                Err(MachineFault::NoMemory)
            } else {
                Err(MachineFault::Syntax)
            }
        }
    }
}

/// Tests that a description is an object of nothing but what stands in its table.
fn check_keys(alloc: Global, description: &Value) -> Result<(), MachineFault>
    ensures ok { OnOk result (keys_fault (view description.now) ≡ None) }
    ensures fault { IfErr result (IsFaultOf (keys_fault (view description.now))) }
{
    let Some(members) = description.as_object() else {
        return Err(MachineFault::NotObject);
    };
    match table_of(description).unknown_in(members) {
        Some(name) => Err(MachineFault::Unknown(key(alloc, name)?)),
        None => Ok(()),
    }
}
