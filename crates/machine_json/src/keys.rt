ghost use Rattle.std.specs.Prelude.{◌≡◌, ◌++◌, ◌&&◌, IfOk, OnOk, IfErr, None, codes, find, not, string_bytes};
ghost use Rattle.std.specs.BTreeMap.{keys};
ghost use Rattle.std.specs.List.{list_any};
ghost use Rattle.std.specs.Str.{bytes_eq};
ghost use Rattle.std.specs.Option.{option_map, option_copied};
ghost use Rattle.machine_json.specs.Answers.{IsFaultOf};
ghost use Rattle.machine_json.specs.Images.{image_key, member_key};
ghost use Rattle.machine_json.specs.Table.{is_in, unknown_in, is_cost, is_of_version_2, name_of, value_of, own_fields, cost_fields, table_of, version_of};
ghost use Rattle.wt_params.specs.Fields.{key_of};
ghost use Rattle.serde_json.specs.View.{view, members_view};

use crate::fields::whole_number;
use crate::lists::Key;
use serde_json::{Map, Value};
use std::alloc::Global;
use wt_params::{Field, NoMemory};

/// The key of the version.
pub(crate) const VERSION: &str = "version";
/// The key of the object of costs.
pub(crate) const COSTS: &str = "costs";
/// The key of the list of images.
pub(crate) const IMAGES: &str = "images";
/// The members of an image.
pub(crate) const HEX: &str = "hex";

pub(crate) const FILE: &str = "file";

pub(crate) const FORMAT: &str = "format";

pub(crate) const AT: &str = "at";

/// How many fields stand in the description itself; the rest are costs.
pub(crate) const OWN_FIELDS: usize = 14;

/// The objects of a description, each with a table of the keys that it may have.
#[derive(Clone, Copy, Debug)]
pub(crate) enum Table {
    Version1,
    Version2,
    Costs,
    Image,
}

impl Table {
    /// Whether a key is in the table.
    pub fn has(self, key: &str) -> bool
        ensures { result ≡ is_in self key.now }
    {
        match self {
            Table::Version1 => {
                key == VERSION || is_first_key(key) || key == COSTS || key == IMAGES
            }
            Table::Version2 => {
                key == VERSION || is_own_key(key) || key == COSTS || key == IMAGES
            }
            Table::Costs => is_cost_name(key),
            Table::Image => key == HEX || key == FILE || key == FORMAT || key == AT,
        }
    }

    /// The least key of an object, in the order of bytes, that isn't in the table.
    pub fn unknown_in(self, object: &Map<String, Value>) -> Option<&str>
        ensures { option_map (λ key. key.now) result ≡ unknown_in self (members_view object.now.entries) }
    {
        match self.first_unknown(object) {
            Some(key) => Some(key.as_str()),
            None => None,
        }
    }

    /// The first of an object's keys that isn't in the table. They stand in the order of bytes.
    fn first_unknown(self, object: &Map<String, Value>) -> Option<&String>
        ensures { option_copied result ≡ find (λ key. not (is_in self (string_bytes key))) (keys object.now) }
    {
        object.keys().find(|key| !self.has(key.as_str()))
    }
}

/// Whether a key is that of a number in the description itself.
fn is_own_key(key: &str) -> bool
    ensures { result ≡ list_any (λ field. bytes_eq key.now (key_of field)) own_fields }
{
    Field::all()[..OWN_FIELDS]
        .iter()
        .any(|field| key == field.key())
}

/// Whether a key is that of a number in a description of version 1 itself.
fn is_first_key(key: &str) -> bool
    ensures { result ≡ list_any (λ field. not (is_of_version_2 field) && bytes_eq key.now (key_of field)) own_fields }
{
    Field::all()[..OWN_FIELDS]
        .iter()
        .any(|field| !is_of_version_2(*field) && key == field.key())
}

/// Whether a description of version 1 can't give a number.
pub fn is_of_version_2(field: Field) -> bool
    ensures { result ≡ is_of_version_2 field }
{
    matches!(field, Field::Hop | Field::Width | Field::Pointers)
}

/// Whether a name is that of a cost.
fn is_cost_name(name: &str) -> bool
    ensures { result ≡ list_any (λ field. bytes_eq name.now (name_of field)) cost_fields }
{
    Field::all()[OWN_FIELDS..]
        .iter()
        .any(|field| name == name_of(*field))
}

/// Whether a number is a cost, and so stands among the costs.
pub(crate) fn is_cost(field: Field) -> bool
    ensures { result ≡ is_cost field }
{
    matches!(
        field,
        Field::Op
            | Field::Taken
            | Field::Mem
            | Field::Hit
            | Field::Cico
            | Field::Call
            | Field::Fill
            | Field::Trap
            | Field::TrapEach
    )
}

/// The name of a number in the object where it stands.
pub(crate) fn name_of(field: Field) -> &'static str
    ensures { result.now ≡ name_of field }
{
    match field {
        Field::Op => "op",
        Field::Taken => "taken",
        Field::Mem => "mem",
        Field::Hit => "hit",
        Field::Cico => "cico",
        Field::Call => "call",
        Field::Fill => "fill",
        Field::Trap => "trap",
        Field::TrapEach => "trap_each",
        own => own.key(),
    }
}

/// The version that a description says it has; 1 where none can be read.
pub(crate) fn version_of(description: &Value) -> u64
    ensures { result ≡ version_of (view description.now) }
{
    whole_number(description.get(VERSION)).unwrap_or(1)
}

/// The table of a description, by its version.
#[tactic(auto, unfolding(crate::specs::Table::table_of))]
pub(crate) fn table_of(description: &Value) -> Table
    ensures { result ≡ table_of (view description.now) }
{
    if version_of(description) == 2 {
        Table::Version2
    } else {
        Table::Version1
    }
}

/// What stands at a number's key.
pub(crate) fn value_of(description: &Value, field: Field) -> Option<&Value>
    ensures { option_map (λ value. view value.now) result ≡ value_of (view description.now) field }
{
    if is_cost(field) {
        description.get(COSTS)?.get(name_of(field))
    } else {
        description.get(name_of(field))
    }
}

/// A key of this text.
pub(crate) fn key(alloc: Global, text: &str) -> Result<Key, NoMemory>
    ensures { IfOk result (λ key. key ≡ text.now) }
{
    Ok(Key::new(String::from_str(alloc, text)?))
}

/// The key of a cost.
pub(crate) fn cost_key(alloc: Global, name: &str) -> Result<Key, NoMemory>
    ensures { IfOk result (λ key. key ≡ codes "costs." ++ name.now) }
{
    Ok(Key::new(format!(in alloc; "costs.{name}")?))
}

/// The key of an image.
pub(crate) fn image_key(alloc: Global, number: u64) -> Result<Key, NoMemory>
    ensures { IfOk result (λ key. key ≡ image_key number) }
{
    Ok(Key::new(format!(in alloc; "images.{number}")?))
}

/// The key of a member of an image.
pub(crate) fn member_key(alloc: Global, number: u64, name: &str) -> Result<Key, NoMemory>
    ensures { IfOk result (λ key. key ≡ member_key number name.now) }
{
    Ok(Key::new(format!(in alloc; "images.{number}.{name}")?))
}
