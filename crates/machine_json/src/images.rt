ghost use Rattle.std.specs.Prelude.{◌≡◌, ◌⊎◌, ◌%◌, None, Ok, All, length, IfOk, OnOk, IfErr};
ghost use Rattle.hex.specs.Hex.{decode_of};
ghost use Rattle.machine_json.specs.Answers.{IsFaultOf, IsRefusalOf};
ghost use Rattle.machine_json.specs.Images.{text_of, place_of, is_elf_of, format_fault, bytes_or, hex_image, file_image, entry_fault, image_of, images_from, images_of, IsPlaced};
ghost use Rattle.serde_json.specs.View.{view, items_view};

use crate::description::ImageSpec;
use crate::fault::MachineFault;
use crate::fields::whole_number;
use crate::keys::{AT, FILE, FORMAT, HEX, IMAGES, Table, image_key, key, member_key};
use crate::lists::{ByteList, FileName, ImageSpecs};
use hex::FromHexError;
use serde_json::Value;
use std::alloc::Global;
use wt_params::NoMemory;

/// The images of a description of a machine with so many nodes.
pub(crate) fn read_images(
    alloc: Global,
    description: &Value,
    nodes: u64,
) -> Result<ImageSpecs, MachineFault>
    ensures ok { IfOk result (λ images. images_of nodes (view description.now) ≡ Ok images) }
    ensures fault { IfErr result (IsRefusalOf (images_of nodes (view description.now))) }
    ensures count { IfOk result (λ images. (length images ≡ 1) ⊎ (length images ≡ nodes)) }
    ensures placed { IfOk result (All IsPlaced) }
{
    let Some(images) = description.get(IMAGES) else {
        return Err(MachineFault::Missing(key(alloc, IMAGES)?));
    };
    let Some(entries) = images.as_array() else {
        return Err(MachineFault::Kind(key(alloc, IMAGES)?));
    };
    let count = entries.len() as u64;
    if count != 1 && count != nodes {
        return Err(MachineFault::Range(key(alloc, IMAGES)?, count));
    }
    read_entries(alloc, entries)
}

/// The images of a list of entries, tested in order.
fn read_entries(alloc: Global, entries: &[Value]) -> Result<ImageSpecs, MachineFault>
    ensures ok { IfOk result (λ images. images_from 0 (items_view entries.now) ≡ Ok images) }
    ensures fault { IfErr result (IsRefusalOf (images_from 0 (items_view entries.now))) }
    ensures count { IfOk result (λ images. length images ≡ length entries.now) }
    ensures placed { IfOk result (All IsPlaced) }
{
    let mut images = Vec::new(alloc);
    for (number, entry) in entries.iter().enumerate() {
        images.push(read_image(alloc, number as u64, entry)?)?;
    }
    Ok(ImageSpecs::new(images))
}

/// The image of an entry, with its number.
fn read_image(alloc: Global, number: u64, entry: &Value) -> Result<ImageSpec, MachineFault>
    ensures ok { IfOk result (λ image. image_of number (view entry.now) ≡ Ok image) }
    ensures fault { IfErr result (IsRefusalOf (image_of number (view entry.now))) }
    ensures placed { IfOk result IsPlaced }
{
    check_entry(alloc, number, entry)?;
    match (entry.get(HEX), entry.get(FILE)) {
        (Some(hex), None) => read_hex_image(alloc, number, entry, hex),
        (None, Some(file)) => read_file_image(alloc, number, entry, file),
        _ => Err(MachineFault::Missing(member_key(alloc, number, HEX)?)),
    }
}

/// Tests that an entry is an object of nothing but what belongs to an image.
fn check_entry(alloc: Global, number: u64, entry: &Value) -> Result<(), MachineFault>
    ensures ok { OnOk result (entry_fault number (view entry.now) ≡ None) }
    ensures fault { IfErr result (IsFaultOf (entry_fault number (view entry.now))) }
{
    let Some(members) = entry.as_object() else {
        return Err(MachineFault::Kind(image_key(alloc, number)?));
    };
    match Table::Image.unknown_in(members) {
        Some(name) => Err(MachineFault::Unknown(member_key(alloc, number, name)?)),
        None => Ok(()),
    }
}

/// An image whose bytes stand in the description.
fn read_hex_image(
    alloc: Global,
    number: u64,
    entry: &Value,
    hex: &Value,
) -> Result<ImageSpec, MachineFault>
    ensures ok { IfOk result (λ image. hex_image number (view entry.now) (view hex.now) ≡ Ok image) }
    ensures fault { IfErr result (IsRefusalOf (hex_image number (view entry.now) (view hex.now))) }
    ensures placed { IfOk result IsPlaced }
{
    let text = read_text(alloc, number, HEX, hex)?;
    check_no_format(alloc, number, entry)?;
    let at = read_place(alloc, number, entry)?;
    let bytes = read_bytes(alloc, number, text)?;
    Ok(ImageSpec::Bytes {
        at,
        bytes: ByteList::new(bytes),
    })
}

/// Tests that no format stands beside bytes, which have none.
fn check_no_format(alloc: Global, number: u64, entry: &Value) -> Result<(), MachineFault>
    ensures ok { OnOk result (format_fault number (view entry.now) ≡ None) }
    ensures fault { IfErr result (IsFaultOf (format_fault number (view entry.now))) }
{
    match entry.get(FORMAT) {
        Some(_) => Err(MachineFault::Unknown(member_key(alloc, number, FORMAT)?)),
        None => Ok(()),
    }
}

/// An image in a file.
fn read_file_image(
    alloc: Global,
    number: u64,
    entry: &Value,
    file: &Value,
) -> Result<ImageSpec, MachineFault>
    ensures ok { IfOk result (λ image. file_image number (view entry.now) (view file.now) ≡ Ok image) }
    ensures fault { IfErr result (IsRefusalOf (file_image number (view entry.now) (view file.now))) }
    ensures placed { IfOk result IsPlaced }
{
    let text = read_text(alloc, number, FILE, file)?;
    let elf = read_format(alloc, number, entry)?;
    let at = read_place(alloc, number, entry)?;
    let name = FileName::new(String::from_str(alloc, text)?);
    Ok(ImageSpec::File { name, elf, at })
}

/// The text of a member of an image.
fn read_text<'v>(
    alloc: Global,
    number: u64,
    name: &str,
    value: &'v Value,
) -> Result<&'v str, MachineFault>
    ensures ok { IfOk result (λ text. text_of number name.now (view value.now) ≡ Ok text.now) }
    ensures fault { IfErr result (IsRefusalOf (text_of number name.now (view value.now))) }
{
    match value.as_str() {
        Some(text) => Ok(text),
        None => Err(MachineFault::Kind(member_key(alloc, number, name)?)),
    }
}

/// The bytes of a text of hexadecimal digits, in either case.
fn read_bytes(alloc: Global, number: u64, text: &str) -> Result<Vec<u8>, MachineFault>
    ensures ok { IfOk result (λ bytes. bytes_or number (decode_of text.now) ≡ Ok bytes.items) }
    ensures fault { IfErr result (IsRefusalOf (bytes_or number (decode_of text.now))) }
{
    match hex::decode(alloc, text) {
        Ok(bytes) => Ok(bytes),
        Err(FromHexError::OutOfMemory) => Err(MachineFault::NoMemory),
        Err(_) => Err(MachineFault::Hex(number)),
    }
}

/// Whether a file is an ELF executable.
fn read_format(alloc: Global, number: u64, entry: &Value) -> Result<bool, MachineFault>
    ensures ok { IfOk result (λ elf. is_elf_of number (view entry.now) ≡ Ok elf) }
    ensures fault { IfErr result (IsRefusalOf (is_elf_of number (view entry.now))) }
{
    let Some(format) = entry.get(FORMAT) else {
        return Ok(true);
    };
    if let Some(text) = format.as_str() {
        if text == "elf" {
            return Ok(true);
        }
        if text == "flat" {
            return Ok(false);
        }
    }
    Err(MachineFault::Kind(member_key(alloc, number, FORMAT)?))
}

/// Where flat bytes go.
fn read_place(alloc: Global, number: u64, entry: &Value) -> Result<u32, MachineFault>
    ensures ok { IfOk result (λ place. place_of number (view entry.now) ≡ Ok place) }
    ensures fault { IfErr result (IsRefusalOf (place_of number (view entry.now))) }
    ensures aligned { IfOk result (λ place. place % 4 ≡ 0) }
{
    let Some(value) = entry.get(AT) else {
        return Ok(0);
    };
    let Some(place) = value.as_u64() else {
        return Err(MachineFault::Kind(member_key(alloc, number, AT)?));
    };
    if place % 4 != 0 || place >= 1 << 32 {
        return Err(MachineFault::Range(member_key(alloc, number, AT)?, place));
    }
    Ok(place as u32)
}
