ghost use Rattle.std.specs.Prelude.{◌≡◌, flat_map, IfOk};
ghost use Rattle.std.specs.List.{enumerate_from};
ghost use Rattle.image_loader.specs.Images.{IsFor};
ghost use Rattle.wt_outside.specs.Writes.{Writes};
ghost use Rattle.wt_listing.specs.Listing.{version_line_of, field_line_of, has_field, line_in, image_line_of, machine_text};

use crate::write::write_line;
use elf_image::Image;
use image_loader::Loaded;
use machine_json::is_of_version_2;
use std::alloc::Global;
use wt_outside::{Sink, WriteFault};
use wt_params::{Field, Machine, MachineParts, NoMemory};
use wt_text::Line;

/// Writes a machine and its images: the version of its description, as `version 1`, then a line for each field of that
/// version in order, as key and value, and a line for each image, as `image 0 entry 0x00001000 segments 2`.
pub fn write_machine<K: Sink>(
    alloc: Global,
    version: u64,
    machine: &Machine,
    loaded: &Loaded,
    out: &mut K,
) -> Result<(), WriteFault>
    requires { IsFor machine.now loaded.now }
    ensures { Writes (machine_text version machine.now loaded.now) result K.view out.old out.new }
{
    write_version(alloc, version, out)?;
    write_fields(alloc, version, &machine.parts(), &Field::all(), out)?;
    write_images(alloc, loaded.images(), out)
}

fn write_version<K: Sink>(alloc: Global, version: u64, out: &mut K) -> Result<(), WriteFault>
    ensures { Writes (version_line_of version) result K.view out.old out.new }
{
    let line = version_line(alloc, version)?;
    write_line(&line, out)
}

/// As `version 1`.
fn version_line(alloc: Global, version: u64) -> Result<Line, NoMemory>
    ensures { IfOk result (λ line. line ≡ version_line_of version) }
{
    let mut line = Line::new(alloc, b"version ")?;
    line.number(version as u128)?;
    line.end()?;
    Ok(line)
}

/// Writes a line for each of these fields that descriptions of the version have.
fn write_fields<K: Sink>(
    alloc: Global,
    version: u64,
    machine: &MachineParts,
    fields: &[Field],
    out: &mut K,
) -> Result<(), WriteFault>
    ensures { Writes (flat_map (line_in version machine.now) fields.now) result K.view out.old out.new }
{
    for field in fields {
        write_field_in(alloc, version, machine, *field, out)?;
    }
    Ok(())
}

/// Writes the line of a field, if descriptions of the version have it.
fn write_field_in<K: Sink>(
    alloc: Global,
    version: u64,
    machine: &MachineParts,
    field: Field,
    out: &mut K,
) -> Result<(), WriteFault>
    ensures { Writes (line_in version machine.now field) result K.view out.old out.new }
{
    if !has_field(version, field) {
        return Ok(());
    }
    write_field(alloc, machine, field, out)
}

/// Whether descriptions of the version have a field.
fn has_field(version: u64, field: Field) -> bool
    ensures { result ≡ has_field version field }
{
    version == 2 || !is_of_version_2(field)
}

fn write_field<K: Sink>(
    alloc: Global,
    machine: &MachineParts,
    field: Field,
    out: &mut K,
) -> Result<(), WriteFault>
    ensures { Writes (field_line_of machine.now field) result K.view out.old out.new }
{
    let line = field_line(alloc, machine, field)?;
    write_line(&line, out)
}

/// As `costs.op 1`.
fn field_line(alloc: Global, machine: &MachineParts, field: Field) -> Result<Line, NoMemory>
    ensures { IfOk result (λ line. line ≡ field_line_of machine.now field) }
{
    let mut line = Line::new(alloc, field.key().as_bytes())?;
    line.text(b" ")?;
    line.number(machine.number(field) as u128)?;
    line.end()?;
    Ok(line)
}

/// Writes a line for each of these images.
fn write_images<K: Sink>(alloc: Global, images: &[Image], out: &mut K) -> Result<(), WriteFault>
    ensures { Writes (flat_map image_line_of (enumerate_from 0 images.now)) result K.view out.old out.new }
{
    for (number, image) in images.iter().enumerate() {
        write_image(alloc, number, image, out)?;
    }
    Ok(())
}

fn write_image<K: Sink>(
    alloc: Global,
    number: usize,
    image: &Image,
    out: &mut K,
) -> Result<(), WriteFault>
    ensures { Writes (image_line_of (number, image.now)) result K.view out.old out.new }
{
    let line = image_line(alloc, number, image)?;
    write_line(&line, out)
}

/// As `image 0 entry 0x00001000 segments 2`.
fn image_line(alloc: Global, number: usize, image: &Image) -> Result<Line, NoMemory>
    ensures { IfOk result (λ line. line ≡ image_line_of (number, image.now)) }
{
    let mut line = Line::new(alloc, b"image ")?;
    line.number(number as u128)?;
    line.entry_hex(b" entry ", image.entry)?;
    line.entry(b" segments ", image.segments.get().len() as u128)?;
    line.end()?;
    Ok(line)
}
