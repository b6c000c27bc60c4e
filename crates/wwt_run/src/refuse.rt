ghost use Rattle.std.specs.Prelude.{◌≡◌, flat_map, IfErr};
ghost use Rattle.wt_text.specs.Text.{eight_digits};
ghost use Rattle.wt_outside.specs.Writes.{Writes};
ghost use Rattle.machine_json.specs.declared.fault.MachineFault.TheVariants.{Range};
ghost use Rattle.wwt_case.specs.declared.refusal.Refusal.TheVariants.{NoMemory, Machine, Image};
ghost use Rattle.wwt_run.specs.Answer.{Tells};
ghost use Rattle.wwt_run.specs.Refused.{error_line, file_text_of};
ghost use Rattle.wwt_run.specs.Status.{status_of_refusal};

use crate::status::Status;
use elf_image::ImageFault;
use itoa::Buffer;
use machine_json::MachineFault;
use wt_outside::{Sink, WriteFault};
use wwt_case::{ImageRefusal, Refusal};

const USAGE: &[u8] =
    b"wwt: usage: run [--workers W] [--trace] [--memory] [--budget B] MACHINE, check MACHINE, load NUMBER [--workers W], dis IMAGE, flat";

/// Writes the one line that tells of a refusal, and answers the status that goes with it. It takes no memory. That the
/// line can't be written changes nothing else.
#[tactic(auto, unfolding(crate::specs::Refused::error_line))]
pub fn refuse<E: Sink>(refusal: &Refusal, err: &mut E) -> Status
    ensures status { result ≡ status_of_refusal refusal.now }
    ensures line { Tells (error_line refusal.now) E.view err.old err.new }
{
    match refusal {
        Refusal::Usage => {
            say(refusal, &[USAGE, b"\n"], err);
            Status::Usage
        }
        Refusal::Read { name } => {
            say(
                refusal,
                &[b"wwt: cannot read ", name.get().as_bytes(), b"\n"],
                err,
            );
            Status::ReadFault
        }
        Refusal::Machine { fault } => {
            refuse_machine(refusal, fault, err);
            Status::BadMachine
        }
        Refusal::Image {
            number,
            refusal: why,
        } => {
            refuse_image(refusal, *number, *why, err);
            Status::BadImage
        }
        Refusal::Write => {
            say(refusal, &[b"wwt: write failed", b"\n"], err);
            Status::WriteFault
        }
        Refusal::NoMemory => out_of_memory(err),
    }
}

/// Tells want of memory, where not even the words of the command line could be had.
#[tactic(auto, unfolding(crate::specs::Refused::error_line))]
pub fn out_of_memory<E: Sink>(err: &mut E) -> Status
    ensures status { result ≡ status_of_refusal NoMemory }
    ensures line { Tells (error_line NoMemory) E.view err.old err.new }
{
    say(&Refusal::NoMemory, &[b"wwt: out of memory", b"\n"], err);
    Status::NoMemory
}

#[tactic(auto, unfolding(crate::specs::Refused::error_line))]
fn refuse_machine<E: Sink>(refusal: &Refusal, fault: &MachineFault, err: &mut E)
    requires { refusal.now ≡ Machine fault.now }
    ensures { Tells (error_line refusal.now) E.view err.old err.new }
{
    match fault {
        MachineFault::TooLong => say(refusal, &[b"wwt: machine: ", b"too long", b"\n"], err),
        MachineFault::Syntax => say(refusal, &[b"wwt: machine: ", b"syntax", b"\n"], err),
        MachineFault::NotObject => say(refusal, &[b"wwt: machine: ", b"not an object", b"\n"], err),
        MachineFault::Unknown(key) => {
            say(
                refusal,
                &[b"wwt: machine: ", b"unknown ", key.get().as_bytes(), b"\n"],
                err,
            )
        }
        MachineFault::Missing(key) => {
            say(
                refusal,
                &[b"wwt: machine: ", b"missing ", key.get().as_bytes(), b"\n"],
                err,
            )
        }
        MachineFault::Kind(key) => {
            say(
                refusal,
                &[b"wwt: machine: ", b"kind ", key.get().as_bytes(), b"\n"],
                err,
            )
        }
        MachineFault::Range(key, value) => {
            refuse_range(refusal, key.get().as_bytes(), *value, err)
        }
        MachineFault::Hex(image) => {
            let mut buffer = Buffer::new();
            let number = buffer.format(*image).as_bytes();
            say(
                refusal,
                &[b"wwt: machine: ", b"hex images.", number, b"\n"],
                err,
            )
        }
        MachineFault::NoMemory => say(refusal, &[b"wwt: machine: ", b"out of memory", b"\n"], err),
    }
}

#[tactic(auto, unfolding(crate::specs::Refused::error_line))]
fn refuse_range<E: Sink>(refusal: &Refusal, key: &[u8], value: u64, err: &mut E)
    requires { refusal.now ≡ Machine (Range key.now value) }
    ensures { Tells (error_line refusal.now) E.view err.old err.new }
{
    let mut buffer = Buffer::new();
    let number = buffer.format(value).as_bytes();
    say(
        refusal,
        &[b"wwt: machine: ", b"range ", key, b" ", number, b"\n"],
        err,
    )
}

#[tactic(auto, unfolding(crate::specs::Refused::error_line))]
fn refuse_image<E: Sink>(refusal: &Refusal, number: u32, why: ImageRefusal, err: &mut E)
    requires { refusal.now ≡ Image number why }
    ensures { Tells (error_line refusal.now) E.view err.old err.new }
{
    let mut buffer = Buffer::new();
    let image = buffer.format(number).as_bytes();
    match why {
        ImageRefusal::TooLong => {
            say(
                refusal,
                &[b"wwt: image ", image, b": ", b"too long", b"\n"],
                err,
            )
        }
        ImageRefusal::Elf { fault } => {
            say(
                refusal,
                &[b"wwt: image ", image, b": ", file_text(fault), b"\n"],
                err,
            )
        }
        ImageRefusal::Outside { address } => {
            let digits = eight_digits(address);
            say(
                refusal,
                &[b"wwt: image ", image, b": ", b"outside 0x", &digits, b"\n"],
                err,
            )
        }
        ImageRefusal::Entry { entry } => {
            let digits = eight_digits(entry);
            say(
                refusal,
                &[b"wwt: image ", image, b": ", b"entry 0x", &digits, b"\n"],
                err,
            )
        }
    }
}

/// What is wrong with a file that is no executable.
fn file_text(fault: ImageFault) -> &'static [u8]
    ensures { result.now ≡ file_text_of fault }
{
    match fault {
        ImageFault::Short => b"short",
        ImageFault::Magic => b"magic",
        ImageFault::Class => b"class",
        ImageFault::Order => b"order",
        ImageFault::NotExec => b"type",
        ImageFault::Machine => b"machine",
        ImageFault::Entries => b"entries",
        ImageFault::TableOutside => b"table",
        ImageFault::Dynamic => b"dynamic",
        ImageFault::SegmentOutside => b"segment",
        ImageFault::SizeLess => b"size",
        ImageFault::NoLoad => b"noload",
        ImageFault::NoMemory => b"out of memory",
    }
}

/// A word as eight hexadecimal digits.
fn eight_digits(word: u32) -> [u8; 8]
    ensures { result ≡ eight_digits word }
{
    let mut digits = [0u8; 8];
    hex::encode_to_slice(word.to_be_bytes(), &mut digits).unwrap();
    digits
}

/// Writes the line of a refusal, which comes in parts, up to the first part that fails.
fn say<E: Sink>(refusal: &Refusal, parts: &[&[u8]], err: &mut E)
    requires { flat_map (λ part. part.now) parts.now ≡ error_line refusal.now }
    ensures { Tells (error_line refusal.now) E.view err.old err.new }
{
    for part in parts {
        match say_part(err, part) {
            Ok(()) => {}
            Err(_) => return,
        }
    }
}

/// Writes a part of a line. It takes no memory.
fn say_part<E: Sink>(err: &mut E, part: &[u8]) -> Result<(), WriteFault>
    ensures writes { Writes part.now result E.view err.old err.new }
    ensures fault { IfErr result (λ fault. fault ≡ WriteFault.Failed) }
{
    if part.is_empty() {
        return Ok(());
    }
    match err.write(part) {
        Ok(()) => Ok(()),
        Err(_) => Err(WriteFault::Failed),
    }
}
