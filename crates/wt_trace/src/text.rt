ghost use Rattle.std.specs.Prelude.{◌≡◌, ◌<◌, ◌++◌, OnOk};
ghost use Rattle.std.specs.Option.{option_copied};
ghost use Rattle.wt_proto.specs.Messages.{BlockFits, MsgFits, data_of};
ghost use Rattle.wt_trace.specs.Text.{cause_text, block_text, kind_text, place_text, data_text, message_text};

use wt_params::{Machine, NoMemory};
use wt_proto::{Body, Cause, Msg};
use wt_text::Line;

/// Adds why a processor has stopped.
pub fn add_cause(line: &mut Line, cause: Cause) -> Result<(), NoMemory>
    ensures { OnOk result (line.new ≡ line.old ++ cause_text cause) }
{
    match cause {
        Cause::Exit { code } => line.entry(b"exit ", code as u128),
        Cause::Illegal { word } => line.entry_hex(b"illegal ", word),
        Cause::Fetch { address } => line.entry_hex(b"fetch ", address),
        Cause::Target { address } => line.entry_hex(b"target ", address),
        Cause::Address { address } => line.entry_hex(b"address ", address),
        Cause::Misaligned { address } => line.entry_hex(b"misaligned ", address),
        Cause::Call { number } => line.entry(b"call ", number as u128),
        Cause::Break => line.text(b"break"),
    }
}

/// Adds a block, as the address where it begins.
pub fn add_block(line: &mut Line, machine: &Machine, block: u32) -> Result<(), NoMemory>
    requires { block < machine.now.blocks }
    ensures { OnOk result (line.new ≡ line.old ++ block_text machine.now block) }
{
    line.entry_hex(b"", machine.block_address(block))
}

/// Adds a message: its kind, its block and its bytes.
pub fn add_message(line: &mut Line, machine: &Machine, msg: &Msg) -> Result<(), NoMemory>
    requires { MsgFits machine.now msg.now }
    ensures { OnOk result (line.new ≡ line.old ++ message_text machine.now msg.now) }
{
    line.text(kind(&msg.body))?;
    place(line, machine, msg.block, &msg.body)?;
    data(line, bytes_of(&msg.body))
}

fn kind(body: &Body) -> &'static [u8]
    ensures { result.now ≡ kind_text body.now }
{
    match body {
        Body::GetS => b"GetS",
        Body::GetX { had: false } => b"GetX",
        Body::GetX { had: true } => b"GetX+",
        Body::PutS => b"PutS",
        Body::PutX { .. } => b"PutX",
        Body::DataS { .. } => b"DataS",
        Body::DataX { .. } => b"DataX",
        Body::Inv => b"Inv",
        Body::InvAck { .. } => b"InvAck",
        Body::Wake => b"Wake",
        Body::Arrive => b"Arrive",
        Body::Leave => b"Leave",
        Body::Go => b"Go",
    }
}

/// Adds the block that a message speaks of.
fn place(line: &mut Line, machine: &Machine, block: u32, body: &Body) -> Result<(), NoMemory>
    requires { BlockFits machine.now block body.now }
    ensures { OnOk result (line.new ≡ line.old ++ place_text machine.now block body.now) }
{
    match body {
        Body::Arrive | Body::Leave | Body::Go => Ok(()),
        _ => {
            line.text(b" ")?;
            add_block(line, machine, block)
        }
    }
}

/// The bytes that a message carries.
fn bytes_of(body: &Body) -> Option<&[u8]>
    ensures { option_copied result ≡ data_of body.now }
{
    match body {
        Body::PutX { bytes } | Body::DataS { bytes } | Body::DataX { bytes } => Some(bytes.bytes()),
        Body::InvAck { bytes: Some(bytes) } => Some(bytes.bytes()),
        _ => None,
    }
}

/// Adds bytes, where there are any.
fn data(line: &mut Line, bytes: Option<&[u8]>) -> Result<(), NoMemory>
    ensures { OnOk result (line.new ≡ line.old ++ data_text (option_copied bytes.entry)) }
{
    match bytes {
        None => Ok(()),
        Some(bytes) => {
            line.text(b" ")?;
            line.hex_pairs(bytes)
        }
    }
}
