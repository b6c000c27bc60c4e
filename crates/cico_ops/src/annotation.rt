ghost use Rattle.std.specs.Prelude.{◌≡◌};
ghost use Rattle.cico_ops.specs.Annotations.{action_of};

use block_tags::Tag;
use rv_decode::CicoOp;

/// What is done for an annotation.
#[derive(Clone, Copy, Debug, PartialEq, Eq)]
pub enum CicoAction {
    /// Nothing: the copy is already what was asked for, or there is none to give back.
    Nothing,
    /// A copy to read is asked for, and the processor waits for it.
    GetS,
    /// A copy to write is asked for, and the processor waits for it. A copy to read, if it had one, is dropped.
    GetX { had: bool },
    /// The copy is dropped, and the home told so.
    PutS,
    /// The copy is dropped, and its bytes sent to the home.
    PutX,
}

/// What an annotation does with a block of this tag.
pub fn action(op: CicoOp, tag: Tag) -> CicoAction
    ensures { result ≡ action_of op tag }
{
    match (op, tag) {
        (CicoOp::CheckOutS, Tag::Invalid) => CicoAction::GetS,
        (CicoOp::CheckOutX, Tag::Invalid) => CicoAction::GetX { had: false },
        (CicoOp::CheckOutX, Tag::ReadOnly) => CicoAction::GetX { had: true },
        (CicoOp::CheckIn, Tag::ReadOnly) => CicoAction::PutS,
        (CicoOp::CheckIn, Tag::Writable) => CicoAction::PutX,
        _ => CicoAction::Nothing,
    }
}
