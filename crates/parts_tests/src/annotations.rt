use block_tags::Tag;
use cico_ops::{CicoAction, action};
use rv_decode::CicoOp;

#[test]
fn each_annotation_at_each_tag(rt: HostRuntime) {
    let nothing = CicoAction::Nothing;
    let get_x = CicoAction::GetX { had: false };
    let upgrade = CicoAction::GetX { had: true };
    for (op, invalid, read_only, writable) in [
        (CicoOp::CheckOutS, CicoAction::GetS, nothing, nothing),
        (CicoOp::CheckOutX, get_x, upgrade, nothing),
        (CicoOp::CheckIn, nothing, CicoAction::PutS, CicoAction::PutX),
    ] {
        assert!(rt; action(op, Tag::Invalid) == invalid, "{op:?}");
        assert!(rt; action(op, Tag::ReadOnly) == read_only, "{op:?}");
        assert!(rt; action(op, Tag::Writable) == writable, "{op:?}");
    }
}
