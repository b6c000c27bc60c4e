use std::test::Fail;
use wt_text::Line;

#[test]
fn a_line_of_each_part(rt: HostRuntime) -> Result<(), Fail> {
    let mut line = Line::new(rt.alloc(), b"count ")?;
    line.number(340282366920938463463374607431768211455)?;
    line.entry(b" at ", 0)?;
    line.counter(b"steps", 12)?;
    line.entry_hex(b" pc ", 0x8000_00af)?;
    line.text(b" ")?;
    line.digits(10)?;
    line.text(b" ")?;
    line.hex_pairs(&[0, 0x1f, 0xf0])?;
    line.end()?;
    let wanted =
        b"count 340282366920938463463374607431768211455 at 0 steps 12 pc 0x800000af 0000000a 001ff0\n";
    assert!(rt; line.as_bytes() == wanted.as_slice());
    Ok(())
}
