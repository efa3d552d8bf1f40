//! Where control goes after instructions. The targets are those of objdump 2.40 for code at address 0, but for `66 e8`,
//! which has Intel's length here (docs/DIFFERENCES.md). The kinds are those of the Intel SDM, volume 2.
use crate::tests::decoding::decoded;
use x86_layout::{Flow, flow};

/// Whether control goes there after the instruction that the bytes are, at address 0.
fn goes(bytes: &[u8], wanted: Flow) -> bool {
    flow(&decoded(bytes), bytes.len() as u64) == wanted
}

#[test]
fn calls_and_jumps(rt: HostRuntime) {
    assert!(rt;
        goes(
            &[0xe8, 0x00, 0x00, 0x00, 0x80],
            Flow::Call(Some(0xffff_ffff_8000_0005))
        )
    );
    assert!(rt; goes(&[0x66, 0xe8, 0x01, 0x00, 0x00, 0x00], Flow::Call(Some(7))));
    assert!(rt; goes(&[0xff, 0xd0], Flow::Call(None)));
    assert!(rt; goes(&[0xff, 0x15, 0x00, 0x00, 0x00, 0x00], Flow::Call(None)));
    assert!(rt; goes(&[0xff, 0x18], Flow::Call(None)));
    assert!(rt; goes(&[0xeb, 0xfe], Flow::Jump(Some(0))));
    assert!(rt; goes(&[0xe9, 0x01, 0x00, 0x00, 0x00], Flow::Jump(Some(6))));
    assert!(rt; goes(&[0xff, 0xe0], Flow::Jump(None)));
    assert!(rt; goes(&[0xff, 0x28], Flow::Jump(None)));
}

#[test]
fn branches_with_a_condition(rt: HostRuntime) {
    assert!(rt; goes(&[0x74, 0x01], Flow::Branch(3)));
    assert!(rt; goes(&[0x0f, 0x8f, 0xfe, 0xff, 0xff, 0xff], Flow::Branch(4)));
    assert!(rt; goes(&[0xe0, 0xfe], Flow::Branch(0)));
    assert!(rt; goes(&[0xe1, 0xfe], Flow::Branch(0)));
    assert!(rt; goes(&[0xe2, 0x7f], Flow::Branch(0x81)));
    assert!(rt; goes(&[0xe3, 0x01], Flow::Branch(3)));
    assert!(rt; goes(&[0x67, 0xe3, 0x01], Flow::Branch(4)));
    assert!(rt; goes(&[0xc7, 0xf8, 0x10, 0x00, 0x00, 0x00], Flow::Branch(0x16)));
    assert!(rt; goes(&[0x66, 0xc7, 0xf8, 0xfe, 0xff], Flow::Branch(3)));
}

#[test]
fn returns_and_stops(rt: HostRuntime) {
    assert!(rt; goes(&[0xc3], Flow::Return));
    assert!(rt; goes(&[0xc2, 0x08, 0x00], Flow::Return));
    assert!(rt; goes(&[0xcb], Flow::Return));
    assert!(rt; goes(&[0x66, 0xcf], Flow::Return));
    assert!(rt; goes(&[0xcf], Flow::Return));
    assert!(rt; goes(&[0x48, 0xcf], Flow::Return));
    assert!(rt; goes(&[0xf3, 0x0f, 0x01, 0xec], Flow::Return));
    assert!(rt; goes(&[0x0f, 0x07], Flow::Return));
    assert!(rt; goes(&[0x0f, 0x35], Flow::Return));
    assert!(rt; goes(&[0x0f, 0xaa], Flow::Return));
    assert!(rt; goes(&[0xf4], Flow::Stop));
    assert!(rt; goes(&[0x0f, 0xff, 0xc0], Flow::Stop));
    assert!(rt; goes(&[0x0f, 0xb9, 0xc0], Flow::Stop));
    assert!(rt; goes(&[0x0f, 0x0b], Flow::Stop));
    assert!(rt; goes(&[0xf1], Flow::Stop));
    assert!(rt; goes(&[0xcc], Flow::Stop));
}

#[test]
fn what_continues(rt: HostRuntime) {
    assert!(rt; goes(&[0x90], Flow::Next));
    assert!(rt; goes(&[0xcd, 0x01], Flow::Next));
    assert!(rt; goes(&[0xcd, 0x03], Flow::Next));
    assert!(rt; goes(&[0xcd, 0x80], Flow::Next));
    assert!(rt; goes(&[0x0f, 0x05], Flow::Next));
    assert!(rt; goes(&[0x0f, 0x34], Flow::Next));
    assert!(rt; goes(&[0xc6, 0xf8, 0x00], Flow::Next));
    assert!(rt; goes(&[0x0f, 0x01, 0xc1], Flow::Next));
    assert!(rt; goes(&[0x6a, 0x01], Flow::Next));
}
