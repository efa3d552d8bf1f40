//! What `show` prints of an instruction, and its words as bases.

use x86_decode::InstDecoder;
use x86_objdump::{base_in, shown_line};

/// Lines of GNU objdump 2.40, by `-d -w -M intel`, of code at its address.
#[test]
fn lines(rt: HostRuntime) {
    for (address, bytes, line) in [
        (
            0x401007,
            &[0x74, 0x29][..],
            "401007:\t74 29                \tje     0x401032",
        ),
        (
            0xffff_ffff_ffff_fff9,
            &[0x48, 0x8b, 0x05, 0x10, 0x00, 0x00, 0x00, 0xc3],
            "fffffffffffffff9:\t48 8b 05 10 00 00 00 \tmov    rax,QWORD PTR [rip+0x10]        # 0x10",
        ),
        (
            0,
            &[
                0xf3, 0x2e, 0x66, 0x0f, 0x1f, 0x84, 0x00, 0x00, 0x00, 0x00, 0x00,
            ],
            "0:\tf3 2e 66 0f 1f 84 00 00 00 00 00 \trepz cs nop WORD PTR [rax+rax*1+0x0]",
        ),
    ] {
        match shown_line(&InstDecoder::default(), address, bytes) {
            Ok(shown) => assert!(&rt; shown.as_slice() == line.as_bytes(), "{shown}"),
            Err(error) => assert!(&rt; false, "{line}: {error}"),
        }
    }
    assert!(&rt; shown_line(&InstDecoder::default(), 0, &[0x06]).is_err());
}

/// The words of the program.

#[test]
fn bases(rt: HostRuntime) {
    assert!(&rt; base_in(&[]) == Some(0));
    for (text, base) in [
        ("0x401000", Some(0x401000)),
        ("0X1f", Some(31)),
        ("ffffffffffffFFFF", Some(u64::MAX)),
        ("10000000000000000", None),
        ("0x", None),
        ("4g", None),
        ("+1", None),
    ] {
        let word = String::from_str(rt.alloc(), text).expect(&rt, "memory");
        assert!(&rt; base_in(&[word]) == base, "{text}");
    }
}
