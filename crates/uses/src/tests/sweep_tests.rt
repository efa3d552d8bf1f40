//! Targets of branches, sweeps and marks.
use crate::tests::decoding::{decoded, error_named};
use x86_decode::InstDecoder;
use x86_layout::{Sweep, branch_target, mark_targets};

/// Whether this is where an instruction branches to.
fn goes_to(bytes: &[u8], next: u64, wanted: Option<u64>) -> bool {
    branch_target(&decoded(bytes), next) == wanted
}

#[test]
fn branches(rt: HostRuntime) {
    assert!(rt; goes_to(&[0xeb, 0xfe], 2, Some(0)));
    assert!(rt; goes_to(&[0xeb, 0xfe], 1, Some(u64::MAX)));
    assert!(rt;
        goes_to(
            &[0xe8, 0x00, 0x00, 0x00, 0x80],
            5,
            Some(0xffff_ffff_8000_0005)
        )
    );
    assert!(rt; goes_to(&[0x0f, 0x84, 0x01, 0x00, 0x00, 0x00], 6, Some(7)));
    assert!(rt; goes_to(&[0xff, 0xe0], 2, None));
    assert!(rt; goes_to(&[0x6a, 0x01], 2, None));
}

/// Whether the next cut is of the one byte at this place, with this name or this description of a refusal.
fn cuts_one(sweep: &mut Sweep<'_>, place: usize, answer: &str) -> bool {
    match &sweep.next() {
        Some(cut) => {
            let is_so = match &cut.answer {
                Ok(read) => read.opcode().mnemonic() == answer,
                Err(error) => error_named(answer) == Some(*error),
            };
            cut.place == place && cut.length == 1 && is_so
        }
        None => false,
    }
}

#[test]
fn a_sweep_continues_after_a_refusal(rt: HostRuntime) {
    let mut sweep = Sweep::new(InstDecoder::default(), &[0x06, 0x90, 0x48]);
    assert!(rt; cuts_one(&mut sweep, 0, "InvalidOpcode"));
    assert!(rt; cuts_one(&mut sweep, 1, "NOP"));
    assert!(rt; cuts_one(&mut sweep, 2, "ExhaustedInput"));
    assert!(rt; matches!(sweep.next(), None));
}

#[test]
fn a_sweep_ends(rt: HostRuntime) {
    let mut last = 0;
    for cut in Sweep::new(
        InstDecoder::default(),
        &[0x48, 0x01, 0xd8, 0x06, 0xe8, 0, 0],
    ) {
        last = cut.place;
    }
    assert!(rt; last == 5);
}

/// Whether marks that are all the same before are these after.
fn marks_become<const N: usize>(bytes: &[u8; N], before: bool, wanted: [bool; N]) -> bool {
    let mut marks = [before; N];
    mark_targets(&InstDecoder::default(), bytes, &mut marks);
    marks == wanted
}

#[test]
fn marks(rt: HostRuntime) {
    assert!(rt; marks_become(&[0xeb, 0xfe], true, [true, false]));
    let both = [true, false, false, true, false, false];
    assert!(rt; marks_become(&[0x74, 0x01, 0x06, 0xeb, 0xfb, 0x90], false, both));
    assert!(rt; marks_become(&[0xeb, 0xff, 0x90], false, [false; 3]));
    assert!(rt; marks_become(&[0xeb, 0x7f], true, [false; 2]));
}
