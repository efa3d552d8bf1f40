//! Hex text that is read without the decoder.

use crate::tests::runs::support::ShortReader;
use std::io::ErrorKind;
use x86_streams::{Ending, Input, OneByOne, Process, SliceSource, SoundSource, Window};

/// Reads a text until a byte of its image is in the window, or its end is known.
fn read_on<R, I: Input<R>>(window: &mut Window, input: &I, reader: &mut R) {
    for _ in 0..u64::MAX {
        window.take_known();
        if !window.bytes.is_empty() || window.ended.is_some() {
            return;
        }
        if !window.step() {
            window.fill(input, reader);
        }
    }
}

/// How a text ends of which so many bytes may be taken, if it has this image.
fn ending_after<R, I: Input<R>>(
    image: &[u8],
    input: &I,
    reader: &mut R,
    most: u64,
) -> Option<Ending> {
    let mut window = Window::new(most);
    for byte in image {
        read_on(&mut window, input, reader);
        if window.bytes.as_slice().first() != Some(byte) {
            return None;
        }
        window.bytes.leave(1);
    }
    read_on(&mut window, input, reader);
    if window.bytes.is_empty() {
        window.ended
    } else {
        None
    }
}

/// How a text ends, if it has this image.
fn ending_of(text: &[u8], image: &[u8]) -> Option<Ending> {
    ending_after(image, &OneByOne, &mut SoundSource::new(text), 1024)
}

#[test]
fn the_image_of_a_text(rt: HostRuntime) {
    assert!(&rt; matches!(ending_of(b"48 d8\n", b"\x48\xd8"), Some(Ending::Clean)));
    assert!(&rt; matches!(ending_of(b"", b""), Some(Ending::Clean)));
    assert!(&rt; matches!(ending_of(b"48 d8", b"\x48\xd9"), None));
    let long = b"000102030405060708090a0b0c0d0e0f10";
    let image = b"\x00\x01\x02\x03\x04\x05\x06\x07\x08\x09\x0a\x0b\x0c\x0d\x0e\x0f\x10";
    assert!(&rt; matches!(ending_of(long, image), Some(Ending::Clean)));
}

#[test]
fn blanks_are_between_pairs(rt: HostRuntime) {
    assert!(&rt;
        matches!(
            ending_of(b" \t48\r\n\nD8 ", b"\x48\xd8"),
            Some(Ending::Clean)
        )
    );
    assert!(&rt; matches!(ending_of(b"4 8", b""), Some(Ending::Bad(1))));
    assert!(&rt; matches!(ending_of(b"48 \x0bd8", b"\x48"), Some(Ending::Bad(3))));
}

#[test]
fn how_texts_end(rt: HostRuntime) {
    assert!(&rt; matches!(ending_of(b"4", b""), Some(Ending::Bad(1))));
    assert!(&rt; matches!(ending_of(b"48 dz", b"\x48"), Some(Ending::Bad(4))));
    let long = ending_after(b"", &OneByOne, &mut SoundSource::new(b"48"), 1);
    assert!(&rt; matches!(long, Some(Ending::Large)));
    let failing = ending_after(b"", &OneByOne, &mut SliceSource::new(b"48", &[1]), 1024);
    assert!(&rt; matches!(failing, Some(Ending::Fault)));
}

/// How this text ends where a read returns so many bytes, and one of them fails.
fn ending_in_reads(most: usize, fails: u64, image: &[u8]) -> Option<Ending> {
    let mut reader = ShortReader {
        bytes: b"48d8 c3",
        most,
        read: 0,
        fails,
        error: ErrorKind::Other,
    };
    ending_after(image, &Process, &mut reader, 1024)
}

#[test]
fn pairs_over_two_reads(rt: HostRuntime) {
    for most in [1, 2, 3, 5, 64] {
        let ending = ending_in_reads(most, u64::MAX, b"\x48\xd8\xc3");
        assert!(&rt; matches!(ending, Some(Ending::Clean)), "{most}");
    }
    // After three bytes the second pair is half read.
    assert!(&rt; matches!(ending_in_reads(3, 1, b"\x48"), Some(Ending::Fault)));
}
