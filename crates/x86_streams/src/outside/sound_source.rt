//! A source over a slice that never fails.

ghost use Rattle.std.specs.Prelude.{◌≡◌, ◌≢◌, ◌↔◌, Some, []};
ghost use Rattle.x86_streams.specs.Outside.Source.{ReportsGot};

use crate::outside::source::{Got, Source};

/// The bytes of a slice, without fail.
#[derive(Drop)]
pub struct SoundSource<'a> {
    bytes: &'a [u8],
}

impl<'a> SoundSource<'a> {
    /// A source of these bytes.
    pub fn new(bytes: &'a [u8]) -> SoundSource<'a>
        ensures { ⟦<SoundSource<'a> as Source>⟧.left result ≡ Some bytes.entry.now }
    {
        SoundSource { bytes }
    }
}

impl<'a> Source for SoundSource<'a> {
    ghost left = { λ s. Some s.bytes.now };

    ghost faults = { λ s. 0 };

    ghost gives = { λ s g t. ReportsGot g (Some s.bytes.now) (Some t.bytes.now) 0 0 };

    ghost reports = { λ s g t h. h };

    fn next(&mut self) -> Got
        ensures gives { ⟦<SoundSource<'a> as Source>⟧.gives self.old result self.new }
        ensures sound { result ≢ Got.Failed }
        ensures ended { (result ≡ Got.End)
            ↔ (⟦<SoundSource<'a> as Source>⟧.left self.old ≡ Some []) }
    {
        match self.bytes.split_first() {
            Some((first, rest)) => {
                self.bytes = rest;
                Got::Byte(*first)
            }
            None => Got::End,
        }
    }
}
