//! Runs of prefix bytes. Source: Intel SDM volume 2, sections 2.1.1 and 2.2.1.

ghost use Rattle.std.specs.Prelude.{◌≡◌, IsTrue};
ghost use Rattle.std.specs.List.{list_all};
ghost use Rattle.x86_fields.specs.Run.{reading_of, is_legacy, is_prefix};

use crate::prefixes::Prefixes;

/// Whether the byte is a legacy prefix.
pub fn is_legacy(byte: u8) -> bool
    ensures { result ≡ is_legacy byte }
{
    matches!(
        byte,
        0x66 | 0x67 | 0xf0 | 0xf2 | 0xf3 | 0x26 | 0x2e | 0x36 | 0x3e | 0x64 | 0x65
    )
}

/// The reading of a whole run.
pub fn reading_of(run: &[u8]) -> Prefixes
    requires { IsTrue (list_all is_prefix run.now) }
    ensures { result ≡ reading_of run.now }
{
    let mut prefixes = Prefixes::none();
    for byte in run {
        prefixes = prefixes.after(*byte);
    }
    prefixes
}
