//! The example of docs/GUIDE.md with a contract: an instruction over two buffers.
ghost use Rattle.std.specs.Prelude.{◌≡◌, ◌+◌, ◌≤◌, ◌++◌, false, length};
ghost use Rattle.x86_decode.specs.Answer.{answer_of};

use x86_arch::ChunkReader;
use x86_decode::{DecodeError, InstDecoder, Instruction};

/// The instruction at the beginning of two slices, of which the second continues where the first ends. Their lengths
/// together are at most `usize::MAX`. Refused as `decode_slice` refuses their bytes joined. Encodings: Intel SDM
/// volume 2, section 2.1.
pub fn decode_over(first: &[u8], rest: &[u8]) -> Result<Instruction, DecodeError>
    requires { length first.now + length rest.now ≤ usize.MAX }
    ensures { result ≡ answer_of false (first.now ++ rest.now) }
{
    let mut reader = ChunkReader::new(first, rest);
    InstDecoder::default().decode(&mut reader)
}
