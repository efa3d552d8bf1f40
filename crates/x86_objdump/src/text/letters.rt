//! Which prefixes the rows of each opcode byte read, as letters in the order of the opcode maps.

ghost use Rattle.std.specs.Prelude.{◌≡◌};
ghost use Rattle.x86_objdump.specs.Text.Letters.{letter_at, size_letter, chooser_letter};

use x86_forms::Map;

/// How W and 66 are read: `v` W, else 66; `u` W, and 66 always; `y` W alone; `z` 66, unless there is W; `a` 66 always;
/// `g` by the operation.
static SIZES_ONE: [[u8; 16]; 16] = [
    *b"-v-v-v---v-v-v--",
    *b"-v-v-v---v-v-v--",
    *b"-v-v-v---v-v-v--",
    *b"-v-v-v---v-v-v--",
    *b"----------------",
    *b"zzzzzzzzzzzzzzzz",
    *b"---u----zvzv-z-z",
    *b"----------------",
    *b"-v-v-v-v-v-vrvrz",
    *b"gvvvvvvvvv--zz--",
    *b"-v-v-v-v-v-v-v-v",
    *b"--------vvvvvvvv",
    *b"-vzz---gzzvv---v",
    *b"-v-v-----g---g--",
    *b"-----z-zzz---z-z",
    *b"-------v-------g",
];

static SIZES_OF: [[u8; 16]; 16] = [
    *b"ggvv---y--------",
    *b"--------gvgggvgv",
    *b"----------g-gg--",
    *b"-----y----------",
    *b"vvvvvvvvvvvvvvvv",
    *b"y---------------",
    *b"--------------g-",
    *b"--------------g-",
    *b"zzzzzzzzzzzzzzzz",
    *b"----------------",
    *b"zz-vvv--zz-vvvgv",
    *b"-vuvuuvvvvvvggvv",
    *b"-v-y---gvvvvvvvv",
    *b"-------y--------",
    *b"----------------",
    *b"---------------v",
];

static CHOOSERS_OF: [[u8; 16]; 16] = [
    *b"-g-------3------",
    *b"aaaaaaaag-----g-",
    *b"--------aaaaaaaa",
    *b"----------------",
    *b"----------------",
    *b"aaaaaaaaaaaaaaaa",
    *b"aaaaaaaaaaaaaaaa",
    *b"aaaaaaa-aaaaaaaa",
    *b"----------------",
    *b"----------------",
    *b"--------------a-",
    *b"--------3---33--",
    *b"--a-aaag--------",
    *b"aaaaaaaaaaaaaaaa",
    *b"aaaaaaaaaaaaaaaa",
    *b"aaaaaaaaaaaaaaa-",
];

/// The letter of an opcode byte.
#[inline(always)]
fn letter_at(rows: &[[u8; 16]; 16], opcode: u8) -> u8
    ensures { result ≡ letter_at rows.now opcode }
{
    rows[(opcode / 16) as usize][(opcode % 16) as usize]
}

/// How the rows of an opcode byte read W and 66.
#[inline(always)]
pub fn size_letter(map: Map, opcode: u8) -> u8
    ensures { result ≡ size_letter map opcode }
{
    match map {
        Map::One => letter_at(&SIZES_ONE, opcode),
        Map::Of => letter_at(&SIZES_OF, opcode),
        Map::Of38 => match opcode {
            0xf0 | 0xf1 => b'g',
            0xf5 | 0xf6 | 0xf9 => b'y',
            _ => b'-',
        },
        Map::Of3a => match opcode {
            0x16 | 0x22 | 0x60 | 0x61 => b'y',
            _ => b'-',
        },
    }
}

/// Which of F2, F3 and 66 choose among the rows of an opcode byte.
#[inline(always)]
pub fn chooser_letter(map: Map, opcode: u8) -> u8
    ensures { result ≡ chooser_letter map opcode }
{
    match map {
        Map::One if opcode == 0x90 => b'3',
        Map::One => b'-',
        Map::Of => letter_at(&CHOOSERS_OF, opcode),
        Map::Of38 | Map::Of3a => b'a',
    }
}
