//! The names of operations.

ghost use Rattle.std.specs.Prelude.{◌≡◌, ℕ, List, ◌+◌, ◌<◌, ◌≤◌, ◌++◌, [], IsTrue, get_or, length, take};
ghost use Rattle.x86_objdump.specs.Text.Entries.{entry_for, stem, name_letter, shape_letter, own_size, memory_letter, reg_letter, rm_letter};
ghost use Rattle.x86_objdump.specs.Text.Names.{name_in_one, name_of_01, name_of_18, name_in_of, special_name, pushes_short, suffix_of, is_plain, is_in_name, comparisons, comparison_name, name_unless, product_name, name_with_immediate, long_name, listed_name};

use crate::text::context::Context;
use crate::text::tables::ENTRIES;
use x86_forms::Map;
use x86_opcodes::Opcode;
use x86_opcodes::laws::names_are_in_the_order_of_their_numbers;
use x86_streams::lines::cells::{put, put_bytes, put_first};

/// How an operation is written: its name as a block and a length, and six letters.
pub struct Entry {
    pub bytes: [u8; 16],
    pub len: usize,
    pub letters: [u8; 6],
}

/// An entry by its block, length and letters.
macro_rules! entry {
    ($bytes:literal, $len:literal, $letters:literal) => {
        $crate::text::names::Entry {
            bytes: *$bytes,
            len: $len,
            letters: *$letters,
        }
    };
}

pub(crate) use entry;

impl Entry {
    /// What follows the name or replaces it.
    #[inline(always)]
    pub fn name_letter(&self) -> u8
        ensures { result ≡ name_letter self.now }
    {
        self.letters[0]
    }

    /// Which operands are written, and how.
    #[inline(always)]
    pub fn shape_letter(&self) -> u8
        ensures { result ≡ shape_letter self.now }
    {
        self.letters[1]
    }

    /// How W and 66 are read, where the opcode byte leaves it to the operation.
    #[inline(always)]
    pub fn own_size(&self) -> u8
        ensures { result ≡ own_size self.now }
    {
        self.letters[2]
    }

    /// The size of memory, where the row has another.
    #[inline(always)]
    pub fn memory_letter(&self) -> u8
        ensures { result ≡ memory_letter self.now }
    {
        self.letters[3]
    }

    /// The size of the register of reg, where the row has another.
    #[inline(always)]
    pub fn reg_letter(&self) -> u8
        ensures { result ≡ reg_letter self.now }
    {
        self.letters[4]
    }

    /// The size of the register of rm, where the row has another.
    #[inline(always)]
    pub fn rm_letter(&self) -> u8
        ensures { result ≡ rm_letter self.now }
    {
        self.letters[5]
    }
}

/// How an operation is written.
#[inline(always)]
pub fn entry_for(opcode: Opcode) -> &'static Entry
    ensures is { result.now ≡ entry_for opcode }
    ensures short { result.now.len ≤ 16 }
{
    names_are_in_the_order_of_their_numbers();
    &ENTRIES[opcode.number() as usize]
}

/// Whether neither F2, F3 nor 66 is there.
fn is_plain(context: &Context) -> bool
    ensures { result ≡ is_plain context.now }
{
    !context.prefixes.rep_any() && !context.prefixes.operand_size()
}

fn name_in_one(context: &Context) -> &'static [u8]
    ensures text { result.now ≡ name_in_one context.now }
    ensures short { length result.now ≤ 16 }
{
    match context.opcode {
        0x90 if context.prefixes.rep() => b"pause",
        0x90 if context.is_exchange() => b"xchg",
        0x90 => b"nop",
        0xcc => b"int3",
        0xf1 => b"int1",
        0xa0..=0xa3 if !context.prefixes.address_size() => b"movabs",
        0xb8..=0xbf if context.prefixes.has_w() => b"movabs",
        _ => b"",
    }
}

fn name_of_01(context: &Context) -> &'static [u8]
    ensures text { result.now ≡ name_of_01 context.now }
    ensures short { length result.now ≤ 16 }
{
    match context.modrm.byte() {
        0xd9 if context.prefixes.rep_any() => b"vmgexit",
        0xfa if context.prefixes.rep() => b"mcommit",
        0xfd if context.prefixes.rep() => b"rmpquery",
        _ => b"",
    }
}

fn name_of_18(context: &Context) -> &'static [u8]
    ensures text { result.now ≡ name_of_18 context.now }
    ensures short { length result.now ≤ 16 }
{
    match context.modrm.byte() {
        0x35 if is_plain(context) => b"prefetchit1",
        0x3d if is_plain(context) => b"prefetchit0",
        _ => b"",
    }
}

fn name_in_of(context: &Context) -> &'static [u8]
    ensures text { result.now ≡ name_in_of context.now }
    ensures short { length result.now ≤ 16 }
{
    let reg = context.modrm.reg_field();
    match context.opcode {
        0x01 => name_of_01(context),
        0x09 if context.prefixes.rep() => b"wbnoinvd",
        0x0d if reg == 1 => b"prefetchw",
        0x0d if reg == 2 => b"prefetchwt1",
        0x0d => b"prefetch",
        0x18 => name_of_18(context),
        0x1c if context.modrm.is_memory() && reg == 0 && is_plain(context) => b"cldemote",
        0x1e if context.is_shadow_read() && context.prefixes.has_w() => b"rdsspq",
        0x1e if context.is_shadow_read() => b"rdsspd",
        _ => b"",
    }
}

/// A name that only some encodings of an operation have, else nothing.
#[tactic(auto, unfolding(crate::specs::Text::Names::special_name))]
pub fn special_name(context: &Context) -> &'static [u8]
    ensures text { result.now ≡ special_name context.now }
    ensures short { length result.now ≤ 16 }
{
    match context.map {
        Map::One => name_in_one(context),
        Map::Of => name_in_of(context),
        _ => b"",
    }
}

fn pushes_short(context: &Context) -> bool
    ensures { result ≡ pushes_short context.now }
{
    matches!(context.map, Map::Of) || (context.is_one(0x68) || context.is_one(0x6a))
}

/// What follows a name, by its letter.
#[tactic(auto, unfolding(crate::specs::Text::Names::suffix_of))]
fn suffix_of(context: &Context, suffix: u8) -> &'static [u8]
    ensures text { result.now ≡ suffix_of context.now suffix }
    ensures short { length result.now ≤ 16 }
{
    match suffix {
        b'w' if context.has_two_bytes() => b"w",
        b's' if context.has_two_bytes() && pushes_short(context) => b"w",
        b'q' | b'd' | b'i' if context.prefixes.has_w() => b"q",
        b'q' | b'e' if context.prefixes.operand_size() => b"w",
        b'd' => b"d",
        b'x' if context.prefixes.has_w() => b"64",
        b'8' => b"(8087 only)",
        b'2' => b"(287 only)",
        _ => b"",
    }
}

/// Whether the immediate is a part of the name.
pub fn is_in_name(naming: u8, immediate: &[u8]) -> bool
    ensures { result ≡ is_in_name naming immediate.now }
{
    match immediate {
        [i] => {
            naming == b'c' && *i < 8 || naming == b'p' && matches!(*i, 0 | 1 | 2 | 3 | 16 | 17)
        }
        _ => false,
    }
}

/// The comparisons by their number.
fn comparison(i: u8) -> &'static [u8]
    requires { i < 8 }
    ensures text { result.now ≡ get_or comparisons i [] }
    ensures short { length result.now ≤ 5 }
{
    match i {
        0 => b"eq",
        1 => b"lt",
        2 => b"le",
        3 => b"unord",
        4 => b"neq",
        5 => b"nlt",
        6 => b"nle",
        _ => b"ord",
    }
}

fn put_comparison(cells: &mut [u8], at: usize, entry: &Entry, i: u8) -> usize
    requires few { i < 8 }
    requires room { at + 32 ≤ length cells.old }
    ensures text { take result cells.new ≡ take at cells.old ++ comparison_name entry.now i }
    ensures short { result ≤ at + 16 }
{
    let at = put_first(cells, at, b"cmp ", 3);
    let at = put_bytes(cells, at, comparison(i));
    put_bytes(cells, at, &entry.bytes[3..5])
}

fn put_product(cells: &mut [u8], at: usize, i: u8) -> usize
    requires { at + 32 ≤ length cells.old }
    ensures text { take result cells.new ≡ take at cells.old ++ product_name i }
    ensures short { result ≤ at + 16 }
{
    let at = put_bytes(cells, at, b"pclmul");
    let at = put(cells, at, if i % 2 == 1 { b'h' } else { b'l' });
    let at = put(cells, at, b'q');
    let at = put(cells, at, if i < 2 { b'l' } else { b'h' });
    put_bytes(cells, at, b"qdq")
}

/// Writes the name of an entry.
#[inline(always)]
fn put_stem(cells: &mut [u8], at: usize, entry: &Entry) -> usize
    requires short { entry.now.len ≤ 16 }
    requires room { at + 32 ≤ length cells.old }
    ensures text { take result cells.new ≡
        take at cells.old ++ stem entry.now }
    ensures short { result ≤ at + 16 }
{
    put_first(cells, at, &entry.bytes, entry.len)
}

fn put_special_name(cells: &mut [u8], at: usize, context: &Context, entry: &Entry) -> usize
    requires short { entry.now.len ≤ 16 }
    requires room { at + 32 ≤ length cells.old }
    ensures text { take result cells.new ≡ take at cells.old
        ++ name_unless (special_name context.now) (stem entry.now) }
    ensures short { result ≤ at + 16 }
{
    match special_name(context) {
        [] => put_stem(cells, at, entry),
        name => put_bytes(cells, at, name),
    }
}

fn put_name_with(cells: &mut [u8], at: usize, entry: &Entry, immediate: &[u8]) -> usize
    requires named { IsTrue (is_in_name (name_letter entry.now) immediate.now) }
    requires room { at + 32 ≤ length cells.old }
    ensures text { take result cells.new ≡
        take at cells.old ++ name_with_immediate entry.now immediate.now }
    ensures short { result ≤ at + 16 }
{
    match immediate {
        [i] if entry.name_letter() == b'c' => put_comparison(cells, at, entry, *i),
        [i] => put_product(cells, at, *i),
        _ => at,
    }
}

/// Writes a name that has more than its stem.
#[inline(never)]
#[tactic(auto, unfolding(crate::specs::Text::Names::long_name))]
fn put_long_name(
    cells: &mut [u8],
    at: usize,
    context: &Context,
    entry: &Entry,
    immediate: &[u8],
) -> usize
    requires short { entry.now.len ≤ 16 }
    requires room { at + 48 ≤ length cells.old }
    ensures text { take result cells.new ≡
        take at cells.old ++ long_name context.now entry.now immediate.now }
    ensures short { result ≤ at + 32 }
{
    if entry.name_letter() == b'k' {
        return put_special_name(cells, at, context, entry);
    }
    if is_in_name(entry.name_letter(), immediate) {
        return put_name_with(cells, at, entry, immediate);
    }
    let at = put_stem(cells, at, entry);
    put_bytes(cells, at, suffix_of(context, entry.name_letter()))
}

/// Calls `put_long_name` with a copy of the context, so that the caller's needs no memory.
#[inline(always)]
fn put_apart(
    cells: &mut [u8],
    at: usize,
    context: &Context,
    entry: &Entry,
    immediate: &[u8],
) -> usize
    requires short { entry.now.len ≤ 16 }
    requires room { at + 48 ≤ length cells.old }
    ensures text { take result cells.new ≡
        take at cells.old ++ long_name context.now entry.now immediate.now }
    ensures short { result ≤ at + 32 }
{
    let context = *context;
    put_long_name(cells, at, &context, entry, immediate)
}

/// Whether no encoding of this opcode byte has a name of its own, where a few tests show it.
#[inline(always)]
#[tactic(auto, unfolding(crate::specs::Text::Names::special_name))]
fn lacks_own_name(context: &Context) -> bool
    ensures { IsTrue result → special_name context.now ≡ [] }
{
    matches!(context.map, Map::One)
        && (context.opcode < 0x90 || matches!(context.opcode, 0xc6 | 0xc7))
}

/// Whether a name that may have more is the stem, where a few tests show it.
#[inline(always)]
#[tactic(auto, unfolding(crate::specs::Text::Names::long_name, crate::specs::Text::Names::suffix_of))]
fn is_stem(context: &Context, entry: &Entry) -> bool
    ensures { IsTrue result → (immediate : List ℕ) →
        long_name context.now entry.now immediate ≡ stem entry.now }
{
    match entry.name_letter() {
        b'k' => lacks_own_name(context),
        b'w' | b's' => !context.prefixes.operand_size(),
        _ => false,
    }
}

/// Writes the name of an operation that has these bytes of immediates.
#[inline(always)]
pub fn put_name(
    cells: &mut [u8],
    at: usize,
    context: &Context,
    entry: &Entry,
    immediate: &[u8],
) -> usize
    requires short { entry.now.len ≤ 16 }
    requires room { at + 48 ≤ length cells.old }
    ensures text { take result cells.new ≡
        take at cells.old ++ listed_name context.now entry.now immediate.now }
    ensures short { result ≤ at + 32 }
{
    if entry.name_letter() == b'-' || is_stem(context, entry) {
        put_stem(cells, at, entry)
    } else {
        put_apart(cells, at, context, entry, immediate)
    }
}
