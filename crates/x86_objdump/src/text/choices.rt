//! How an encoding reads W and 66, and which of 66, F2 and F3 choose its row.

ghost use Rattle.std.specs.Prelude.{◌≡◌};
ghost use Rattle.x86_objdump.specs.Text.Words.{is_special, is_last_hint, size_of_90, size_of_18, size_of_1b, size_of_hint, size_of_scan, size_by_entry, size_in_of, group_size, size_by, size_read, reads_w, reads_66_always, reads_66_alone, group_7_letter, group_chooser, chooser_of, reads_66};

use crate::text::context::Context;
use crate::text::letters::{chooser_letter, size_letter};
use crate::text::names::{Entry, special_name};
use x86_forms::Map;

/// Whether the encoding has a name of its own.
pub fn is_special(context: &Context) -> bool
    ensures { result ≡ is_special context.now }
{
    match special_name(context) {
        [] => false,
        _ => true,
    }
}

/// Whether it is memory with a reg of 6 or 7.
fn is_last_hint(context: &Context) -> bool
    ensures { result ≡ is_last_hint context.now }
{
    context.modrm.is_memory() && context.modrm.reg_field() > 5
}

fn size_of_90(context: &Context) -> u8
    ensures { result ≡ size_of_90 context.now }
{
    if context.prefixes.rep() || !context.is_exchange() {
        b'-'
    } else {
        b'u'
    }
}

fn size_of_18(context: &Context, entry: &Entry) -> u8
    ensures { result ≡ size_of_18 context.now entry.now }
{
    if !(entry.shape_letter() == b'h') || is_special(context) {
        b'-'
    } else if is_last_hint(context) {
        b'u'
    } else {
        b'v'
    }
}

fn size_of_1b(context: &Context) -> u8
    ensures { result ≡ size_of_1b context.now }
{
    match (context.modrm.is_memory(), context.prefixes.rep_any()) {
        (true, true) => b'-',
        (true, false) => b'a',
        (false, true) => b'y',
        (false, false) => b'u',
    }
}

fn size_of_hint(other: bool, beside: bool) -> u8
    ensures { result ≡ size_of_hint other beside }
{
    if other {
        b'-'
    } else if beside {
        b'y'
    } else {
        b'u'
    }
}

fn size_of_scan(context: &Context) -> u8
    ensures { result ≡ size_of_scan context.now }
{
    if context.prefixes.rep() { b'v' } else { b'u' }
}

fn size_by_entry(context: &Context, entry: &Entry) -> u8
    ensures { result ≡ size_by_entry context.now entry.now }
{
    match entry.own_size() {
        b'b' if context.opcode % 2 == 0 => b'y',
        b'b' => b'v',
        b'r' if context.modrm.is_memory() => b'-',
        b'r' => b'v',
        other => other,
    }
}

fn size_in_of(context: &Context, entry: &Entry) -> u8
    ensures { result ≡ size_in_of context.now entry.now }
{
    match context.opcode {
        0x18 => size_of_18(context, entry),
        0x1a if context.modrm.is_memory() => b'-',
        0x1a => b'v',
        0x1b => size_of_1b(context),
        0x1c => size_of_hint(is_special(context), context.prefixes.rep_any()),
        0x1e => size_of_hint(!(entry.shape_letter() == b'h'), context.prefixes.rep()),
        0x7e if context.prefixes.rep_any() => b'-',
        0x7e => b'y',
        0xbc | 0xbd => size_of_scan(context),
        _ => size_by_entry(context, entry),
    }
}

#[inline(never)]
fn group_size(context: &Context, entry: &Entry) -> u8
    ensures { result ≡ group_size context.now entry.now }
{
    if context.is_one(0x90) {
        size_of_90(context)
    } else if matches!(context.map, Map::Of) {
        size_in_of(context, entry)
    } else {
        size_by_entry(context, entry)
    }
}

/// The letter of a group, by a copy of the context.
#[inline(always)]
fn group_size_apart(context: &Context, entry: &Entry) -> u8
    ensures { result ≡ group_size context.now entry.now }
{
    let context = *context;
    group_size(&context, entry)
}

#[inline(always)]
fn size_by(letter: u8, context: &Context, entry: &Entry) -> u8
    ensures { result ≡ size_by letter context.now entry.now }
{
    match letter {
        b'g' => group_size_apart(context, entry),
        b'r' if context.modrm.is_memory() => b'-',
        b'r' => b'v',
        _ => letter,
    }
}

/// How W and 66 are read by an encoding.
#[inline(always)]
#[tactic(auto, unfolding(crate::specs::Text::Words::size_read))]
pub fn size_read(context: &Context, entry: &Entry) -> u8
    ensures { result ≡ size_read context.now entry.now }
{
    size_by(size_letter(context.map, context.opcode), context, entry)
}

/// Whether W has an effect.
pub fn reads_w(letter: u8) -> bool
    ensures { result ≡ reads_w letter }
{
    matches!(letter, b'v' | b'u' | b'y')
}

fn reads_66_always(letter: u8) -> bool
    ensures { result ≡ reads_66_always letter }
{
    matches!(letter, b'u' | b'a')
}

fn reads_66_alone(letter: u8) -> bool
    ensures { result ≡ reads_66_alone letter }
{
    matches!(letter, b'v' | b'z')
}

fn group_7_letter(context: &Context) -> u8
    ensures { result ≡ group_7_letter context.now }
{
    let reg = context.modrm.reg_field();
    if context.modrm.is_memory() {
        return if reg == 5 { b'r' } else { b'-' };
    }
    let chooses = matches!(
        context.modrm.byte(),
        0xc6 | 0xcc | 0xcd | 0xce | 0xcf | 0xd9 | 0xfa | 0xfd | 0xfe | 0xff
    );
    if reg == 5 || chooses { b'a' } else { b'-' }
}

fn group_chooser(context: &Context, entry: &Entry) -> u8
    ensures { result ≡ group_chooser context.now entry.now }
{
    match context.opcode {
        0x01 => group_7_letter(context),
        0x18 if is_last_hint(context) => b'a',
        0x18 => b'-',
        0x1e if !(entry.shape_letter() == b'h') || context.is_shadow_read() => b'3',
        0x1e => b'-',
        _ if context.modrm.reg_field() > 5 => b'a',
        _ => b'-',
    }
}

/// Which of 66, F2 and F3 choose the row.
#[tactic(auto, unfolding(crate::specs::Text::Words::chooser_of))]
pub fn chooser_of(context: &Context, entry: &Entry) -> u8
    ensures { result ≡ chooser_of context.now entry.now }
{
    match chooser_letter(context.map, context.opcode) {
        b'g' => group_chooser(context, entry),
        letter => letter,
    }
}

/// Whether 66 has an effect.
pub fn reads_66(context: &Context, entry: &Entry, letter: u8) -> bool
    ensures { result ≡ reads_66 context.now entry.now letter }
{
    reads_66_always(letter)
        || (reads_66_alone(letter) && !context.prefixes.has_w()
            || chooser_of(context, entry) == b'a' && !context.prefixes.rep_any())
}
