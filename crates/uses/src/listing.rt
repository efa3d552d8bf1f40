//! Lists the instructions of a hex text on standard input, and each byte that begins none, with their addresses.
#![tactic(auto)]

ghost use Rattle.std.specs.Prelude.{◌≡◌, ◌<◌, ◌≤◌, ◌++◌, codes, false, length};
ghost use Rattle.x86_decode.specs.Answer.{answer_of};
ghost use Rattle.x86_streams.specs.Lines.Hexadecimal.{hexadecimal};
ghost use Rattle.x86_text.specs.Lines.{instruction_text};

use std::io;
use std::io::{Read, Write};
use std::process::ExitCode;
use x86_decode::{DecodeError, InstDecoder, Instruction, laws};
use x86_streams::lines::hexadecimal::put_hexadecimal;
use x86_streams::{Ending, Gathered, Process, Window, WriteFailed};
use x86_text::{Line, push_instruction};

/// The address that the first byte of the image has.
const BASE: u64 = 0x401000;

/// The beginning of a line.
fn line_at(address: u64) -> Line
    ensures text { result.items ≡ hexadecimal address ++ codes "  " }
    ensures short { length result.items ≤ 18 }
{
    let mut line = Line::new();
    line.len = put_hexadecimal(&mut line.cells, 0, address);
    line.extend(b"  ");
    line
}

/// A line, and how many bytes of the image it is of.
#[derive(Drop)]
struct Entry {
    line: Line,
    count: usize,
}

/// The entry of the bytes at an address: that of their first instruction, or of a byte where none begins.
fn entry_at(address: u64, bytes: &[u8]) -> Entry
    requires { 0 < length bytes.now }
    ensures within { result.count ≤ length bytes.now }
    ensures instruction { (i : Instruction) → answer_of false bytes.now ≡ Ok i →
        result.line.items ≡ hexadecimal address ++ codes "  " ++ instruction_text i }
    ensures refusal { (e : DecodeError) → answer_of false bytes.now ≡ Err e →
        result.line.items ≡ hexadecimal address ++ codes "  (bad)" }
{
    laws::lengths();
    let mut line = line_at(address);
    let count = match InstDecoder::default().decode_slice(bytes) {
        Ok(instruction) => {
            push_instruction(&mut line, &instruction);
            instruction.len().to_const() as usize
        }
        Err(_) => {
            line.extend(b"(bad)");
            1
        }
    };
    Entry { line, count }
}

/// Reads on until 15 bytes of the image are held, which every instruction fits, or the text ends.
fn read_on<R: Read>(window: &mut Window, reader: &mut R) {
    for _ in 0..u64::MAX {
        window.take_known();
        if window.bytes.is_full() || window.ended.is_some() {
            break;
        }
        if !window.step() {
            window.fill(&Process, reader);
        }
    }
}

/// Lists the text of a reader. It returns how the text ended.
fn list<R: Read, W: Write>(reader: &mut R, writer: &mut W) -> Result<Option<Ending>, WriteFailed> {
    let mut window = Window::new(u64::MAX);
    let mut out = Gathered::new();
    let mut address = BASE;
    for _ in 0..u64::MAX {
        read_on(&mut window, reader);
        if window.bytes.is_empty() {
            break;
        }
        let entry = entry_at(address, window.bytes.as_slice());
        out.put(&Process, writer, entry.line.as_slice())?;
        out.put(&Process, writer, b"\n")?;
        window.bytes.leave(entry.count);
        address = address.wrapping_add(entry.count as u64);
    }
    out.send_all(&Process, writer)?;
    Ok(window.ended)
}

pub fn main(rt: HostRuntime) -> ExitCode {
    match list(&mut rt.reader(), &mut io::writer(&rt)) {
        Ok(Some(Ending::Clean)) => ExitCode::from(0),
        _ => ExitCode::from(1),
    }
}
