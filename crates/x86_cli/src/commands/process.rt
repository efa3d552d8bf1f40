//! What `main` does before and after `listed`: its words, and how the process ends.

ghost use Rattle.std.specs.Prelude.{◌≡◌, ◌≤◌, IfOk, Some, drop, length};
ghost use Rattle.std.specs.Iterator.{IsFinite};
ghost use Rattle.std.specs.Iterator.Runs.{WholeRun};
ghost use Rattle.std.specs.Process.{exit_status};
ghost use Rattle.x86_cli.specs.Listings.Status.{code};
ghost use Rattle.x86_text.specs.Widths.{line_width};
ghost use Rattle.x86_cli.specs.Listings.Line.{line};
ghost use Rattle.x86_cli.specs.Commands.Process.{Reports, said_at};

use crate::commands::request::USAGE;
use crate::listings::status::{Finished, Status};
use std::alloc::{AllocError, Global};
use std::process::ExitCode;
use x86_streams::Output;
use x86_streams::outside::sending::send_out;
use x86_text::Line;

/// The words of a program: all arguments but the first, which is its name. It fails only where memory is refused.
pub fn words<I: Iterator<Item = String> + Drop>(
    alloc: Global,
    arguments: I,
) -> Result<Vec<String>, AllocError>
    requires can { I.can_next arguments }
    requires finite { IsFinite (I.remaining arguments) }
    ensures { IfOk result
        (λ words. WholeRun I.next_gives arguments (λ run. words.items ≡ drop 1 run.items)) }
{
    let mut words: Vec<String> = arguments.collect(alloc)?;
    if !words.is_empty() {
        let _ = words.remove(0);
    }
    Ok(words)
}

/// Writes a line, as far as the writer takes it.
pub fn report<E, O: Output<E>>(said: &str, output: &O, errors: &mut E)
    requires { length said.now ≤ line_width }
    ensures { Reports O.writes O.flushes (Some (line said.now)) errors.old errors.new }
{
    let mut line = Line::new();
    line.extend(said.as_bytes());
    line.push(b'\n');
    let _ = send_out(output, errors, line.as_slice());
}

/// How the process ends: with the number of the status. To `errors` it writes the usage line at `Usage`, and `write
/// fault` at `WriteFault` unless the output is `gone` (the reader of its pipe closed it), as far as `errors` takes them;
/// at every other status nothing.
pub fn finish<E, O: Output<E>>(outcome: Finished, output: &O, errors: &mut E) -> ExitCode
    ensures code { exit_status result ≡ code outcome.status }
    ensures says { Reports O.writes O.flushes (said_at outcome.status outcome.gone)
        errors.old errors.new }
{
    match outcome.status {
        Status::Usage => report(USAGE, output, errors),
        Status::WriteFault if !outcome.gone => report("write fault", output, errors),
        _ => {}
    }
    ExitCode::from(outcome.status.code())
}
