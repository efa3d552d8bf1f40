//! The commands that read a text, and what each of them writes.

ghost use Rattle.x86_decode.specs.Decoder.{is_strict};
ghost use Rattle.std.specs.Prelude.{◌≡◌, [], ◌∷◌, map, string_bytes};
ghost use Rattle.x86_cli.specs.Commands.Request.{command_of, task_of};
ghost use Rattle.x86_cli.specs.Listings.Performs.{Performs};
ghost use Rattle.x86_cli.specs.declared.commands.request.Request.TheVariants.{Reads};

use crate::listings::fields::FieldLines;
use crate::listings::line::Plain;
use crate::listings::listing::{UpToRefusal, list};
use crate::listings::status::Finished;
use crate::listings::sweep::PastRefusals;
use crate::listings::targets::targets;
use crate::listings::tightening::LeastLines;
use x86_decode::InstDecoder;
use x86_streams::lines::Place;
use x86_streams::{Input, Output};

/// The most bytes of a text.
pub const TEXT_MAX: u64 = 67_108_864;

/// The most bytes of a text whose image is held whole, as `targets` does.
pub const TARGETS_MAX: u64 = 16_384;

/// A command that reads a text and writes its listing.
#[derive(Clone, Copy, Drop)]
pub enum Command {
    /// The listing, by the default choice or the strict one.
    List { strict: bool },
    /// The parts of each encoding, by the default choice.
    Fields,
    /// The length of a shortest relative of each encoding, by the default choice.
    Tighten,
    /// The sweep, by the default choice.
    Sweep,
    /// The places that the instructions of the sweep branch to, by the default choice.
    Targets,
}

/// The command of one argument.
fn command_by(argument: &str) -> Option<Command>
    ensures { result ≡ command_of (argument.now ∷ []) }
{
    match argument {
        "list" => Some(Command::List { strict: false }),
        "fields" => Some(Command::Fields),
        "tighten" => Some(Command::Tighten),
        "sweep" => Some(Command::Sweep),
        "targets" => Some(Command::Targets),
        _ => None,
    }
}

/// The command that the words are, matched whole.
pub fn command_of(arguments: &[String]) -> Option<Command>
    ensures { result ≡ command_of (map string_bytes arguments.now) }
{
    match arguments {
        [argument] => command_by(argument.as_str()),
        [list, strict] if list.as_str() == "list" && strict.as_str() == "--strict" => {
            Some(Command::List { strict: true })
        }
        _ => None,
    }
}

fn decoder(strict: bool) -> InstDecoder
    ensures { is_strict result ≡ strict }
{
    if strict {
        InstDecoder::strict()
    } else {
        InstDecoder::default()
    }
}

impl Command {
    /// Writes the listing of the reader's text.
    pub fn run<E, O: Input<E> + Output<E>>(self, outside: &O, streams: &mut E) -> Finished
        ensures { Performs O.reads O.writes O.flushes O.gathers (task_of (Reads self)) result
            streams.old streams.new }
    {
        let default = InstDecoder::default();
        let fields = UpToRefusal { lines: FieldLines };
        let least = UpToRefusal { lines: LeastLines };
        let plain = UpToRefusal { lines: Plain };
        let first = Place::at(0);
        match self {
            Command::List { strict } => {
                list(&decoder(strict), &plain, first, TEXT_MAX, outside, streams)
            }
            Command::Fields => list(&default, &fields, first, TEXT_MAX, outside, streams),
            Command::Tighten => list(&default, &least, first, TEXT_MAX, outside, streams),
            Command::Sweep => list(&default, &PastRefusals, first, TEXT_MAX, outside, streams),
            Command::Targets => targets(&default, TARGETS_MAX, outside, streams),
        }
    }
}
