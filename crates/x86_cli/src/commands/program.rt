//! Programs over a reader and a writer, and over a source and a sink.

ghost use Rattle.std.specs.Prelude.{◌≡◌, ◌↔◌, false, map, string_bytes};
ghost use Rattle.x86_cli.specs.Commands.Request.{Denotes, Runs, task_of};
ghost use Rattle.x86_cli.specs.Listings.Performs.{IsEnd, Performs, Task};
ghost use Rattle.x86_streams.specs.Outside.Joined.{joined_of};
ghost use Rattle.x86_streams.specs.Text.{Text};

use crate::commands::make::make;
use crate::commands::request::{Request, request_of};
use crate::listings::status::{Finished, Status};
use x86_streams::{Input, Joined, OneByOne, Output, Sink, Source};

/// What lists a text.
pub trait Program {
    /// What it lists of a text, what of that is known whatever follows the text, and the most bytes that are read.
    ghost task: { Self → Task };

    /// Writes the listing of the text that is read. What is written is gathered in a buffer of 64 KiB, and flushed
    /// before each read and at the end. The clause `performs` names each call in its order, for all streams.
    fn run<E, O: Input<E> + Output<E>>(&self, outside: &O, streams: &mut E) -> Finished
        ensures performs { Performs O.reads O.writes O.flushes O.gathers (task self.now) result
            streams.old streams.new }
        ensures ends { (t : Text) → IsEnd ((task self.now).lists t).status };
}

impl Program for Request {
    ghost task = { λ s. task_of s };

    #[tactic(auto, using(crate::proofs::CommandLemmas::Ends::task_ends))]
    fn run<E, O: Input<E> + Output<E>>(&self, outside: &O, streams: &mut E) -> Finished {
        match *self {
            Request::Reads(command) => command.run(outside, streams),
            Request::Makes(count) => make(count, outside, streams),
        }
    }
}

/// Does what the words request, over streams: what is read and what is written, in one value, as a `Joined` has them. The
/// clause `lists` names each call in its order, for all streams, files and pipes too:
///
/// - `Done`: the writer took the whole listing. The reads of a command end with one that returned no byte; `make` makes
///   none.
/// - `Usage`: the words request nothing. Nothing was read or written.
/// - `Refused`, `BadText`, `TooLarge`: the listing ends so, and the writer took all of it.
/// - `ReadFault`: the last read answered an error. The writer took the listing of the bytes read before.
/// - `WriteFault`: the writer's last call failed: a write or a flush answered an error, or a write took none of bytes
///   that aren't empty. The writer took a prefix of the listing.
///
/// At every status but `WriteFault` and `Usage` the last call is a flush that succeeded. Only a call that a signal
/// interrupted is made again. Before each read, all lines that the bytes so far decide were written and flushed, and no
/// more are certain (`laws::known_is_all`). After a refusal, the end, an error or a failed write nothing is read. That
/// `Process` passes each call on to std's is checked by inspection.
pub fn listed<E, O: Input<E> + Output<E>>(
    words: &[String],
    outside: &O,
    streams: &mut E,
) -> Finished
    ensures lists { (request : Request) → Denotes (map string_bytes words.now) request
        → Performs O.reads O.writes O.flushes O.gathers (task_of request) result
        streams.old streams.new }
    ensures usage { (result.status ≡ Status.Usage)
        ↔ ((request : Request) → Denotes (map string_bytes words.now) request → ⊥) }
    ensures nothing { result.status ≡ Status.Usage
        → (streams.new ≡ streams.old) × (result.gone ≡ false) }
{
    match request_of(words) {
        Some(request) => request.run(outside, streams),
        None => Finished {
            status: Status::Usage,
            gone: false,
        },
    }
}

/// Does what the words request, and returns how that ended.
///
/// A command reads a hex text from the source, at most `TEXT_MAX` bytes of it (`TARGETS_MAX` for `targets`), and puts its
/// listing to the sink. `make` with a number from 1 to `MAKE_MAX` reads nothing and puts one line.
///
/// The statuses are those of `listed`, where the source is the reader and a put is a write. At `Refused` the last line is a
/// refusal; `sweep` and `targets` never end so. At `BadText` it has the position of a byte that can't be where it is. At
/// `ReadFault` it is `read fault`, and at `TooLarge` `text too long`.
///
/// `ran` names each call, for every source and sink: the source is called only once every line that is decided was put.
/// The laws of this crate say what follows: `headline` where bytes are known, `made` of `make`, `ends`, `read_faults`
/// and `write_faults` of faults, `exact`, `unrefused` and `complete` of statuses.
pub fn run<S: Source, K: Sink>(words: &[String], source: &mut S, sink: &mut K) -> Status
    ensures ran { (request : Request) → Denotes (map string_bytes words.now) request
        → Runs S.gives K.takes request result
        (joined_of source.old sink.old) (joined_of source.new sink.new) }
    ensures usage { (result ≡ Status.Usage)
        ↔ ((request : Request) → Denotes (map string_bytes words.now) request → ⊥) }
    ensures nothing { result ≡ Status.Usage
        → (source.new ≡ source.old) × (sink.new ≡ sink.old) }
{
    let mut streams = Joined {
        reader: &mut *source,
        writer: &mut *sink,
    };
    listed(words, &OneByOne, &mut streams).status
}
