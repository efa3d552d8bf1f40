//! What follows from the definitions of the pieces of a listing, and what is certain of a listing before a read.

ghost use Rattle.std.specs.Prelude.{ℕ, Bool, List, codes};
ghost use Rattle.x86_cli.specs.Listings.Certain.{AwaitsMore, BeforeReads, KnowsAll, SentAllCertain};
ghost use Rattle.x86_cli.specs.Listings.Performs.{Performs};
ghost use Rattle.x86_objdump.specs.Certain.{LengthVaries};
ghost use Rattle.x86_objdump.specs.Listing.{showing};
ghost use Rattle.x86_objdump.specs.Pieces.{PiecesGoOn, PiecesOfMore, PiecesJoin};
ghost use Rattle.x86_streams.specs.Outside.Chain.{received};

use x86_cli::Finished;
use x86_cli::laws::decoder_laws;
use x86_streams::{Input, Output};

/// An image may be listed in parts that begin anywhere. After pieces at the beginning come those of the rest (`rest`).
/// Pieces at the beginning of a part that more bytes can't change are pieces of the part with more bytes after it
/// (`more`). From a place on at which two listings have a piece, their pieces are the same: so the lines of a part hold up
/// to the first place at which the next part has a line too, and those of the next part hold from there on (`join`).
pub fn pieces_join()
    ensures rest { (strict : Bool) → PiecesGoOn strict }
    ensures more { (strict : Bool) → PiecesOfMore strict }
    ensures join { (strict : Bool) → PiecesJoin strict }
{
    decoder_laws();
}

/// Before each read of `show` the listing isn't decided, and what had been written was flushed. What is known of a text
/// before a read, and what was written, is all that is certain: the listing of every text that goes on so begins with these
/// lines, and with no more. So it is where a text that goes on so has a piece of another length at the first place at which
/// more bytes may change the piece, as after `c5` (`holds`). Where only a lone byte can be there, `(bad)` is certain before
/// the decoder's error is known.
pub fn known_is_all<E, O: Input<E> + Output<E>>()
    ensures known { (base : ℕ) (bytes : List ℕ) → LengthVaries bytes
        → KnowsAll (showing base) bytes }
    ensures holds { LengthVaries (codes "c5") }
    ensures awaits { (base : ℕ) (outcome : Finished) (s t : E)
        → (h : Performs O.reads O.writes O.flushes O.gathers (showing base) outcome s t)
        → BeforeReads (AwaitsMore (showing base)) h.calls }
    ensures shown { (base : ℕ) (outcome : Finished) (s t : E)
        → (h : Performs O.reads O.writes O.flushes O.gathers (showing base) outcome s t)
        → BeforeReads (λ cs. LengthVaries (received cs)
        → SentAllCertain (showing base) cs) h.calls }
{
    decoder_laws();
}
