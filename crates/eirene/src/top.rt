//! The top call.
ghost use Rattle.std.specs.Prelude.{◌≡◌, ◌≢◌, ◌↔◌, ◌≤◌, [], ◌∷◌, map, codes, string_bytes, IsTrue};
ghost use Rattle.eir_io.specs.Causes.{Rose};
ghost use Rattle.eirene.specs.Promise.{AnswersAll};
ghost use Rattle.eirene.specs.Outcomes.{AnswersWhole, AnswersWithin, StopsWithin};
ghost use Rattle.eirene.specs.Statuses.{status_of};

use crate::input::{INPUT_LIMIT, InputStop, answer_input};
use crate::status::Status;
use eir_io::{Shelf, Sink, Source, Stop};
use std::alloc::Global;

/// Whether the words are the one word `edit`.
fn is_edit(words: &[String]) -> bool
    ensures { IsTrue result ↔ (map string_bytes words.now ≡ codes "edit" ∷ []) }
{
    match words {
        [word] => word.as_str() == "edit",
        _ => false,
    }
}

/// The status of a run whose input was not answered to its end.
fn stop_status(stop: InputStop) -> Status
    ensures { result ≡ status_of stop }
{
    match stop {
        InputStop::Fault => Status::ReadFault,
        InputStop::TooLong => Status::InputTooLong,
        InputStop::Reply(Stop::Failed) => Status::WriteFault,
        InputStop::Reply(Stop::Memory) => Status::Memory,
    }
}

/// Runs the command that the words name: `edit` reads a script from the input, which may have 16,777,216 bytes, and
/// writes its replies. The words are those after the program's name. Before the source is asked again, each whole line
/// that was read is answered and its reply is written. The run ends at the first stop.
pub fn run<S: Source, K: Sink, F: Shelf>(
    alloc: Global,
    words: &[String],
    input: &mut S,
    out: &mut K,
    shelf: &mut F,
) -> Status
    // The words have no reading: exactly then nothing is read or written.
    ensures words { (result ≡ Status.BadWords) ↔ (map string_bytes words.now ≢ codes "edit" ∷ []) }
    ensures untouched { result ≡ Status.BadWords → (input.new ≡ input.old) × (out.new ≡ out.old) }

    // The input was read to its end, and all replies were written.
    ensures done { result ≡ Status.Done
        → AnswersAll (S.left input.old) (S.left input.new) (K.written out.old) (K.written out.new) INPUT_LIMIT }

    // The source's count of faults rose, and exactly the whole lines that were read are answered.
    ensures read { result ≡ Status.ReadFault → Rose (S.faults input.old) (S.faults input.new)
        × AnswersWhole (S.left input.old) (S.left input.new) (K.written out.old) (K.written out.new) INPUT_LIMIT }

    // The input is longer than the limit, and exactly the whole lines within the limit are answered.
    ensures too_long { result ≡ Status.InputTooLong
        → AnswersWithin (S.left input.old) (S.left input.new) (K.written out.old) (K.written out.new) INPUT_LIMIT }

    // A prefix of the bytes of the replies was written, and the sink's count of faults rose, or there was no memory.
    ensures write { result ≡ Status.WriteFault → Rose (K.faults out.old) (K.faults out.new)
        × StopsWithin (S.left input.old) (S.left input.new) (K.written out.old) (K.written out.new) INPUT_LIMIT }
    ensures memory { result ≡ Status.Memory
        → StopsWithin (S.left input.old) (S.left input.new) (K.written out.old) (K.written out.new) INPUT_LIMIT }

    // No other status comes, counts of faults never fall, and the shelf is not called.
    ensures served { (result ≢ Status.CheckNo) × (result ≢ Status.ShelfFault) }
    ensures later { (S.faults input.old ≤ S.faults input.new) × (K.faults out.old ≤ K.faults out.new) }
    ensures shelf { shelf.new ≡ shelf.old }
{
    let _ = shelf;
    if !is_edit(words) {
        return Status::BadWords;
    }
    match answer_input(alloc, input, out) {
        Ok(()) => Status::Done,
        Err(stop) => stop_status(stop),
    }
}
