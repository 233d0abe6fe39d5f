//! The input, piece by piece.
ghost use Rattle.std.specs.Prelude.{◌≡◌, ◌≤◌, ◌<◌, ◌+◌, min, OnOk, IsErrOf};
ghost use Rattle.eir_io.specs.Causes.{Rose};
ghost use Rattle.eir_io.specs.declared.stop.Stop.{Stop};
ghost use Rattle.eir_io.specs.declared.stop.Stop.TheVariants as stop;
ghost use Rattle.eirene.specs.Promise.{AnswersAll};
ghost use Rattle.eirene.specs.Outcomes.{AnswersWhole, AnswersWithin, StopsWithin};

use crate::script::Script;
use eir_io::{Failed, Sink, Source, Stop};
use eir_term::Memory;
use std::alloc::Global;

/// The most bytes of an input.
pub const INPUT_LIMIT: usize = 16_777_216;

/// The bytes that are asked for at a time.
const PIECE: usize = 4096;

/// Why an input was not answered to its end.
#[derive(Clone, Copy, Debug, PartialEq, Eq)]
pub enum InputStop {
    /// A read failed.
    Fault,
    /// The input has more bytes than it may have.
    TooLong,
    /// A write failed, or there was no memory.
    Reply(Stop),
}

impl From<Failed> for InputStop {
    ghost use Rattle.eirene.specs.declared.input.InputStop.TheVariants.{Fault};
    ghost use Rattle.std.specs.Prelude.{◌≡◌};

    ghost from_gives = { λ _ e. e ≡ Fault };

    fn from(_: Failed) -> Self {
        InputStop::Fault
    }
}

impl From<Stop> for InputStop {
    ghost use Rattle.eirene.specs.declared.input.InputStop.TheVariants.{Reply};
    ghost use Rattle.std.specs.Prelude.{◌≡◌};

    ghost from_gives = { λ stop e. e ≡ Reply stop };

    fn from(stop: Stop) -> Self {
        InputStop::Reply(stop)
    }
}

impl From<Memory> for InputStop {
    ghost use Rattle.eir_io.specs.declared.stop.Stop.TheVariants as stop;
    ghost use Rattle.eirene.specs.declared.input.InputStop.TheVariants.{Reply};
    ghost use Rattle.std.specs.Prelude.{◌≡◌};

    ghost from_gives = { λ _ e. e ≡ Reply stop.Memory };

    fn from(_: Memory) -> Self {
        InputStop::Reply(Stop::Memory)
    }
}

/// Answers an input, which may have 16,777,216 bytes. Before the source is asked again, each whole line that was read
/// is answered and its reply is written.
pub fn answer_input<S: Source, K: Sink>(
    alloc: Global,
    input: &mut S,
    out: &mut K,
) -> Result<(), InputStop>
    ensures ok { OnOk result
        (AnswersAll (S.left input.old) (S.left input.new) (K.written out.old) (K.written out.new) INPUT_LIMIT) }
    ensures fault { IsErrOf result InputStop.Fault → Rose (S.faults input.old) (S.faults input.new)
        × AnswersWhole (S.left input.old) (S.left input.new) (K.written out.old) (K.written out.new) INPUT_LIMIT }
    ensures too_long { IsErrOf result InputStop.TooLong
        → AnswersWithin (S.left input.old) (S.left input.new) (K.written out.old) (K.written out.new) INPUT_LIMIT }
    ensures stops { (stop : Stop) → IsErrOf result (InputStop.Reply stop)
        → StopsWithin (S.left input.old) (S.left input.new) (K.written out.old) (K.written out.new) INPUT_LIMIT }
    ensures write { IsErrOf result (InputStop.Reply stop.Failed) → Rose (K.faults out.old) (K.faults out.new) }
    ensures later { (S.faults input.old ≤ S.faults input.new) × (K.faults out.old ≤ K.faults out.new) }
{
    let mut script = Script::new(alloc)?;
    let mut piece = [0; PIECE];
    let mut room = INPUT_LIMIT;
    for _turn in 0..INPUT_LIMIT + 1 {
        let count = input.read(&mut piece)?;
        if count == 0 {
            script.end(out)?;
            return Ok(());
        }
        let within = count.min(room);
        script.take(&piece[..within], out)?;
        if within < count {
            return Err(InputStop::TooLong);
        }
        room -= within;
    }
    // Each turn took a byte.
    unreachable!()
}
