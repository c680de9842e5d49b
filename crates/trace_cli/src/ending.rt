//! How a call ends: the answer or the error line is put out, and the status says which.

ghost use Rattle.std.specs.Prelude.{◌≡◌, ◌⊎◌, [], ◌∷◌, ◌++◌};
ghost use Rattle.shelf_terms.specs.Counts.{Rose};
ghost use Rattle.records.specs.Events.{Took, Refused};
ghost use Rattle.outcome_terms.specs.Statuses.{refusal_status};
ghost use Rattle.outcome_terms.specs.Output.{Delivers, TellsAnswer, TellsPrefix, TellsRefusal, memory_line};
ghost use Rattle.command_io.specs.Answers.{left_text};

use cli_words::{Status, refusal_line, refusal_status};
use command_io::Done;
use outcome_terms::Refusal;
use shelf_io::{Sink, SinkError};
use std::alloc::Global;

/// The error line for want of memory, which takes none.
const MEMORY_LINE: &[u8] = b"error 1 memory\n";

/// Puts out what a command left to be put out, or its error line.
pub fn put_out<O: Sink>(alloc: Global, answer: Result<Done, Refusal>, out: &mut O) -> Status
    ensures { Delivers (left_text answer) result (O.output out.old)
        (O.output out.new) }
{
    match answer {
        Ok(Done::Written) => Status::Ok,
        Ok(Done::Text(text)) => put_text(text.as_slice(), out),
        Err(refusal) => put_refusal(alloc, &refusal, out),
    }
}

/// Puts out the text that a command made.
fn put_text<O: Sink>(text: &[u8], out: &mut O) -> Status
    ensures ends { (result ≡ Status.Ok)
        ⊎ (((result ≡ Status.OutFault) × Rose (O.output out.old).faults (O.output out.new).faults) ⊎ (result ≡ Status.Memory)) }
    ensures out { TellsAnswer result text.now (O.output out.old).written (O.output out.new).written }
    ensures taken { result ≡ Status.Ok
        → (O.output out.new).events ≡ (O.output out.old).events ++ Took [] text.now ∷ [] }
    ensures refused { result ≡ Status.OutFault
        → (O.output out.new).events ≡ (O.output out.old).events ++ Refused [] text.now ∷ [] }
{
    match out.put(text) {
        Ok(()) => Status::Ok,
        Err(SinkError::Fault) => Status::OutFault,
        Err(SinkError::Memory) => put_memory_line(out),
    }
}

/// Puts out the error line of a refusal.
fn put_refusal<O: Sink>(alloc: Global, refusal: &Refusal, out: &mut O) -> Status
    ensures ends { (result ≡ refusal_status refusal.now) ⊎ (result ≡ Status.Memory) }
    ensures out { TellsRefusal result refusal.now (Rose (O.output out.old).faults (O.output out.new).faults)
        (O.output out.old).written (O.output out.new).written }
{
    let Ok(line) = refusal_line(alloc, refusal) else {
        return put_memory_line(out);
    };
    match out.put(line.as_slice()) {
        Ok(()) => refusal_status(refusal),
        Err(SinkError::Fault) => refusal_status(refusal),
        Err(SinkError::Memory) => Status::Memory,
    }
}

/// Puts out the error line for want of memory.
fn put_memory_line<O: Sink>(out: &mut O) -> Status
    ensures status { result ≡ Status.Memory }
    ensures out { TellsPrefix memory_line (O.output out.old).written (O.output out.new).written }
{
    let _ = out.put(MEMORY_LINE);
    Status::Memory
}
