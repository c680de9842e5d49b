//! The standard output.

ghost use Rattle.std.specs.Prelude.{◌≡◌, ◌≤◌, [], None, Err, OnOk, if◌then◌else◌};
ghost use Rattle.std.specs.Io.KnownBytes.{Appends};
ghost use Rattle.shelf_terms.specs.Counts.{Rose, one_more};
ghost use Rattle.shelf_io.specs.Events.{after_putting};
ghost use Rattle.shelf_io.specs.Puts.{PutGives, put_failed};

use crate::errors::SinkError;
use crate::sink::Sink;
use records::Record;
use std::io;
use std::io::Write;
use std::marker::Model;

/// A writer of the system, as that of standard output, which need not tell what stands there.
///
/// The writer of standard output does not; of one that does, an answered put appends exactly the bytes.
#[derive(Drop)]
pub struct StdSink<W: Write + Drop> {
    writer: W,
    faults: u64,
    events: Record,
}

impl<W: Write + Drop> Model for StdSink<W> {
    ghost use Rattle.shelf_io.specs.StdSink.{StdSinkView, std_sink_code};

    ghost Value = { StdSinkView };

    ghost coded = { std_sink_code };

    ghost view = { λ s. record { faults = s.faults; contents = W.contents s.writer; events = s.events.events } };
}

impl<W: Write + Drop> StdSink<W> {
    /// Puts through this writer.
    pub fn new(writer: W) -> Self
        ensures { result ≡ record { faults = 0; contents = W.contents writer; events = [] } }
    {
        StdSink {
            writer,
            faults: 0,
            events: Record::new(),
        }
    }
}

impl<W: Write + Drop> Sink for StdSink<W> {
    ghost use Rattle.std.specs.Prelude.{None};

    ghost output = { λ s. record { written = None; faults = s.faults; events = s.events } };

    /// It takes no memory, and every error of the system is a fault.
    fn put(&mut self, bytes: &[u8]) -> Result<(), SinkError>
        ensures bytes { PutGives None None bytes.now result }
        ensures faults_stay { self.old.faults ≤ self.new.faults }
        ensures fault { result ≡ Err SinkError.Fault → Rose self.old.faults self.new.faults }
        ensures events { self.new.events ≡ after_putting self.old.events bytes.now result }
        ensures counted { self.new.faults
            ≡ (if put_failed result then one_more self.old.faults else self.old.faults) }
        ensures appends { OnOk result (Appends self.old.contents self.new.contents bytes.now) }
        ensures never_memory { result ≡ Err SinkError.Memory → ⊥ }
    {
        match write_whole(&mut self.writer, bytes) {
            Ok(()) => {
                self.events.took("", bytes);
                Ok(())
            }
            Err(_) => {
                self.events.refused("", bytes);
                self.faults = self.faults.saturating_add(1);
                Err(SinkError::Fault)
            }
        }
    }
}

/// Writes all bytes, call by call of the writer.
#[tactic(auto, using(crate::proofs::KnownBytes::appends_kept))]
fn write_whole<W: Write>(writer: &mut W, bytes: &[u8]) -> io::Result<()>
    ensures { OnOk result (Appends (W.contents writer.old) (W.contents writer.new) bytes.now) }
{
    writer.write_all(bytes)?;
    writer.flush()
}
