//! An output that bytes are put to.

ghost use Rattle.std.specs.Prelude.{◌≡◌, ◌≤◌};
ghost use Rattle.shelf_terms.specs.Counts.{Rose};
ghost use Rattle.records.specs.Stores.{Output};
ghost use Rattle.shelf_io.specs.Events.{after_putting};
ghost use Rattle.shelf_io.specs.Puts.{PutGives};

use crate::errors::SinkError;

/// An output, which may fail at any call.
///
/// Contracts see it as an `Output`: what stands in it, where it can tell that, the count of the puts that failed, and the
/// events, which are all puts so far with their bytes and how each was answered.
pub trait Sink {
    ghost output: { Self → Output };

    /// Puts the bytes behind what stands there.
    fn put(&mut self, bytes: &[u8]) -> Result<(), SinkError>
        ensures bytes { PutGives (output self.old).written (output self.new).written bytes.now result }
        ensures faults_stay { (output self.old).faults ≤ (output self.new).faults }
        ensures fault { result ≡ Err SinkError.Fault
            → Rose (output self.old).faults (output self.new).faults }
        ensures events { (output self.new).events
            ≡ after_putting (output self.old).events bytes.now result };
}
