//! Where a run writes its text.
ghost use Rattle.std.specs.Prelude.{ℕ, List, Option, ◌≡◌, ◌+◌, ◌<◌, ◌≤◌, take, length, IfOk, OnErr, OnOk};
ghost use Rattle.std.specs.Io.KnownBytes.{Appends};
ghost use Rattle.machine.specs.Written.{AppendsBeginning, failures_of, taken};

use thiserror::Error;

/// A write that failed; nothing of its piece was taken.
#[derive(Clone, Copy, PartialEq, Eq, Debug, Error)]
#[error("cannot write")]
pub struct SinkError;

/// A place for bytes. Its meaning is the bytes taken so far, where they are known, and how many writes failed.
/// The count takes no bytes at run time.
pub trait Sink {
    ghost bytes: { Self → Option (List ℕ) };

    ghost failures: { Self → ℕ };

    /// Takes a front of the piece and answers its length. An answer of 0 for a piece that isn't empty is a failure, as is an error.
    fn write(&mut self, piece: &[u8]) -> Result<usize, SinkError>
        ensures within { IfOk result (λ count. count ≤ length piece.now) }
        ensures bytes { Appends (bytes self.old) (bytes self.new) (take (taken result) piece.now) }
        ensures failures { failures self.new ≡ failures self.old + failures_of piece.now result };
}

/// Writes the whole piece, in as many writes as the sink wants.
///
/// # Errors
/// Where a write failed; a beginning of the piece was taken then.
pub fn write_all<S: Sink>(sink: &mut S, piece: &[u8]) -> Result<(), SinkError>
    ensures whole { OnOk result (Appends (S.bytes sink.old) (S.bytes sink.new) piece.now) }
    ensures kept { OnOk result (S.failures sink.new ≡ S.failures sink.old) }
    ensures failed { OnErr result (S.failures sink.old < S.failures sink.new) }
    ensures beginning { AppendsBeginning (S.bytes sink.old) (S.bytes sink.new) piece.now }
{
    let mut rest = piece;
    while !rest.is_empty() {
        match sink.write(rest) {
            Ok(0) => return Err(SinkError),
            Ok(count) => rest = &rest[count..],
            Err(error) => return Err(error),
        }
    }
    Ok(())
}
