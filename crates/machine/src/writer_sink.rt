//! A sink over any writer of std.
ghost use Rattle.std.specs.Prelude.{◌≡◌, ◌+◌, ◌<◌, ◌≤◌, take, length, IfOk};
ghost use Rattle.std.specs.Io.KnownBytes.{Appends};
ghost use Rattle.machine.specs.Written.{failures_of, taken};

use crate::writing::{Sink, SinkError};
use std::io;
use std::sync::ledger::{Blank, Book, Ledger, Share};

/// Any writer of std. Its bytes are known where the writer reports them: not for a file or a terminal.
#[derive(Drop)]
pub struct WriterSink<W: io::Write + Drop, L: Ledger> {
    writer: W,
    book: Book<L>,
    share: Share<L>,
    ghost usable: { 0 < share.parts },
}

impl<W: io::Write + Drop, L: Ledger> WriterSink<W, L> {
    /// A sink over the writer, without failures.
    pub fn new(writer: W, blank: Blank) -> WriterSink<W, L>
        requires name { blank.name ≡ L.name }
        requires parts { blank.parts ≡ L.parts }
        requires some { 0 < L.parts }
        ensures writer { result.writer ≡ writer }
        ensures failures { result.share.amount ≡ 0 }
    {
        let (book, share) = blank.open::<L>();
        WriterSink {
            writer,
            book,
            share,
        }
    }
}

impl<W: io::Write + Drop, L: Ledger> Sink for WriterSink<W, L> {
    ghost bytes = { λ s. W.contents s.writer };

    ghost failures = { λ s. s.share.amount };

    fn write(&mut self, piece: &[u8]) -> Result<usize, SinkError>
        ensures within { IfOk result (λ count. count ≤ length piece.now) }
        ensures bytes { Appends (W.contents self.old.writer) (W.contents self.new.writer) (take (taken result) piece.now) }
        ensures failures { self.new.share.amount ≡ self.old.share.amount + failures_of piece.now result }
    {
        match self.writer.write(piece) {
            Ok(0) if !piece.is_empty() => {
                self.book.add(&mut self.share, 1);
                Ok(0)
            }
            Ok(count) => Ok(count),
            Err(_) => {
                self.book.add(&mut self.share, 1);
                Err(SinkError)
            }
        }
    }
}
