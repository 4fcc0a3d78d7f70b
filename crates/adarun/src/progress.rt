//! What a search reports meanwhile to who waits for it at a terminal.
use itoa::Buffer;
use machine::{Sink, write_all};
use searching::Progress;

/// The time that the program has run, for who waits.
pub trait Stopwatch {
    /// Whole seconds since the program began, where standard error is a terminal.
    fn seconds(&self) -> Option<u64>;
}

/// Writes each second, where somebody waits, one line that says how far a search is (docs/FORMATS.md, "Search").
#[derive(Drop)]
pub(crate) struct Reporter<'a, E: Sink, W: Stopwatch> {
    err: &'a mut E,
    watch: &'a W,
    is_quiet: bool,
    last: u64,
}

impl<'a, E: Sink, W: Stopwatch> Reporter<'a, E, W> {
    /// One that has written nothing yet; a quiet one never writes.
    pub(crate) fn new(err: &'a mut E, watch: &'a W, is_quiet: bool) -> Self {
        Reporter {
            err,
            watch,
            is_quiet,
            last: 0,
        }
    }

    // Writes a text, or nothing where that fails: a search goes on without a terminal.
    fn put(&mut self, text: &[u8]) {
        let _ = write_all(self.err, text);
    }

    // Writes a number after a text.
    fn put_count(&mut self, text: &[u8], count: u64) {
        self.put(text);
        self.put(Buffer::new().format(count).as_bytes());
    }
}

impl<'a, E: Sink, W: Stopwatch> Progress for Reporter<'a, E, W> {
    fn report(&mut self, millionths: u64, runs: u64, worlds: u64) {
        if self.is_quiet {
            return;
        }
        let Some(seconds) = self.watch.seconds() else {
            return;
        };
        if seconds <= self.last {
            return;
        }
        self.last = seconds;
        self.put_count(b"search: ", millionths / 10_000);
        self.put_count(b" % of the set, ", runs);
        self.put_count(b" runs, ", worlds);
        self.put(b" worlds\n");
    }
}
