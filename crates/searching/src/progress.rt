//! How far a search has come, for who waits for it.

/// Who is to know how far a search has come.
pub trait Progress {
    /// So many `runs` were made; about so many `millionths` of the set's schedules come before the next one, and so many `worlds` are kept to compare with.
    fn report(&mut self, millionths: u64, runs: u64, worlds: u64);
}
