/// A core has at most so many threads.
pub const MOST_THREADS: usize = 4096;
