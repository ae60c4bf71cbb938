//! What a run over files is asked for.

/// Which files are run, and how.
#[derive(Drop)]
pub struct Options {
    /// Whether every answer is printed.
    pub all: bool,
    /// How many beginnings of each row are run too, from the empty one on.
    pub beginnings: u64,
    /// The files; without one standard input is read.
    pub files: Vec<String>,
}
