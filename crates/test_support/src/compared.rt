//! Comparisons of what a test found with what it wants.
use std::alloc::{AllocError, Global};
use std::fmt::Debug;
use std::test::Fail;

/// Compares a text with the wanted one; where they differ the failure is the text that was found.
pub fn reads(found: Result<String, AllocError>, wanted: &str) -> Result<(), Fail> {
    let found = found?;
    if found.as_str() == wanted {
        Ok(())
    } else {
        Err(Fail::new(found))
    }
}

/// An answer as Rust's Debug prints it.
fn printed<T: Debug + Drop>(
    alloc: Global,
    found: Result<T, AllocError>,
) -> Result<String, AllocError> {
    let found = found?;
    format!(in alloc; "{found:?}")
}

/// Compares an answer, as Rust's Debug prints it, with the wanted text.
pub fn prints<T: Debug + Drop>(
    alloc: Global,
    found: Result<T, AllocError>,
    wanted: &str,
) -> Result<(), Fail> {
    reads(printed(alloc, found), wanted)
}
