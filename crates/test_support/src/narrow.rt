//! A writer that takes little at a time, has room for so many bytes, and fails at one of its calls.
use std::alloc::Global;
use std::io;
use std::io::Write;

/// A writer that takes two bytes at a time, and no more than it has room for. Its first call is
/// interrupted, and takes nothing.
#[derive(Drop)]
pub struct Narrow {
    /// What it took.
    pub taken: Vec<u8>,
    /// How many bytes it takes yet.
    pub room: usize,
    /// Whether it was called.
    pub called: bool,
    /// Which of the calls to come fails, counted from 1; none where it is 0.
    pub failing: u64,
    /// Whether a call failed.
    pub failed: bool,
    /// Whether another call came behind one that failed.
    pub late: bool,
}

impl Narrow {
    /// A writer with so much room, of which the call of this number fails.
    pub fn new(alloc: Global, room: usize, failing: u64) -> Narrow {
        Narrow {
            taken: Vec::new(alloc),
            room,
            called: false,
            failing,
            failed: false,
            late: false,
        }
    }
}

impl Write for Narrow {
    fn write(&mut self, buf: &[u8]) -> io::Result<usize> {
        if !self.called {
            self.called = true;
            return Err(io::Error::from(io::ErrorKind::Interrupted));
        }
        self.late = self.late || self.failed;
        if self.failing == 1 {
            self.failing = 0;
            self.failed = true;
            return Err(io::Error::from(io::ErrorKind::BrokenPipe));
        }
        self.failing = self.failing.saturating_sub(1);
        let count = buf.len().min(2).min(self.room);
        self.taken.extend_from_slice(&buf[..count])?;
        self.room -= count;
        Ok(count)
    }

    fn flush(&mut self) -> io::Result<()> {
        Ok(())
    }
}
