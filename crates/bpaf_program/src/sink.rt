//! Writers of whose writes a contract can speak.
ghost use Rattle.bpaf_program.specs.Ending.{known_writer, KnownSink};
ghost use Rattle.std.specs.{Io.WritesAtMost, Io.KnownBytes.WriteAppends};

use std::io;
use std::io::Write;

/// A writer whose failures a contract can tell. Each [`Write`] is one, of whose failures nothing is
/// known.
pub trait Sink {
    /// What is known of it.
    ghost known: { KnownSink Self };

    /// Writes some of the bytes, and answers how many; an error, or none of some, is a failure.
    fn write_once(&mut self, bytes: &[u8]) -> io::Result<usize>
        ensures bound { WritesAtMost result bytes.now }
        ensures bytes { WriteAppends (known.contents self.old) (known.contents self.new) result
            bytes.now }
        ensures answered { known.answers self.old bytes.now result self.new };
}

/// A write that is interrupted is tried again.
impl<W: Write> Sink for W {
    ghost known = { known_writer W.contents };

    fn write_once(&mut self, bytes: &[u8]) -> io::Result<usize> {
        for _ in 0..u64::MAX {
            match self.write(bytes) {
                Ok(count) => return Ok(count),
                Err(error) => {
                    if error.kind() != io::ErrorKind::Interrupted {
                        return Err(error);
                    }
                }
            }
        }
        Err(io::Error::from(io::ErrorKind::TimedOut))
    }
}
