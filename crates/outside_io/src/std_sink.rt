//! A sink over a writer of std.

ghost use Rattle.std.specs.Prelude.{◌≡◌};

use crate::edge::{Failed, Sink};
use std::io::Write;

/// A sink over a writer: one write for each give. What the writer knows of its bytes is told.
#[derive(Drop)]
pub struct StdSink<W> {
    /// What the calls go to.
    pub writer: W,
    /// How many writes failed, or wrote nothing of a piece that isn't empty, up to the greatest `u64`.
    pub faults: u64,
}

impl<W: Write> StdSink<W> {
    /// A sink over a writer, with no fault yet.
    pub fn start(writer: W) -> StdSink<W>
        ensures writer { result.writer ≡ writer }
        ensures faults { result.faults ≡ 0 }
    {
        StdSink { writer, faults: 0 }
    }
}

impl<W: Write> Sink for StdSink<W> {
    ghost given = { λ s. W.contents s.writer };

    ghost faults = { λ s. s.faults };

    fn give(&mut self, bytes: &[u8]) -> Result<usize, Failed> {
        match self.writer.write(bytes) {
            Ok(n) if n > 0 || bytes.is_empty() => Ok(n),
            _ => {
                self.faults = self.faults.saturating_add(1);
                Err(Failed)
            }
        }
    }
}

#[cfg(test)]
mod tests {
    use super::*;
    use crate::edge::write_all;
    use std::io;
    use std::test::Fail;

    // A writer in memory that takes three bytes for each call, and fails at one of them.
    #[derive(Drop)]
    struct Broken<'a> {
        room: &'a mut [u8],
        call: u64,
        failing: u64,
    }

    impl Write for Broken<'_> {
        fn write(&mut self, bytes: &[u8]) -> io::Result<usize> {
            let call = self.call;
            self.call = call.saturating_add(1);
            if call == self.failing {
                return Err(io::Error::from(io::ErrorKind::Other));
            }
            let n = bytes.len().min(3);
            self.room.write(&bytes[..n])
        }

        fn flush(&mut self) -> io::Result<()> {
            Ok(())
        }
    }

    #[test]
    fn a_write_that_fails_is_counted(rt: HostRuntime) -> Result<(), Fail> {
        // The failing write, how much room there is, what was given, and whether all of it was.
        for (failing, size, given, holds) in [
            (3, 8, b"1234567\0".as_slice(), true),
            (2, 8, b"123456\0\0".as_slice(), false),
            (0, 8, b"\0\0\0\0\0\0\0\0".as_slice(), false),
            // the third write finds no room, and takes nothing
            (3, 5, b"12345\0\0\0".as_slice(), false),
        ] {
            let mut room = [0; 8];
            let mut sink = StdSink::start(Broken {
                room: &mut room[..size],
                call: 0,
                failing,
            });
            assert_eq!(rt; write_all(&mut sink, b"1234567").is_ok(), holds);
            assert_eq!(rt; sink.faults, if holds { 0 } else { 1 });
            assert!(rt; room.as_slice() == given);
        }
        Ok(())
    }
}
