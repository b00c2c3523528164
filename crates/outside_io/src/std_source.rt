//! A source over a reader of std.

ghost use Rattle.std.specs.Prelude.{◌≡◌};

use crate::edge::{Failed, Source};
use std::io::Read;

/// A source over a reader: one read for each take. What the reader knows of its bytes is told.
#[derive(Drop)]
pub struct StdSource<R> {
    /// What the calls go to.
    pub reader: R,
    /// How many reads there were, up to the greatest `u64`.
    pub takes: u64,
    /// How many reads failed, up to the greatest `u64`.
    pub faults: u64,
}

impl<R: Read> StdSource<R> {
    /// A source over a reader, with no read yet.
    pub fn start(reader: R) -> StdSource<R>
        ensures reader { result.reader ≡ reader }
        ensures takes { result.takes ≡ 0 }
        ensures faults { result.faults ≡ 0 }
    {
        StdSource {
            reader,
            takes: 0,
            faults: 0,
        }
    }
}

impl<R: Read> Source for StdSource<R> {
    ghost left = { λ s. R.remaining s.reader };

    ghost takes = { λ s. s.takes };

    ghost faults = { λ s. s.faults };

    fn take(&mut self, buf: &mut [u8]) -> Result<usize, Failed> {
        self.takes = self.takes.saturating_add(1);
        match self.reader.read(buf) {
            Ok(n) => Ok(n),
            Err(_) => {
                self.faults = self.faults.saturating_add(1);
                Err(Failed)
            }
        }
    }
}

#[cfg(test)]
mod tests {
    use super::*;
    use crate::edge::{ReadFault, read_up_to};
    use std::io;
    use std::test::Fail;

    // A reader in memory that gives three bytes for each call, and fails at one of them.
    #[derive(Drop)]
    struct Broken<'a> {
        rest: &'a [u8],
        call: u64,
        failing: u64,
    }

    impl Read for Broken<'_> {
        fn read(&mut self, buf: &mut [u8]) -> io::Result<usize> {
            let call = self.call;
            self.call = call.saturating_add(1);
            if call == self.failing {
                return Err(io::Error::from(io::ErrorKind::Other));
            }
            let n = buf.len().min(3);
            self.rest.read(&mut buf[..n])
        }
    }

    #[test]
    fn a_read_that_fails_is_counted(rt: HostRuntime) -> Result<(), Fail> {
        // The failing read, and how many reads there are: 7 bytes are three reads and one for the end.
        for (failing, takes, faults) in [(0, 1, 1), (2, 3, 1), (3, 4, 1), (4, 4, 0)] {
            let mut source = StdSource::start(Broken {
                rest: b"1234567",
                call: 0,
                failing,
            });
            match read_up_to(rt.alloc(), &mut source, 9) {
                Ok(bytes) => {
                    assert!(rt; bytes.as_slice() == b"1234567".as_slice());
                }
                Err(fault) => {
                    assert_eq!(rt; fault, ReadFault::Failed);
                }
            }
            assert_eq!(rt; source.takes, takes);
            assert_eq!(rt; source.faults, faults);
        }
        Ok(())
    }
}
