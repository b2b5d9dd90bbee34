// A reader or a writer of which a signal interrupts every other call, before it moves a byte.
use std::io::{Error, ErrorKind, Read, Result, Write};

#[derive(Drop)]
pub(crate) struct Signalled<T> {
    inner: T,
    signal: bool,
}

impl<T> Signalled<T> {
    pub(crate) fn new(inner: T) -> Signalled<T> {
        Signalled {
            inner,
            signal: false,
        }
    }

    // Whether a signal comes now.
    fn comes(&mut self) -> bool {
        self.signal = !self.signal;
        self.signal
    }
}

impl<R: Read> Read for Signalled<R> {
    fn read(&mut self, buffer: &mut [u8]) -> Result<usize> {
        if self.comes() {
            return Err(Error::from(ErrorKind::Interrupted));
        }
        self.inner.read(buffer)
    }
}

impl<W: Write> Write for Signalled<W> {
    fn write(&mut self, bytes: &[u8]) -> Result<usize> {
        if self.comes() {
            return Err(Error::from(ErrorKind::Interrupted));
        }
        self.inner.write(bytes)
    }

    fn flush(&mut self) -> Result<()> {
        self.inner.flush()
    }
}
