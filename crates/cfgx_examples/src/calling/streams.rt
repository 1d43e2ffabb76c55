//! Streams of one's own.
ghost use Rattle.std.specs.Prelude.{Some};

use cfgx_engine::engine::{Sink, Source};
use std::io;
use std::io::ErrorKind;

/// A source of bytes in memory. Its reads never fail.
#[derive(Drop)]
pub struct Left<'a> {
    /// The bytes that were not read yet
    pub left: &'a [u8],
}

impl Source for Left<'_> {
    ghost failures = { λ _. 0 };

    ghost unread = { λ source. Some source.left.now };

    fn read(&mut self, buffer: &mut [u8]) -> io::Result<usize> {
        let count = buffer.len().min(self.left.len());
        let (taken, rest) = self.left.split_at(count);
        buffer[..count].copy_from_slice(taken);
        self.left = rest;
        Ok(count)
    }
}

/// A sink that keeps what was written in memory.
#[derive(Drop)]
pub struct Kept {
    /// The bytes
    pub bytes: Vec<u8>,
    /// The number of failed calls
    pub failures: u64,
}

impl Sink for Kept {
    ghost failures = { λ sink. sink.failures };

    ghost written = { λ sink. Some sink.bytes.items };

    fn write(&mut self, bytes: &[u8]) -> io::Result<usize> {
        if self.bytes.extend_from_slice(bytes).is_err() {
            self.failures += 1;
            return Err(io::Error::from(ErrorKind::OutOfMemory));
        }
        Ok(bytes.len())
    }

    fn flush(&mut self) -> io::Result<()> {
        Ok(())
    }
}
