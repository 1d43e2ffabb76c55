//! A source and a sink in memory.

ghost use Rattle.std.specs.Prelude.{◌≡◌, [], Some};

use cfgx_engine::engine::{Sink, Source};
use std::alloc::Global;
use std::io;
use std::io::ErrorKind;

/// A source over a slice. No call fails.
#[derive(Drop)]
pub(crate) struct SliceSource<'a> {
    /// The bytes that are still to come
    pub(crate) left: &'a [u8],
}

impl Source for SliceSource<'_> {
    ghost failures = { λ _. 0 };

    ghost unread = { λ source. Some source.left.now };

    fn read(&mut self, buffer: &mut [u8]) -> io::Result<usize> {
        let count = buffer.len().min(self.left.len());
        let (front, rest) = self.left.split_at(count);
        buffer[..count].copy_from_slice(front);
        self.left = rest;
        Ok(count)
    }
}

/// A sink into a vector. A call fails if it is refused memory.
#[derive(Drop)]
pub(crate) struct VecSink {
    /// The bytes that were written
    pub(crate) bytes: Vec<u8>,
    /// The number of calls that failed
    pub(crate) failures: u64,
}

impl VecSink {
    /// Returns an empty sink. It takes no memory.
    pub(crate) fn new(alloc: Global) -> VecSink
        ensures { (result.bytes.items ≡ []) × (result.failures ≡ 0) }
    {
        VecSink {
            bytes: Vec::new(alloc),
            failures: 0,
        }
    }
}

impl Sink for VecSink {
    ghost failures = { λ sink. sink.failures };

    ghost written = { λ sink. Some sink.bytes.items };

    fn write(&mut self, bytes: &[u8]) -> io::Result<usize> {
        if self.bytes.extend_from_slice(bytes).is_err() {
            self.failures += 1;
            return Err(io::Error::from(ErrorKind::OutOfMemory));
        }
        Ok(bytes.len())
    }

    fn flush(&mut self) -> io::Result<()> {
        Ok(())
    }
}
