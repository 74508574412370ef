ghost use Rattle.std.specs.Prelude.{None};

use bas_world::{Failed, Sink, SinkFail, Source};
use std::io::{Read, Write};

/// A stream of input as a source. It tells no content, and counts its errors.
#[derive(Drop)]
pub struct StreamSource<R> {
    stream: R,
    faults: u64,
}

impl<R: Read> StreamSource<R> {
    pub fn new(stream: R) -> StreamSource<R> {
        StreamSource { stream, faults: 0 }
    }
}

impl<R: Read> Source for StreamSource<R> {
    ghost left = { λ _. None };

    ghost faults = { λ source. source.faults };

    fn read(&mut self, buf: &mut [u8]) -> Result<usize, Failed> {
        match self.stream.read(buf) {
            Ok(count) => Ok(count),
            Err(_) => {
                self.faults = self.faults.saturating_add(1);
                Err(Failed)
            }
        }
    }
}

/// A stream of output as a sink. It tells no content, and counts its errors. That the stream takes
/// nothing is one.
#[derive(Drop)]
pub struct StreamSink<W> {
    stream: W,
    faults: u64,
}

impl<W: Write> StreamSink<W> {
    pub fn new(stream: W) -> StreamSink<W> {
        StreamSink { stream, faults: 0 }
    }
}

impl<W: Write> Sink for StreamSink<W> {
    ghost taken = { λ _. None };

    ghost faults = { λ sink. sink.faults };

    fn write(&mut self, bytes: &[u8]) -> Result<usize, SinkFail> {
        match self.stream.write(bytes) {
            Ok(count) if count > 0 => Ok(count),
            _ => {
                self.faults = self.faults.saturating_add(1);
                Err(SinkFail::Failed)
            }
        }
    }
}
