//! Standard input and output of a program that prints as it reads.

use std::cell::RefCell;
use std::io::{self, BufWriter, ErrorKind, Read, Write};

/// A reader that flushes the output before each read, so that nothing printed is held back while it waits.
pub(crate) struct FlushingReader<'a, R, W: Write + Drop> {
    reader: R,
    output: &'a RefCell<BufWriter<W>>,
}

impl<'a, R: Drop, W: Write + Drop> Drop for FlushingReader<'a, R, W> {
    fn drop(self) {
        let FlushingReader {
            reader: _,
            output: _,
        } = self;
    }
}

impl<'a, R, W: Write + Drop> FlushingReader<'a, R, W> {
    /// That reader, and the output that it flushes.
    pub(crate) fn new(reader: R, output: &'a RefCell<BufWriter<W>>) -> FlushingReader<'a, R, W> {
        FlushingReader { reader, output }
    }
}

impl<'a, R: Read, W: Write + Drop> Read for FlushingReader<'a, R, W> {
    fn read(&mut self, buf: &mut [u8]) -> io::Result<usize> {
        if let Ok(mut output) = self.output.try_borrow_mut() {
            // What can't be written stays in the buffer, and fails again when the program ends.
            let _ = output.flush();
        }
        self.reader.read(buf)
    }
}

/// The output, through its buffer.
pub(crate) struct SharedWriter<'a, W: Write + Drop> {
    output: &'a RefCell<BufWriter<W>>,
}

impl<'a, W: Write + Drop> Drop for SharedWriter<'a, W> {
    fn drop(self) {
        let SharedWriter { output: _ } = self;
    }
}

impl<'a, W: Write + Drop> SharedWriter<'a, W> {
    /// That output.
    pub(crate) fn new(output: &'a RefCell<BufWriter<W>>) -> SharedWriter<'a, W> {
        SharedWriter { output }
    }
}

impl<'a, W: Write + Drop> Write for SharedWriter<'a, W> {
    fn write(&mut self, buf: &[u8]) -> io::Result<usize> {
        match self.output.try_borrow_mut() {
            Ok(mut output) => output.write(buf),
            Err(_) => Err(ErrorKind::WouldBlock.into()),
        }
    }

    fn flush(&mut self) -> io::Result<()> {
        match self.output.try_borrow_mut() {
            Ok(mut output) => output.flush(),
            Err(_) => Err(ErrorKind::WouldBlock.into()),
        }
    }
}
