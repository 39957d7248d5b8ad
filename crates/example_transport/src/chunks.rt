//! A stream of bytes that comes in chunks, as a network may split it.

use std::io::{self, BufRead, Read};

/// Gives at most `size` bytes at each read.
#[derive(Drop)]
pub struct Chunks<'a> {
    left: &'a [u8],
    size: usize,
}

impl<'a> Chunks<'a> {
    pub fn new(left: &'a [u8], size: usize) -> Chunks<'a> {
        Chunks { left, size }
    }

    fn next(&self) -> &[u8] {
        &self.left[..self.size.min(self.left.len())]
    }
}

impl<'a> Read for Chunks<'a> {
    fn read(&mut self, buf: &mut [u8]) -> io::Result<usize> {
        let count = self.size.min(self.left.len()).min(buf.len());
        buf[..count].copy_from_slice(&self.left[..count]);
        self.left = &self.left[count..];
        Ok(count)
    }
}

impl<'a> BufRead for Chunks<'a> {
    fn fill_buf(&mut self) -> io::Result<&[u8]> {
        Ok(self.next())
    }

    fn consume(&mut self, count: usize) {
        self.left = &self.left[count.min(self.left.len())..];
    }
}
