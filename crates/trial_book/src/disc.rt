// A book in memory and its file: opened, read whole, and one block of it written.
use book_blocks::BLOCK;
use std::fs::{File, Files, OpenOptions};
use std::io::{Error, ErrorKind, Result, Seek, SeekFrom};
use std::os::unix::fs::FileExt;
use std::str;
use streams::read_full;

// The largest book. There is no heap, and a program's stack has 8 MB.
const BLOCKS: usize = 8192;

pub const LARGEST: usize = BLOCKS * BLOCK;

pub(crate) fn open(rt: &impl Files<File = File>, path: &[u8], change: bool) -> Result<File> {
    match str::from_utf8(path) {
        Ok(path) => OpenOptions::new().read(true).write(change).open(rt, path),
        Err(_) => Err(Error::from(ErrorKind::InvalidFilename)),
    }
}

// Whether a read or a write was of a whole block.
fn was_whole(done: Result<usize>) -> bool {
    done.is_ok_and(|n| n == BLOCK)
}

// The bytes lent are more than the file has, which are `had`: a book grows into them.
#[derive(Drop)]
pub(crate) struct Book<'a> {
    file: File,
    pub(crate) bytes: &'a mut [u8],
    had: usize,
}

impl<'a> Book<'a> {
    // Nothing where the file cannot be read whole.
    pub(crate) fn read(mut file: File, bytes: &'a mut [u8]) -> Option<Book<'a>> {
        let had = read_full(&mut file, bytes);
        if file
            .seek(SeekFrom::End(0))
            .is_ok_and(|end| end == had as u64)
        {
            Some(Book { file, bytes, had })
        } else {
            None
        }
    }

    // The blocks of the file.
    pub(crate) fn used(&self) -> usize {
        self.had / BLOCK
    }

    // The bytes of the file behind its blocks.
    pub(crate) fn behind(&self) -> usize {
        self.had % BLOCK
    }

    // Writes bytes to a place in the file, and waits until the disc has them.
    fn write_at(&self, bytes: &[u8], at: u64) -> bool {
        was_whole(self.file.write_at(bytes, at)) && self.file.sync_all().is_ok()
    }

    // Writes a block to its place in the file; where that fails, what stood there is put back.
    fn replace(&self, block: &[u8], at: u64) -> bool {
        let mut old = [0u8; BLOCK];
        let read = was_whole(self.file.read_at(&mut old, at));
        if self.write_at(block, at) {
            return true;
        }
        if read {
            self.write_at(&old, at);
        }
        let _ = self.file.set_len(self.had as u64);
        false
    }

    // Writes the block of this number.
    pub(crate) fn store(&self, k: usize) -> bool {
        if BLOCKS <= k {
            return false;
        }
        let at = BLOCK * k;
        match self.bytes.get(at..at + BLOCK) {
            Some(block) => self.replace(block, at as u64),
            None => false,
        }
    }
}
