//! A system in memory: the words of a command line, files, and what was printed.
ghost use Rattle.std.specs.Prelude.{IsErr};

use std::alloc::{Allocator, Global};
use std::cell::RefCell;
use std::env::FillError;
use std::fmt::Display;
use std::fs::{Metadata, OpenFile, OpenOptions};
use std::io;
use std::io::{Cursor, ErrorKind, Read, Seek, SeekFrom, Write};
use std::rt::{Env, Files};
use std::test::Fail;

/// What a stream got, which may be one that fails.
#[derive(Drop)]
pub struct Page {
    alloc: Global,
    text: RefCell<Vec<u8>>,
    fails: bool,
}

impl Page {
    pub fn new(alloc: Global, fails: bool) -> Page {
        Page {
            alloc,
            text: RefCell::new(Vec::new(alloc)),
            fails,
        }
    }

    /// What was printed.
    pub fn into_text(self) -> Result<String, Fail> {
        Ok(String::from_utf8(self.text.into_inner())?)
    }
}

impl Print for Page {
    fn print<D: Display + Drop>(&self, value: D) -> io::Result<()> {
        self.write_all(value.to_string(self.alloc)?.as_bytes())
    }

    fn println<D: Display + Drop>(&self, value: D) -> io::Result<()> {
        self.print(value)?;
        self.write_all(b"\n")
    }

    fn write_all(&self, bytes: &[u8]) -> io::Result<()> {
        if self.fails {
            return Err(io::Error::other("the stream fails"));
        }
        let Ok(mut text) = self.text.try_borrow_mut() else {
            return Err(io::Error::other("the stream is in use"));
        };
        text.extend_from_slice(bytes)?;
        Ok(())
    }
}

/// A file, of which each read behind its octets may fail.
#[derive(Drop)]
pub struct File {
    path: String,
    octets: Vec<u8>,
    fails: bool,
}

impl File {
    pub fn new(alloc: Global, path: &str, octets: Vec<u8>, fails: bool) -> Result<File, Fail> {
        Ok(File {
            path: String::from_str(alloc, path)?,
            octets,
            fails,
        })
    }
}

/// An open file.
#[derive(Drop)]
pub struct Tape {
    octets: Cursor<Vec<u8>>,
    fails: bool,
}

impl Read for Tape {
    fn read(&mut self, buf: &mut [u8]) -> io::Result<usize> {
        let count = self.octets.read(buf)?;
        if self.fails && count == 0 {
            return Err(io::Error::other("the file fails"));
        }
        Ok(count)
    }
}

impl Write for Tape {
    fn write(&mut self, _buf: &[u8]) -> io::Result<usize> {
        unsupported()
    }

    fn flush(&mut self) -> io::Result<()> {
        unsupported()
    }
}

impl Seek for Tape {
    fn seek(&mut self, _to: SeekFrom) -> io::Result<u64> {
        unsupported()
    }
}

impl OpenFile for Tape {
    fn metadata(&self) -> io::Result<Metadata> {
        unsupported()
    }

    fn set_len(&self, _size: u64) -> io::Result<()> {
        unsupported()
    }

    fn sync_all(&self) -> io::Result<()> {
        unsupported()
    }

    fn sync_data(&self) -> io::Result<()> {
        unsupported()
    }
}

fn unsupported<T>() -> io::Result<T>
    ensures { IsErr result }
{
    Err(io::Error::from(ErrorKind::Unsupported))
}

/// The words, the files, and the output.
#[derive(Drop)]
pub struct System {
    pub words: Vec<Vec<u8>>,
    pub files: Vec<File>,
    pub output: Page,
}

impl System {
    /// A system without words and files, whose output may take nothing.
    pub fn new(alloc: Global, is_full: bool) -> System {
        System {
            words: Vec::new(alloc),
            files: Vec::new(alloc),
            output: Page::new(alloc, is_full),
        }
    }
}

impl Alloc for System {
    type A = Global;

    fn alloc(&self) -> Global {
        self.output.alloc
    }
}

impl Print for System {
    fn print<D: Display + Drop>(&self, value: D) -> io::Result<()> {
        self.output.print(value)
    }

    fn println<D: Display + Drop>(&self, value: D) -> io::Result<()> {
        self.output.println(value)
    }

    fn write_all(&self, bytes: &[u8]) -> io::Result<()> {
        self.output.write_all(bytes)
    }
}

impl Env for System {
    fn arg(&self, i: usize, buf: &mut [u8]) -> Result<usize, FillError> {
        let Some(word) = self.words.get(i) else {
            return Err(FillError::NotPresent);
        };
        let word = word.as_slice();
        if buf.len() < word.len() {
            return Err(FillError::TooLong);
        }
        buf[..word.len()].copy_from_slice(word);
        Ok(word.len())
    }

    fn var(&self, _name: &str, _buf: &mut [u8]) -> Result<usize, FillError> {
        Err(FillError::NotPresent)
    }

    fn var_at(&self, _i: usize, _buf: &mut [u8]) -> Result<usize, FillError> {
        Err(FillError::NotPresent)
    }
}

impl Files for System {
    type File = Tape;

    type Dir = Tape;

    fn open_file(&self, _how: &OpenOptions, path: &str) -> io::Result<Tape> {
        let Some(file) = self.files.iter().find(|file| file.path.as_str() == path) else {
            return Err(io::Error::from(ErrorKind::NotFound));
        };
        Ok(Tape {
            octets: Cursor::new(Vec::from_slice(self.output.alloc, file.octets.as_slice())?),
            fails: file.fails,
        })
    }

    fn open_dir(&self, _path: &str) -> io::Result<Tape> {
        unsupported()
    }

    fn metadata(&self, _path: &str) -> io::Result<Metadata> {
        unsupported()
    }

    fn symlink_metadata(&self, _path: &str) -> io::Result<Metadata> {
        unsupported()
    }

    fn copy(&self, _from: &str, _to: &str) -> io::Result<u64> {
        unsupported()
    }

    fn rename(&self, _from: &str, _to: &str) -> io::Result<()> {
        unsupported()
    }

    fn remove_file(&self, _path: &str) -> io::Result<()> {
        unsupported()
    }

    fn create_dir(&self, _path: &str) -> io::Result<()> {
        unsupported()
    }

    fn remove_dir(&self, _path: &str) -> io::Result<()> {
        unsupported()
    }

    fn remove_dir_all<B: Allocator>(&self, _alloc: B, _path: &str) -> io::Result<()> {
        unsupported()
    }
}
