//! What a program prints, kept in memory.
use std::alloc::{AllocError, Global};
use std::cell::Cell;
use std::fmt::Display;
use std::io::ErrorKind;
use std::{io, str};

/// A runtime for a program that allocates and prints. It keeps what is printed.
#[derive(Drop)]
pub struct Printer {
    alloc: Global,
    printed: Cell<String>,
}

impl Printer {
    /// Returns a runtime that has printed nothing.
    pub fn new(alloc: Global) -> Printer {
        Printer {
            alloc,
            printed: Cell::new(String::new(alloc)),
        }
    }

    /// Returns what was printed.
    pub fn into_text(self) -> String {
        self.printed.into_inner()
    }

    // Appends `text` to what was printed.
    fn keep(&self, text: &str) -> Result<(), AllocError> {
        let mut printed = self.printed.replace(String::new(self.alloc));
        let pushed = printed.push_str(text);
        self.printed.set(printed);
        pushed
    }
}

impl Print for Printer {
    fn print<D: Display + Drop>(&self, value: D) -> io::Result<()> {
        let text = format!(in self.alloc; "{value}")?;
        Ok(self.keep(text.as_str())?)
    }

    fn println<D: Display + Drop>(&self, value: D) -> io::Result<()> {
        let text = format!(in self.alloc; "{value}\n")?;
        Ok(self.keep(text.as_str())?)
    }

    fn write_all(&self, bytes: &[u8]) -> io::Result<()> {
        match str::from_utf8(bytes) {
            Ok(text) => Ok(self.keep(text)?),
            Err(_) => Err(io::Error::from(ErrorKind::InvalidData)),
        }
    }
}

impl Alloc for Printer {
    type A = Global;

    fn alloc(&self) -> Global {
        self.alloc
    }
}
