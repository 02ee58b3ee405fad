// What no contract says: each letter that the two print, and that what cannot be printed or answered ends them.
use super::*;
use std::cell::Cell;
use std::fmt;
use std::fmt::{Display, Write};
use std::io::Error;
use std::test::Fail;

// A page of 48 bytes: it keeps what is printed, and fails where a byte has no room.
#[derive(Drop)]
struct Page {
    text: Cell<[u8; 48]>,
    count: Cell<usize>,
}

// A page as what a value is formatted to.
#[derive(Drop)]
struct Ink<'a>(&'a Page);

impl Page {
    fn new() -> Page {
        Page {
            text: Cell::new([0; 48]),
            count: Cell::new(0),
        }
    }

    fn add(&self, byte: u8) -> Result<()> {
        let n = self.count.get();
        if 48 <= n {
            return Err(Error::other("full"));
        }
        let mut text = self.text.get();
        text[n] = byte;
        self.text.set(text);
        self.count.set(n + 1);
        Ok(())
    }

    // Whether just this text stands on it.
    fn shows(&self, text: &[u8]) -> bool {
        (self.count.get() == text.len()) & self.text.get().starts_with(text)
    }
}

impl Write for Ink<'_> {
    fn write_str(&mut self, s: &str) -> fmt::Result {
        match self.0.write_all(s.as_bytes()) {
            Ok(()) => Ok(()),
            Err(_) => Err(fmt::Error),
        }
    }
}

impl Print for Page {
    fn print<D: Display + Drop>(&self, value: D) -> Result<()> {
        match write!(Ink(self), "{value}") {
            Ok(()) => Ok(()),
            Err(_) => Err(Error::other("full")),
        }
    }

    fn println<D: Display + Drop>(&self, value: D) -> Result<()> {
        self.print(value)?;
        self.add(b'\n')
    }

    fn write_all(&self, bytes: &[u8]) -> Result<()> {
        for b in bytes {
            self.add(*b)?;
        }
        Ok(())
    }
}

// Prints the letter and the first two numbers after each line.
fn print_numbers(page: &Page, text: &[u8]) -> Result<()> {
    answer_all(page, text, |letter, v| {
        answered(page, letter, v[0] as u64, v[1] as u64)
    })
}

#[test]
fn each_line_is_printed_and_answered(rt: HostRuntime) -> std::result::Result<(), Fail> {
    let page = Page::new();
    print_numbers(&page, b"w 12 7x 5\n\nf")?;
    assert!(rt; page.shows(b"w 12 7x 5: 119 12 7\n: 0 0 0\nf: 102 0 0\n"));
    Ok(())
}

#[test]
fn an_error_ends_the_lines(rt: HostRuntime) {
    let page = Page::new();
    let answer = answer_all(&page, b"a\nb\nc", |letter, _| {
        if letter == b'b' {
            return Err(Error::other("b"));
        }
        Ok(())
    });
    assert!(rt; answer.is_err());
    assert!(rt; page.shows(b"a\nb"));
}

#[test]
fn a_full_page_ends_the_lines(rt: HostRuntime) {
    let page = Page::new();
    assert!(rt; print_numbers(&page, b"k 65535 65535\nk 65535 65535\nf").is_err());
    assert!(rt; page.shows(b"k 65535 65535: 107 65535 65535\nk 65535 65535: 10"));
}
