// A failure said on standard error, in the system's words.
use std::fmt;
use std::fmt::Write;
use std::io::Error;

const STDERR: i32 = 2;

// The most bytes of a line: what is more is dropped.
const ROOM: usize = 256;

// A line, as far as it is written.
#[derive(Drop)]
struct Line {
    bytes: [u8; ROOM],
    count: usize,
}

impl Line {
    fn new() -> Line {
        Line {
            bytes: [0; ROOM],
            count: 0,
        }
    }

    fn push(&mut self, byte: u8) {
        let count = self.count;
        if count < ROOM {
            self.bytes[count] = byte;
            self.count = count + 1;
        }
    }

    fn put(&mut self, text: &[u8]) {
        for byte in text {
            self.push(*byte);
        }
    }

    fn text(&self) -> &[u8] {
        if self.count < ROOM {
            return &self.bytes[..self.count];
        }
        &self.bytes
    }

    // Puts the system's words for the error. std's have its number after them, as ` (os error 28)`, which is cut off.
    fn put_words(&mut self, error: i32) {
        let words = Error::from_raw_os_error(error);
        let _ = write!(self, "{words}");
        if let Some(at) = self.text().iter().rposition(|b| *b == b'(') {
            self.count = at.saturating_sub(1);
        }
    }
}

impl fmt::Write for Line {
    fn write_str(&mut self, s: &str) -> fmt::Result {
        self.put(s.as_bytes());
        Ok(())
    }
}

// Says what failed, and why: a line, in one write.
pub fn fail(what: &[u8], error: i32) {
    let mut line = Line::new();
    line.put(what);
    line.put(b": ");
    line.put_words(error);
    line.put(b"\n");
    io::write_all(STDERR, line.text());
}
