//! What is reported of streams.
use std::alloc::Global;

/// What was reported, a line for each thing, and whether something failed that was to succeed, as out of memory.
#[derive(Drop)]
pub struct Log {
    text: String,
    failed: bool,
}

impl Log {
    /// Nothing.
    pub fn new(alloc: Global) -> Log {
        Log {
            text: String::new(alloc),
            failed: false,
        }
    }

    /// Notes that something was to be done, which was or was not.
    pub fn need(&mut self, done: bool) {
        self.failed = self.failed | !done;
    }

    /// Notes a line of three words.
    pub fn add_line(&mut self, name: &str, word: &str, text: &str) {
        let added = writeln!(self.text, "{name} {word}{text}");
        self.need(added.is_ok());
    }

    /// Notes a line of one word.
    pub fn add_word(&mut self, word: &str) {
        let added = writeln!(self.text, "{word}");
        self.need(added.is_ok());
    }

    /// Notes a line of an event of a stream.
    pub fn add_event(&mut self, word: &str, id: u16, sign: &str, text: &str) {
        let added = writeln!(self.text, "{word} {id}{sign}{text}");
        self.need(added.is_ok());
    }

    /// Whether this text was noted, and nothing failed.
    pub fn is(&self, text: &str) -> bool {
        !self.failed & (self.text.as_str() == text)
    }
}
