//! Amounts of work, so that a tool that counts instructions sees what they cost.

/// Some work of a subject, with up to three amounts, and the expected result.
#[derive(Clone, Copy)]
pub struct Work<'a> {
    pub answer: usize,
    pub subject: &'a str,
    pub word: &'a str,
    pub amounts: (u32, u32, u32),
}

// A number of a line; 0 if it is none.
fn number(word: Option<&str>) -> u32 {
    match word {
        Some(word) => word.parse::<u32>().unwrap_or(0),
        None => 0,
    }
}

impl<'a> Work<'a> {
    /// By the words of a line, the result first.
    pub fn read(line: &'a str) -> Work<'a> {
        let mut words = line.split(' ');
        let answer = number(words.next()) as usize;
        let subject = words.next().unwrap_or("");
        let word = words.next().unwrap_or("");
        let first = number(words.next());
        let second = number(words.next());
        let third = number(words.next());
        Work {
            answer,
            subject,
            word,
            amounts: (first, second, third),
        }
    }
}
