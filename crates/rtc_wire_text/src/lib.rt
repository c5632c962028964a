//! The small forms that lines of text are made of: tokens, words, numbers and hex digits.
#![tactic(auto)]

mod cutting;
mod decimal;
mod front;
mod hexadecimal;
mod laws;
mod letter_case;
mod line;
mod numeral;
mod short_token;
mod token;
mod word;

pub use cutting::cut;
pub use decimal::read_decimal;
pub use front::{without_blanks, without_first};
pub use hexadecimal::{hex_bytes, push_hex};
pub use laws::{cuts_read_back, hex_reads_back, numbers_read_back, parts_read_back};
pub use letter_case::{lower, same_letters};
pub use line::{lines, pieces};
pub use numeral::{is_numeral, number, number_up_to};
pub use short_token::ShortToken;
pub use token::{is_short_token, is_token, is_token_byte};
pub use word::{parts, words};
