//! The plain media part: lines, streams and queues in memory, without any security.
#![tactic(auto)]

mod calls;
mod datagram;
mod event_queue;
mod held_line;
mod line_key;
mod lines;
mod part;
mod plain_mark;
mod plain_media;
mod plain_media_event;
mod readings;
mod sendings;
mod source_counts;
mod stream_index;
mod stream_name;
mod stream_row;
mod stream_table;

pub use plain_mark::PlainMark;
pub use plain_media::PlainMedia;
pub use plain_media_event::PlainMediaEvent;
pub use sendings::datagrams_begin_with_80;
