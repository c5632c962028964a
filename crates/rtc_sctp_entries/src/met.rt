//! What a step of a poll meets.
use crate::SctpEvent;

/// What a step of a poll meets: nothing, work of its own so that the poll starts over, something to give, or that it is out of memory.
#[derive(Debug, Drop)]
pub enum Met {
    Nothing,
    Again,
    Output(SctpEvent),
    OutOfMemory,
}
