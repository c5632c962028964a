//! Amounts of work for two ends of an association, between which every packet arrives.
use crate::work::Work;
use rtc_assoc_end::PlainAssociation;
use rtc_examples_cases::gives;
use rtc_parts::{AssocError, Association, Ppi};
use rtc_wire::Moment;
use std::alloc::{AllocError, Global};

fn start<A: Association>(left: &mut A, right: &mut A) -> Result<(), AssocError> {
    if left.is_started() || right.is_started() {
        return Err(AssocError::Closing);
    }
    left.connect(Moment::FAR_PAST, u32::MAX)?;
    right.accept(Moment::FAR_PAST, u32::MAX)
}

fn give<A: Association>(end: &mut A, packet: &[u8]) -> Result<(), AssocError> {
    if !end.is_started() {
        return Err(AssocError::Closing);
    }
    end.handle_input(Moment::FAR_PAST, packet)?;
    Ok(())
}

fn open<A: Association>(end: &mut A, id: u16) -> Result<(), AssocError> {
    if !end.is_started() {
        return Err(AssocError::Closing);
    }
    end.open_stream(id)
}

fn write<A: Association>(end: &mut A, id: u16, message: &[u8]) -> Result<(), AssocError> {
    if !end.is_started() {
        return Err(AssocError::Closing);
    }
    end.stream_write(id, Ppi::Binary, message)?;
    Ok(())
}

fn close<A: Association>(end: &mut A, id: u16) -> Result<(), AssocError> {
    if !end.is_started() {
        return Err(AssocError::Closing);
    }
    end.stream_close(id)
}

fn length(message: &Option<(Ppi, Vec<u8>)>) -> usize {
    match message {
        None => 0,
        Some((_, bytes)) => bytes.as_slice().len(),
    }
}

// The length of the next message of a stream; 0 if there is none.
fn read<A: Association>(end: &mut A, id: u16) -> Result<usize, AssocError> {
    if !end.is_started() {
        return Err(AssocError::Closing);
    }
    let message = end.stream_read(id)?;
    Ok(length(&message))
}

fn carry_one<A: Association>(from: &mut A, to: &mut A) -> Result<bool, AssocError> {
    match from.poll_transmit() {
        Some(packet) => {
            give(to, packet.as_slice())?;
            Ok(true)
        }
        None => Ok(false),
    }
}

fn carry<A: Association>(from: &mut A, to: &mut A) -> Result<(), AssocError> {
    for _ in 0..u32::MAX {
        if !carry_one(from, to)? {
            break;
        }
    }
    Ok(())
}

fn drop_events<A: Association>(end: &mut A) {
    for _ in 0..u32::MAX {
        if end.poll().is_none() {
            break;
        }
    }
}

// Passes on what each end has to send, twice, and drops the events.
fn exchange<A: Association>(left: &mut A, right: &mut A) -> Result<(), AssocError> {
    for _ in 0..2 {
        carry(left, right)?;
        carry(right, left)?;
    }
    drop_events(left);
    drop_events(right);
    Ok(())
}

fn content(alloc: Global, bytes: u32) -> Result<Vec<u8>, AllocError> {
    let mut content = Vec::with_capacity(alloc, bytes as usize)?;
    content.resize(bytes as usize, 7u8)?;
    Ok(content)
}

// A message of so many bytes over the first of so many open streams. It returns the length of what was read.
fn message<A: Association>(
    left: &mut A,
    right: &mut A,
    content: &[u8],
    streams: u32,
) -> Result<usize, AssocError> {
    for id in 0..streams.min(65_536) {
        open(left, id as u16)?;
        open(right, id as u16)?;
    }
    write(left, 0, content)?;
    exchange(left, right)?;
    read(right, 0)
}

// A stream that is opened, used, closed and reset at both ends.
fn reset<A: Association>(left: &mut A, right: &mut A, id: u16) -> Result<bool, AssocError> {
    open(left, id)?;
    open(right, id)?;
    write(left, id, b"a")?;
    exchange(left, right)?;
    read(right, id)?;
    close(left, id)?;
    exchange(left, right)?;
    Ok((left.generation(id) == 1) & (right.generation(id) == 1))
}

// So many streams, each reset before the next is opened. It returns how many were reset.
fn resets<A: Association>(left: &mut A, right: &mut A, streams: u32) -> Result<usize, AssocError> {
    let mut count = 0usize;
    for id in 0..streams.min(65_536) {
        if reset(left, right, id as u16)? {
            count = count.saturating_add(1);
        }
    }
    Ok(count)
}

fn fill(
    bytes: &mut Vec<u8>,
    number: u64,
    id: u16,
    generation: u32,
    part: u8,
) -> Result<(), AllocError> {
    bytes.push(3)?;
    bytes.extend_from_slice(&0u64.to_be_bytes())?;
    bytes.extend_from_slice(&number.to_be_bytes())?;
    bytes.extend_from_slice(&id.to_be_bytes())?;
    bytes.extend_from_slice(&generation.to_be_bytes())?;
    bytes.push(part)?;
    bytes.extend_from_slice(&53u32.to_be_bytes())?;
    bytes.extend_from_slice(&[7; 100])?;
    Ok(())
}

// Gives an end a data packet with 100 bytes of a message that somebody else made, and drops what it reports and what it sends first.
fn give_piece<A: Association>(
    alloc: Global,
    end: &mut A,
    number: u64,
    (id, generation, part): (u16, u32, u8),
) -> Result<(), AssocError> {
    let mut bytes = Vec::with_capacity(alloc, 128)?;
    fill(&mut bytes, number, id, generation, part)?;
    give(end, bytes.as_slice())?;
    drop_events(end);
    let _ = end.poll_transmit();
    Ok(())
}

// Gives an end so many packets, each under the number that it then waits for and with a message of a later generation
// of stream 0. Returns how many streams that makes.
fn forge<A: Association>(alloc: Global, end: &mut A, packets: u32) -> Result<usize, AssocError> {
    for generation in 1..=packets {
        give_piece(alloc, end, u64::from(generation), (0, generation, 1))?;
    }
    Ok(if end.has_stream(0) { 1 } else { 0 })
}

fn give_pieces<A: Association>(
    alloc: Global,
    end: &mut A,
    first: u64,
    streams: u16,
    part: u8,
) -> Result<(), AssocError> {
    let mut number = first;
    for id in 0..streams {
        give_piece(alloc, end, number, (id, 0, part))?;
        number = number.saturating_add(1);
    }
    Ok(())
}

// Gives an end a message of two pieces on each of so many streams, first every first piece and then every last one. It
// returns how many of the messages are read whole.
fn interleave<A: Association>(
    alloc: Global,
    end: &mut A,
    streams: u16,
) -> Result<usize, AssocError> {
    give_pieces(alloc, end, 1, streams, 0)?;
    give_pieces(alloc, end, streams as u64 + 1, streams, 1)?;
    let mut count = 0usize;
    for id in 0..streams {
        if read(end, id)? == 200 {
            count = count.saturating_add(1);
        }
    }
    Ok(count)
}

// What two ends return for some work: the bytes that were read, or how many messages or streams were passed on.
fn answer<A: Association>(
    alloc: Global,
    left: &mut A,
    right: &mut A,
    work: &Work<'_>,
) -> Result<usize, AssocError> {
    start(left, right)?;
    exchange(left, right)?;
    let (first, second, _) = work.amounts;
    match work.word {
        "message" => {
            let content = content(alloc, first)?;
            message(left, right, content.as_slice(), second)
        }
        "forged" => forge(alloc, right, first),
        "pieces" => interleave(alloc, right, first.min(65_535) as u16),
        "resets" => resets(left, right, first),
        _ => Err(AssocError::Closing),
    }
}

/// Whether two ends of an association give the expected result of some work.
pub fn is_done(alloc: Global, work: &Work<'_>) -> bool {
    let mut left = PlainAssociation::new(alloc);
    let mut right = PlainAssociation::new(alloc);
    gives(answer(alloc, &mut left, &mut right, work), &work.answer)
}
