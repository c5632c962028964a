//! Sessions between a sender and a receiver.
ghost use Rattle.std.specs.Prelude.{◌≡◌, ◌≤◌, ◌↔◌, length, true, false, IfOk, OnErr, OnOk, IsErrOf};
ghost use Rattle.rtc_files.specs.Sessions.{front_sent, EndIsTaken, CanGoOn, SendsRecord, HoldsSession};

use rtc_file_records::{FileError, FileReceiver, FileRecord, FileSender};
use std::alloc::Global;

// Passes one record on; false if none is left.
fn send_record(
    alloc: Global,
    sender: &mut FileSender<'_>,
    receiver: &mut FileReceiver,
) -> Result<bool, FileError>
    ensures { SendsRecord result sender.old receiver.old sender.new receiver.new }
{
    let Some(made) = sender.next()? else {
        return Ok(false);
    };
    let message = made.write(alloc)?;
    receiver.take(message.as_slice())?;
    Ok(true)
}

// A session that ends behind so many records, or behind the End.
fn hold_session(
    alloc: Global,
    sender: &mut FileSender<'_>,
    receiver: &mut FileReceiver,
    size: u32,
) -> Result<(), FileError>
    requires start { CanGoOn sender.old receiver.old }
    requires unended { receiver.old.whole ≡ false }
    ensures held { OnOk result (HoldsSession sender.old.file (length receiver.old.held) size receiver.new) }
    ensures stays { OnOk result ((sender.new.name ≡ sender.old.name) × (sender.new.file ≡ sender.old.file)
        × CanGoOn sender.new receiver.new) }
    ensures lacking { OnErr result (IsErrOf result FileError.Alloc) }
{
    receiver.begin_session();
    let FileRecord::Resume { offset } = receiver.resume() else {
        return Ok(());
    };
    sender.resume(offset);
    for _sent in 0..size {
        if !send_record(alloc, sender, receiver)? {
            return Ok(());
        }
    }
    Ok(())
}

/// Sends a file under a name, in a session for each size until it is whole; a session ends behind so many records.
pub fn send_file(
    alloc: Global,
    name: &str,
    file: &[u8],
    sizes: &[u32],
) -> Result<FileReceiver, FileError>
    requires { length name.now ≤ 65535 }
    ensures held { IfOk result (λ receiver. receiver.held ≡ front_sent file.now sizes.now) }
    ensures whole { IfOk result (λ receiver. (receiver.whole ≡ true) ↔ EndIsTaken file.now sizes.now) }
    ensures all { IfOk result (λ receiver. receiver.whole ≡ true → receiver.held ≡ file.now) }
    ensures lacking { OnErr result (IsErrOf result FileError.Alloc) }
{
    let mut sender = FileSender::new(alloc, name, file)?;
    let mut receiver = FileReceiver::new(alloc);
    for size in sizes {
        if !receiver.is_whole() {
            hold_session(alloc, &mut sender, &mut receiver, *size)?;
        }
    }
    Ok(receiver)
}
