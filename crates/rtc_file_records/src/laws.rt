//! Laws over all that a record or a receiver can meet.
ghost use Rattle.std.specs.Prelude.{◌≡◌, ℕ, List, Some};
ghost use Rattle.rtc_file_records.specs.declared.file_record.FileRecord.{FileRecord};
ghost use Rattle.rtc_file_records.specs.Records.{IsRecord, record_in};
ghost use Rattle.rtc_file_records.specs.Receiving.{ReceivedFile, nothing_received};
ghost use Rattle.rtc_file_records.specs.Laws.{ReceiverEvent, ReceivesAll, IsWholeByEnds};

/// Bytes are no more than one record, and are read as it.
pub fn records_read_back()
    ensures { (bytes : List ℕ) (made : FileRecord) → IsRecord bytes made → record_in bytes ≡ Some made }
{}

/// For all messages of any sender, over any sessions: a receiver is whole exactly if it took an End, and then holds the
/// bytes with that End's SHA-256.
pub fn whole_where_an_end_was_taken()
    ensures { (events : List ReceiverEvent) (file : ReceivedFile) → ReceivesAll events nothing_received file → IsWholeByEnds events file }
{}
