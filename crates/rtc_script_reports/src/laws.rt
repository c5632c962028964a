//! A law of reports.
ghost use Rattle.rtc_script_reports.specs.Alike.{ReportsTell};

/// Two lists of replies to the same steps that have one report agree: in the kind of each outcome with its numbers and
/// names, in the number of each error and what it prints, in each output with all that is shown of it, in what ended
/// polls, and in each table.
///
/// The replies are of their types, which [`write_report`](crate::write_report) tells, each answer is of the kind that
/// its operation gives, and the name of a hash function that an error prints is in one line. If no row follows, a report
/// does not show whether memory ran out before a step or in it. It does not show which of two causes ended polls without
/// memory, nor why no offer was made.
pub fn reports_tell_replies()
    ensures { ReportsTell }
{}
