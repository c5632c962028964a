//! One output, given to a sink.
ghost use Rattle.std.specs.Prelude.{◌≡◌};
ghost use Rattle.rtc.specs.Drives.{HandsOutput, handed_by, moment_wanted};

use crate::Sink;
use rtc_peer::{Output, RtcError};
use rtc_wire::Moment;

/// What became of one poll of a peer.
#[derive(Drop)]
pub enum Handed {
    /// The sink took the output, and more may follow.
    More,
    /// The peer waits until a moment.
    Until(Moment),
    /// The poll or the sink failed.
    Failed(RtcError),
}

fn became(taken: Result<(), RtcError>) -> Handed
    ensures { result ≡ handed_by taken }
{
    match taken {
        Ok(()) => Handed::More,
        Err(error) => Handed::Failed(error),
    }
}

// The moment that a timeout has. It means nothing of another output.
fn moment_wanted<E>(output: &Output<E>) -> Moment
    ensures { result ≡ moment_wanted output.now }
{
    match output {
        Output::Timeout(moment) => *moment,
        Output::Transmit(_) | Output::Event(_) => Moment::FAR_FUTURE,
    }
}

/// Passes an output to the method of the sink that is for it; a moment is for none.
pub fn hand<E, K: Sink<E>>(sink: &mut K, output: Output<E>) -> Handed
    ensures { HandsOutput K.sink output sink.old result sink.new }
{
    let moment = moment_wanted(&output);
    match output {
        Output::Timeout(_) => Handed::Until(moment),
        Output::Transmit(datagram) => became(sink.send(datagram)),
        Output::Event(event) => became(sink.report(event)),
    }
}
