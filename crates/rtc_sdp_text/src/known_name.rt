//! The names of the table of attributes.
ghost use Rattle.std.specs.Prelude.{◌≡◌, take, drop};
ghost use Rattle.rtc_sdp_grammar.specs.Table.{table};
ghost use Rattle.rtc_sdp_text.specs.Fates as spec;

fn is_refusing(name: &str) -> bool
    ensures { result ≡ spec.is_named (take 5 table) name.now }
{
    name == "mid"
        || name == "group"
        || name == "setup"
        || name == "fingerprint"
        || name == "max-message-size"
}

fn is_of_a_connection(name: &str) -> bool
    ensures { result ≡ spec.is_named (take 4 (drop 5 table)) name.now }
{
    name == "ice-ufrag" || name == "ice-pwd" || name == "ice-lite" || name == "candidate"
}

fn is_direction(name: &str) -> bool
    ensures { result ≡ spec.is_named (take 4 (drop 9 table)) name.now }
{
    name == "sendrecv" || name == "sendonly" || name == "recvonly" || name == "inactive"
}

fn is_of_formats(name: &str) -> bool
    ensures { result ≡ spec.is_named (take 4 (drop 13 table)) name.now }
{
    name == "rtpmap" || name == "fmtp" || name == "extmap" || name == "msid"
}

fn is_of_streams(name: &str) -> bool
    ensures { result ≡ spec.is_named (drop 17 table) name.now }
{
    name == "rid"
        || name == "simulcast"
        || name == "ssrc"
        || name == "ssrc-group"
        || name == "sctp-init"
}

/// Whether the table of attributes has this name.
pub(crate) fn is_known(name: &str) -> bool
    ensures { result ≡ spec.is_named table name.now }
{
    if is_refusing(name) {
        return true;
    }
    if is_of_a_connection(name) {
        return true;
    }
    if is_direction(name) {
        return true;
    }
    if is_of_formats(name) {
        return true;
    }
    is_of_streams(name)
}
