//! Two peers that perform steps through their public calls.
#![tactic(auto)]

mod laws;
mod moments;
mod numbered_pair;
mod pair;
mod peer_settings;
mod performing;
mod plain_pair;
mod program_peers;
mod running;

pub use laws::{faultless_descriptions_pass, faults_are_counted};
pub use numbered_pair::make_numbered_pair;
pub use pair::Pair;
pub use peer_settings::PeerSettings;
pub use plain_pair::{PlainPair, PlainPeer, make_pair};
pub use program_peers::{add_address, program_config};
pub use rtc_run_steps::{deliver_answer, deliver_offer};
pub use running::run_pair;
