//! Calls from C: each is one call of `rtc_c_handle`, and repeats its clauses.
#![tactic(auto)]

mod connected;
mod copying;
mod negotiating;
mod wanting;
