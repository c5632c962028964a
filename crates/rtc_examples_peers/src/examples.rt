//! The examples by their names.
use crate::built::Built;
use crate::direct::Direct;
use crate::marks::Marks;
use crate::polled::Polled;
use crate::resting::{Resting, does_rest};
use crate::signals::Signals;
use crate::turn::Turn;
use crate::{
    announced, answers, built_examples, changes, connected, copies, direct_examples, files, offers,
    settings, work,
};
use rtc_examples_cases::is_true;
use rtc_faulty::CallCounts;
use rtc_peer::Mid;
use std::alloc::Global;

/// Whether two fresh peers, the files of an example and two mids give what is expected.
pub fn ask<P: Signals + Polled + Direct + Marks + Built + Resting>(
    alloc: Global,
    left: &mut P,
    right: &mut P,
    mids: (Mid, Mid),
    example: (&str, &str),
    turns: &[Turn],
) -> bool {
    let (subject, name) = example;
    match subject {
        "announced" => is_true(announced::does_refuse(alloc, left, right, name)),
        "built" => built_examples::does_agree(alloc, left, right, mids.0, name),
        "changes" => changes::does_agree(alloc, mids, name),
        "connected" => connected::does_succeed(alloc, left, right, name),
        "copy" => is_true(copies::are_copied(alloc, turns)),
        "direct" => direct_examples::does_agree(alloc, left, right, mids, name),
        "file" => is_true(files::does_come_over(alloc, left, right, name)),
        "offers" => offers::does_agree(alloc, left, right, name),
        "resting" => is_true(does_rest(alloc, left, right, &CallCounts::new(), name)),
        "settings" => settings::does_agree(alloc, left, right, name),
        "work" => is_true(work::does_come(alloc, left, right, name)),
        _ => answers::answers(alloc, left, turns),
    }
}
