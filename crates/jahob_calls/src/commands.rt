//! Calls over boxed commands.

use crate::Called;
use jh_boxed_commands::commands::Command;
use jh_boxed_commands::conditions::{count, split, wp};
use jh_form::Formula;
use jh_name::MethodId;
use std::alloc::Global;

const FIRST: MethodId = MethodId {
    class: 0,
    method: 0,
};

/// Makes them.
pub fn all_called(alloc: Global) -> [Called; 3] {
    let leave = Command::Leave;
    [
        Called::of(
            "wp",
            wp(alloc, &leave, &Formula::True, &Formula::False).is_ok(),
        ),
        Called::of(
            "count",
            count(alloc, &leave, &Formula::True, &Formula::False).is_ok(),
        ),
        Called::of("split", split(alloc, FIRST, &Formula::False).is_ok()),
    ]
}
