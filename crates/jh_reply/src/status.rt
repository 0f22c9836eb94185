//! The exit status of a call.
#![tactic(auto)]

ghost use Rattle.std.specs.Prelude.{◌≡◌, if◌then◌else◌};
ghost use Rattle.jh_reply.specs.Causes.{number_of};

/// The exit status of a call: how it ended.
#[derive(Clone, Copy)]
pub enum Status {
    /// Each sequent is proved, or the run returned.
    Accepted,
    /// A sequent is unproved.
    Rejected,
    /// The words ask for nothing, or the method isn't there.
    Usage,
    /// The source is refused.
    Refused,
    /// A file can't be read, or is too long.
    File,
    /// What was to be written was not taken.
    Sink,
    /// Memory ran out.
    Memory,
    /// A run dereferenced null.
    Null,
    /// An assert of a run failed.
    Assert,
    /// No object was free in a run.
    NoObject,
    /// No step was left to a run.
    StepsOut,
    /// A number left its integers in a run.
    Overflow,
    /// A heap text is refused.
    Heap,
}

impl Status {
    /// The number that the host gets.
    pub fn number(self) -> u8
        ensures { result ≡ number_of self }
    {
        match self {
            Status::Accepted => 0,
            Status::Rejected => 1,
            Status::Usage => 2,
            Status::Refused => 3,
            Status::File => 4,
            Status::Sink => 5,
            Status::Memory => 6,
            Status::Null => 10,
            Status::Assert => 11,
            Status::NoObject => 12,
            Status::StepsOut => 13,
            Status::Overflow => 14,
            Status::Heap => 15,
        }
    }
}

/// The status of a report that is written whole.
pub(crate) fn of_report(accepted: bool) -> Status
    ensures { number_of result ≡ (if accepted then 0 else 1) }
{
    if accepted {
        Status::Accepted
    } else {
        Status::Rejected
    }
}
