use crate::action::Action;
use crate::question::Question;
use crate::report::{Part, Report};

/// A call on a network. A running one offers actions and `Settle`, a settled one reports and `Reopen`; both answer questions.
#[derive(Clone, Copy, Debug)]
pub enum Call<'a> {
    Act(Action<'a>),
    Settle,
    Reopen,
    Ask(Question),
    /// A report, into a part of the bytes that are lent to the run.
    Report(Report, Part),
}
