ghost use Rattle.std.specs.Prelude.{◌≡◌};
ghost use Rattle.replay.specs.Commands.{call_of};

use calls::{Action, Call, Part, Question, Report};
use listing::MOST_BYTES;
use sets::RouterSet;
use std::fmt;

// The buffer of a trace, and that of a list, where a script names no length: just long enough.
pub(crate) const TRACE_ROOM: usize = 32;

pub(crate) const LIST_ROOM: usize = MOST_BYTES;

// A call as a script words it.
#[derive(Drop)]
pub(crate) enum Command<'a> {
    // The table in this file.
    Load(&'a str),
    Inject(u32),
    Withdraw(u32),
    Restart(u32),
    Step(RouterSet),
    Settle,
    Reopen,
    Ask(Question),
    // Into a buffer of so many bytes.
    Report(Report, usize),
}

impl Command<'_> {
    // The call, where the file that it loads has these bytes, and where its buffer begins at this place of the bytes that are lent
    // to the run.
    pub(crate) fn call<'b>(&self, table: &'b [u8], start: usize) -> Call<'b>
        ensures { result ≡ call_of table.entry start self.now }
    {
        match self {
            Command::Load(_) => Call::Act(Action::Load(table)),
            Command::Inject(path) => Call::Act(Action::Inject(*path)),
            Command::Withdraw(path) => Call::Act(Action::Withdraw(*path)),
            Command::Restart(router) => Call::Act(Action::Restart(*router)),
            Command::Step(named) => Call::Act(Action::Step(u32::from(*named))),
            Command::Settle => Call::Settle,
            Command::Reopen => Call::Reopen,
            Command::Ask(question) => Call::Ask(*question),
            Command::Report(report, len) => Call::Report(*report, Part { start, len: *len }),
        }
    }

    // How many bytes its buffer has.
    pub(crate) fn room(&self) -> usize {
        match self {
            Command::Report(_, len) => *len,
            _ => 0,
        }
    }
}

// A question as it was understood.
fn asked<W: fmt::Write>(f: &mut fmt::Formatter<W>, question: Question) -> fmt::Result {
    match question {
        Question::Best(router) => write!(f, "best {router}"),
        Question::Metric(router) => write!(f, "metric {router}"),
        Question::Known(router) => write!(f, "known {router}"),
        Question::Advertised(router) => write!(f, "advertised {router}"),
        Question::Injected => f.write_str("injected"),
        Question::Settled => f.write_str("settled"),
    }
}

// The call as it was understood.
impl fmt::Display for Command<'_> {
    fn fmt<W: fmt::Write>(&self, f: &mut fmt::Formatter<W>) -> fmt::Result {
        match self {
            Command::Load(file) => write!(f, "load {file}"),
            Command::Inject(path) => write!(f, "inject {path}"),
            Command::Withdraw(path) => write!(f, "withdraw {path}"),
            Command::Restart(router) => write!(f, "restart {router}"),
            Command::Step(named) => {
                f.write_str("step")?;
                for router in *named {
                    write!(f, " {router}")?;
                }
                Ok(())
            }
            Command::Settle => f.write_str("settle"),
            Command::Reopen => f.write_str("reopen"),
            Command::Ask(question) => asked(f, *question),
            Command::Report(Report::Trace(router), TRACE_ROOM) => write!(f, "trace {router}"),
            Command::Report(Report::Trace(router), len) => write!(f, "trace {router} {len}"),
            Command::Report(Report::List, LIST_ROOM) => f.write_str("list"),
            Command::Report(Report::List, len) => write!(f, "list {len}"),
        }
    }
}
