// The calls on a network, as values: what each comes to and answers, and what is promised of every run of them.
#![tactic(auto)]

mod action;
mod answer;
mod call;
mod question;
mod report;
mod turn;

pub use action::Action;
pub use answer::Answer;
pub use call::Call;
pub use question::Question;
pub use report::{Part, Report};
pub use turn::{Outcome, Turn};
