ghost use Rattle.std.specs.Prelude.{◌≡◌, None};

use crate::answer::Answer;
use crate::call::Call;
use sets::PathSet;

/// What came of a call: its answer; and afterwards, what every router advertises, and whether the network is settled.
#[derive(Clone, Copy, Debug)]
pub struct Outcome {
    pub answer: Answer,
    pub advertised: [PathSet; 32],
    pub settled: bool,
}

/// A call to make, and room for what comes of it.
#[derive(Clone, Copy, Debug)]
pub struct Turn<'a> {
    pub call: Call<'a>,
    /// What came of it. Where the call is not made this stays as it was: none in a new turn.
    pub outcome: Option<Outcome>,
}

impl<'a> Turn<'a> {
    /// A call that was not made yet.
    pub fn new(call: Call<'a>) -> Self
        ensures { result ≡ record { call = call.entry; outcome = None } }
    {
        Turn {
            call,
            outcome: None,
        }
    }
}
