//! The kinds of outcomes that a report counts.
ghost use Rattle.std.specs.Prelude.{◌≡◌, ◌<◌};
ghost use Rattle.commands.specs.Outcomes.{number};

/// An outcome that is no form, or the form of an accepted command.
#[derive(Clone, Copy, Debug)]
pub enum Kind {
    Skipped,
    Refused,
    SetLogic,
    DeclareSort,
    DeclareFun,
    Assert,
    Assume,
    Step,
    Anchor,
}

impl Kind {
    /// Its place in a table of all kinds.
    pub fn index(self) -> usize
        ensures value { result ≡ number self }
        ensures within { result < 9 }
    {
        // A number, since nine counters by name would want a match of nine arms at each use.
        self as usize
    }
}
