//! What commands find out about one of several inputs.
ghost use Rattle.std.specs.Prelude.{◌≡◌, ◌⊎◌};
ghost use Rattle.oci_commands.specs.Done.{IsStatus};
ghost use Rattle.oci_commands.specs.declared.outcome.Outcome.TheVariants.{Right, Wrong};

/// What was found out about an input, or about several.
#[derive(Clone, Copy)]
pub enum Outcome {
    /// Nothing is wrong.
    Right,
    /// Something is wrong.
    Wrong,
    /// It could not be read.
    Unread,
}

impl Outcome {
    /// What was found out about this input and another: that one could not be read, or else that something is wrong with one.
    pub fn joined_with(self, other: Outcome) -> Outcome
        ensures right { result ≡ Right → (self ≡ Right) × (other ≡ Right) }
        ensures wrong { result ≡ Wrong → (self ≡ Wrong) ⊎ (other ≡ Wrong) }
    {
        match (self, other) {
            (Outcome::Unread, _) | (_, Outcome::Unread) => Outcome::Unread,
            (Outcome::Wrong, _) | (_, Outcome::Wrong) => Outcome::Wrong,
            (Outcome::Right, Outcome::Right) => Outcome::Right,
        }
    }

    /// The exit status of a command on it.
    pub fn status(self) -> u8
        ensures status { IsStatus result }
        ensures right { result ≡ 0 → self ≡ Right }
        ensures wrong { result ≡ 1 → self ≡ Wrong }
    {
        match self {
            Outcome::Right => 0,
            Outcome::Wrong => 1,
            Outcome::Unread => 3,
        }
    }
}
