// What the check of a chain comes to, and the status of that.

ghost use Rattle.std.specs.Prelude.{◌≡◌};
ghost use Rattle.vet.specs.status.Status.{number_of, status_of};

use checker::finding::Breach;

/// What is said of a chain: yes, no, or neither, where the chain is mistaken or a read or a write failed.
#[derive(Clone, Copy, PartialEq, Eq)]
pub enum Verdict {
    Yes,
    No,
    Unsaid,
}

impl Verdict {
    /// The verdict on what is found of a chain.
    #[tactic(auto, unfolding(crate::specs::status::Status::status_of))]
    pub fn of(found: Result<(), Breach>) -> Verdict
        ensures { number_of result ≡ status_of found }
    {
        if found.is_ok() {
            Verdict::Yes
        } else {
            Verdict::No
        }
    }

    /// The program's status.
    pub fn status(self) -> u8
        ensures { result ≡ number_of self }
    {
        match self {
            Verdict::Yes => 0,
            Verdict::No => 1,
            Verdict::Unsaid => 2,
        }
    }
}
