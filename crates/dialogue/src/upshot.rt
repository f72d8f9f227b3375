// What a statement comes to: it goes on with what it is answered, or it stops, at a mistake or at a refusal.

ghost use Rattle.std.specs.Prelude.{◌≡◌};
ghost use Rattle.sheet.specs.declared.Sheet.{Sheet};
ghost use Rattle.dialogue.specs.declared.upshot.Stop.TheVariants.{Mistaken};
ghost use Rattle.dialogue.specs.upshot.Upshot.{answer_to, by_number, upshot_of};

use counting::Share;
use line::scan::Mistake;
use listing::Listing;
use sheet::Reply;

/// What a statement is answered: nothing; that it is done; what asking, counting, listing and asking why say; that what stands is to
/// be shown; the number of a refusal; or a mistake.
#[derive(Clone, Copy)]
pub enum Response {
    Silent,
    Done,
    Asked(Reply),
    Counted(Share),
    Listed(Listing),
    Blamed(Listing),
    Shown,
    Refused(u64),
    Mistaken(Mistake),
}

/// What ends a dialogue: the number of a refusal, or a mistake.
#[derive(Clone, Copy)]
pub enum Stop {
    Refused(u64),
    Mistaken(Mistake),
}

impl From<Mistake> for Stop {
    ghost from_gives = { λ mistake stop. stop ≡ Mistaken mistake };

    fn from(mistake: Mistake) -> Stop {
        Stop::Mistaken(mistake)
    }
}

impl From<Stop> for Response {
    ghost from_gives = { λ stop response. response ≡ answer_to stop };

    fn from(stop: Stop) -> Response {
        match stop {
            Stop::Refused(number) => Response::Refused(number),
            Stop::Mistaken(mistake) => Response::Mistaken(mistake),
        }
    }
}

impl Response {
    /// The answer of a call by the number that the call gives: one that is not 0 is a refusal, which stops.
    #[tactic(auto, using(crate::proofs::upshot::SearchByNumber::wanted), unfolding(crate::specs::upshot::Upshot::by_number))]
    pub fn by_number(self, number: u64) -> Result<Response, Stop>
        ensures { (s : Sheet) → upshot_of s result ≡ by_number number s self }
    {
        if number != 0 {
            return Err(Stop::Refused(number));
        }
        Ok(self)
    }
}
