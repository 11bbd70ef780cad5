// One check of an order: the refusal, or on to the next.
ghost use Rattle.std.specs.Prelude.{◌≡◌, ◌<◌, true, false, MatchResult};
ghost use Rattle.term.specs.Refusal.{verdict};
ghost use Rattle.term.specs.Refused.{number_in, refusal_number, verdict_of};

use term::{Refusal, Refused};

// Refused where `when` holds.
pub fn refuse(when: bool, why: Refusal, place: usize) -> Result<(), Refused>
    ensures { MatchResult result (λ u. when ≡ false) (λ e. (when ≡ true) × (verdict_of e ≡ verdict (refusal_number why) place)) }
{
    if when { Err(why.at(place)) } else { Ok(()) }
}

// What another crate judged, refused at a place.
pub fn placed(judged: Result<(), Refusal>, place: usize) -> Result<(), Refused>
    ensures { MatchResult result (λ u. number_in judged ≡ 0) (λ e. (0 < number_in judged) × (verdict_of e ≡ verdict (number_in judged) place)) }
{
    match judged {
        Ok(()) => Ok(()),
        Err(why) => Err(why.at(place)),
    }
}
