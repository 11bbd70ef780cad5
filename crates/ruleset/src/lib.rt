// Rule sets: the rules of rho-df, and these with the reflexive ones (C-23). Which rules they have stands in `rhodf`.
// Refused here: a number that is no rule set (36).
#![tactic(auto)]

ghost use Rattle.std.specs.Prelude.{◌≡◌};
ghost use Rattle.ruleset.specs.Numbered.{set_number, Numbers};

use term::Refusal;

#[derive(Clone, Copy, Debug, PartialEq, Eq)]
pub enum RuleSet {
    Basic,
    Reflexive,
}

impl TryFrom<u8> for RuleSet {
    type Error = Refusal;

    ghost try_from_gives = { Numbers };

    fn try_from(number: u8) -> Result<RuleSet, Refusal> {
        match number {
            1 => Ok(RuleSet::Basic),
            2 => Ok(RuleSet::Reflexive),
            _ => Err(Refusal::WrongRuleSet),
        }
    }
}

impl RuleSet {
    // The number that heads of books have for it.
    pub fn number(self) -> u8
        ensures { result ≡ set_number self }
    {
        match self {
            RuleSet::Basic => 1,
            RuleSet::Reflexive => 2,
        }
    }
}
