// The kind and the rule set of a table, by their numbers.
ghost use Rattle.std.specs.Prelude.{◌≡◌, ℕ, MatchResult};
ghost use Rattle.term.specs.Refusal.{verdict, first};
ghost use Rattle.term.specs.Refused.{refusal_number};
ghost use Rattle.annotation.specs.Numbered.{kind_number};
ghost use Rattle.ruleset.specs.Numbered.{set_number};
ghost use Rattle.table.specs.Rows.{Lanes};
ghost use Rattle.closing.specs.Checks.{close_checks};

use annotation::Kind;
use ruleset::RuleSet;
use term::Refusal;

// Refused before the table is looked at: 4, then 36.
pub fn known(kind: u8, rules: u8) -> Result<(Kind, RuleSet), Refusal>
    ensures { MatchResult result (λ k. (kind_number k.0 ≡ kind) × (set_number k.1 ≡ rules)) (λ e. (l : Lanes) → (n : ℕ) → verdict (refusal_number e) 0 ≡ first (close_checks kind rules l n)) }
{
    let kind = Kind::try_from(kind)?;
    let rules = RuleSet::try_from(rules)?;
    Ok((kind, rules))
}
