// A term is a 16-bit number: its top two bits are its sort, the others its number.
// Refused here: 65,535, which marks "unbound" (8), and, as a predicate, whatever is no name (9).
#![tactic(auto)]

ghost use Rattle.std.specs.Prelude.{◌≡◌};
ghost use Rattle.term.specs.Term.{sort_of, number_of, term_checks, predicate_checks};
ghost use Rattle.term.specs.Refusal.{first};
ghost use Rattle.term.specs.Refused.{number_in};

mod refusal;

pub use refusal::{Refusal, Refused, Verdict};

// The names with a meaning in the rules.
pub const SP: u16 = 0;

pub const SC: u16 = 1;

pub const TYPE: u16 = 2;

pub const DOM: u16 = 3;

pub const RANGE: u16 = 4;

// Marks a variable that has no term; no legal term equals it.
pub const UNBOUND: u16 = 65535;

// The sorts; a value, of sort 3, is measured in milliamps.
pub const NAME: u16 = 0;

pub const BLANK: u16 = 1;

pub const LITERAL: u16 = 2;

pub const VALUE: u16 = 3;

// A term's number is its lower 14 bits.
const NUMBER_BITS: u16 = 14;

const NUMBER_MASK: u16 = 16383;

pub fn sort_of(term: u16) -> u16
    ensures { result ≡ sort_of term }
{
    term >> NUMBER_BITS
}

pub fn number_of(term: u16) -> u16
    ensures { result ≡ number_of term }
{
    term & NUMBER_MASK
}

// Whether a term is legal as subject or object.
pub fn check_term(term: u16) -> Result<(), Refusal>
    ensures { number_in result ≡ (first (term_checks term 0)).number }
{
    if term >= UNBOUND {
        return Err(Refusal::IllegalTerm);
    }
    Ok(())
}

// Whether a term is legal as predicate: a name.
pub fn check_predicate(term: u16) -> Result<(), Refusal>
    ensures { number_in result ≡ (first (predicate_checks term 0)).number }
{
    check_term(term)?;
    if sort_of(term) != NAME {
        return Err(Refusal::NotAName);
    }
    Ok(())
}
