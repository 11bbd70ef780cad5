// Annotations of kinds 1, 3, 4 and 5: which are legal, And, Join, at most.
// Refused here: a kind that is none (4), an annotation that its kind does not have (10), or that misses a larger combination (28).
#![tactic(auto)]

ghost use Rattle.std.specs.Prelude.{◌≡◌, not, ◌+◌, ◌-◌, ◌≤◌, min, max, eqb};
ghost use Rattle.std.specs.Int.Bits.{bit_and, bit_or};
ghost use Rattle.term.specs.Refusal.{first};
ghost use Rattle.term.specs.Refused.{number_in};
ghost use Rattle.annotation.specs.Combinations.{is_larger};
ghost use Rattle.annotation.specs.Kinds.{annotation_checks, algebra, Values};
ghost use Rattle.annotation.specs.Numbered.{strict_or, kind_number, Numbers};

use term::Refusal;

pub const BOTTOM: u64 = 0;

pub const FULL_DEGREE: u64 = 1000;

// The kinds of annotation.
#[derive(Clone, Copy, Debug, PartialEq, Eq)]
pub enum Kind {
    Years,
    Degree,
    Strict,
    Sheets,
}

impl TryFrom<u8> for Kind {
    type Error = Refusal;

    ghost try_from_gives = { Numbers };

    fn try_from(number: u8) -> Result<Kind, Refusal> {
        match number {
            1 => Ok(Kind::Years),
            3 => Ok(Kind::Degree),
            4 => Ok(Kind::Strict),
            5 => Ok(Kind::Sheets),
            _ => Err(Refusal::WrongKind),
        }
    }
}

// The combinations without sheet 0, without sheet 1, ..: sheet i more is 2^i places up.
const WITHOUT_0: u64 = 0x5555555555555555;

const WITHOUT_1: u64 = 0x3333333333333333;

const WITHOUT_2: u64 = 0x0F0F0F0F0F0F0F0F;

const WITHOUT_3: u64 = 0x00FF00FF00FF00FF;

const WITHOUT_4: u64 = 0x0000FFFF0000FFFF;

const WITHOUT_5: u64 = 0x00000000FFFFFFFF;

impl Kind {
    // The kind that a number stands for where annotations are judged: a number that is no kind stands for strict degrees, as in the
    // definitions (it is refused where a kind is checked).
    pub fn or_strict(number: u8) -> Kind
        ensures { kind_number result ≡ strict_or number }
    {
        match Kind::try_from(number) {
            Ok(kind) => kind,
            Err(_) => Kind::Strict,
        }
    }

    // The number that books have for it.
    pub fn number(self) -> u8
        ensures { result ≡ kind_number self }
    {
        match self {
            Kind::Years => 1,
            Kind::Degree => 3,
            Kind::Strict => 4,
            Kind::Sheets => 5,
        }
    }

    // The top: no number of this kind is larger.
    fn top(self) -> u64
        ensures { result ≡ (algebra (kind_number self)).top }
    {
        match self {
            Kind::Years | Kind::Sheets => u64::MAX,
            Kind::Degree | Kind::Strict => FULL_DEGREE,
        }
    }

    // Whether an annotation of this kind is legal. By the top, which is known before the first row of a table; the kinds one by one took a
    // quarter more time a row.
    pub fn check(self, a: u64) -> Result<(), Refusal>
        ensures { number_in result ≡ (first (annotation_checks (kind_number self) a 0)).number }
    {
        if a == BOTTOM {
            return Err(Refusal::IllegalAnnotation);
        }
        if self.top() < a {
            return Err(Refusal::IllegalAnnotation);
        }
        match self {
            Kind::Sheets => {
                if keeps_larger(a) {
                    return Ok(());
                }
                Err(Refusal::MissesLarger)
            }
            _ => Ok(()),
        }
    }

    // And: what holds where both hold.
    pub fn meet(self, a: u64, b: u64) -> u64
        requires { Values (kind_number self) a b }
        ensures { result ≡ (algebra (kind_number self)).meet a b }
    {
        match self {
            Kind::Years | Kind::Sheets => in_both(a, b),
            Kind::Degree => a.min(b),
            Kind::Strict => (a + b).saturating_sub(FULL_DEGREE),
        }
    }

    // Join: what holds where either holds.
    pub fn join(self, a: u64, b: u64) -> u64
        ensures { result ≡ (algebra (kind_number self)).join a b }
    {
        match self {
            Kind::Years | Kind::Sheets => in_either(a, b),
            Kind::Degree | Kind::Strict => a.max(b),
        }
    }

    // At most: joining a to b changes nothing.
    pub fn at_most(self, a: u64, b: u64) -> bool
        ensures { result ≡ eqb ((algebra (kind_number self)).join a b) b }
    {
        self.join(a, b) == b
    }
}

// Bit by bit, for sets: years, and combinations of sheets.
fn in_both(a: u64, b: u64) -> u64
    ensures { result ≡ bit_and a b }
{
    a & b
}

fn in_either(a: u64, b: u64) -> u64
    ensures { result ≡ bit_or a b }
{
    a | b
}

// Whether every combination that is larger than one that is enough is enough too: one sheet more at a time.
fn keeps_larger(a: u64) -> bool
    ensures { result ≡ is_larger a }
{
    if misses(a & WITHOUT_0, a >> 1) {
        return false;
    }
    if misses(a & WITHOUT_1, a >> 2) {
        return false;
    }
    if misses(a & WITHOUT_2, a >> 4) {
        return false;
    }
    if misses(a & WITHOUT_3, a >> 8) {
        return false;
    }
    if misses(a & WITHOUT_4, a >> 16) {
        return false;
    }
    if misses(a & WITHOUT_5, a >> 32) {
        return false;
    }
    true
}

fn misses(low: u64, up: u64) -> bool
    ensures { result ≡ not (eqb (bit_and low up) low) }
{
    low & up != low
}

// And, in the kind of a number; a number that is no kind stands for strict degrees, as in its definition.
pub fn meet(kind: u8, a: u64, b: u64) -> u64
    requires { Values kind a b }
    ensures { result ≡ (algebra kind).meet a b }
{
    Kind::or_strict(kind).meet(a, b)
}
