// What is lent: judged, or wiped.
ghost use Rattle.std.specs.Prelude.{◌≡◌, ◌++◌, ◌-◌, ◌≤◌, length, take, replicate, IfOk};
ghost use Rattle.term.specs.Refusal.{first};
ghost use Rattle.term.specs.Refused.{number_in, refusal_number};
ghost use Rattle.annotation.specs.Numbered.{kind_number};
ghost use Rattle.table.specs.Lent.{lanes_seen};
ghost use Rattle.names.specs.Names.{lanes_of};
ghost use Rattle.names.specs.Lent.{names_before, names_after};
ghost use Rattle.ntread.specs.Reading.{lent_checks};
ghost use Rattle.ntread.specs.Inner.{zeroed_names, keeps_lem};

use annotation::Kind;
use table::Rows;
use term::Refusal;

pub const LONGEST_FILE: usize = 65535;

// Zeros from `from` on.
pub fn zero_u8(lane: &mut [u8], from: usize)
    requires { from ≤ length lane.old }
    ensures { lane.new ≡ take from lane.old ++ replicate (length lane.old - from) 0 }
{
    lane[from..].fill(0);
}

// The list's lanes zeroed.
pub fn wipe_names(terms: &mut [u16], ends: &mut [u16], text: &mut [u8])
    ensures { names_after terms ends text ≡ zeroed_names (names_before terms ends text) }
{
    terms.fill(0);
    ends.fill(0);
    text.fill(0);
}

// The checks of what is lent, in their order.
pub fn check_lent(
    kind: u8,
    a: u64,
    file: &[u8],
    rows: &Rows,
    terms: &[u16],
    ends: &[u16],
    text: &[u8],
) -> Result<Kind, Refusal>
    ensures judged { number_in result ≡ (first (lent_checks kind a file.now (lanes_seen rows.now) (lanes_of terms.now ends.now text.now))).number }
    ensures known { IfOk result (λ k. kind_number k ≡ kind) }
{
    let kind = Kind::try_from(kind)?;
    if rows.is_unfit() || names::is_unfit(terms, ends, text) {
        return Err(Refusal::LanesUnfit);
    }
    if LONGEST_FILE < file.len() {
        return Err(Refusal::TooLong);
    }
    kind.check(a)?;
    Ok(kind)
}

// Whether what is refused so stays as it was lent.
pub fn keeps(why: Refusal) -> bool
    ensures { result ≡ keeps_lem (refusal_number why) }
{
    matches!(why, Refusal::LanesUnfit | Refusal::TooLong)
}
