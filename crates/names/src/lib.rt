// The names of a makers' list: texts and their numbers, in three lent lanes. A text is found or entered behind the last, and a number's
// text is found. A list is full where an entry or its bytes do not fit.
#![tactic(auto)]

ghost use Rattle.std.specs.Prelude.{◌≡◌, ◌+◌, ◌≤◌, length};
ghost use Rattle.names.specs.Names.{lanes_of, start_of, is_unfit_list};
ghost use Rattle.names.specs.Entering.{Listing, first_of};
ghost use Rattle.names.specs.Finding.{Lying, entered_is};

use crate::find::start_of;

pub mod find;
pub mod five;
pub mod hash;
pub mod texts;

// The most entries and bytes of text that a list may have.
pub const MOST_NAMES: usize = 512;

pub const MOST_TEXT: usize = 32768;

// Whether the lanes are no names list's: of unequal length, or too long.
pub fn is_unfit(terms: &[u16], ends: &[u16], text: &[u8]) -> bool
    ensures { result ≡ is_unfit_list (lanes_of terms.now ends.now text.now) }
{
    terms.len() != ends.len() || MOST_NAMES < terms.len() || MOST_TEXT < text.len()
}

// The first number that a sort gives out.
fn first_of(sort: u16) -> u16
    ensures { (result ≡ first_of sort) × (result ≤ 32768) }
{
    match sort {
        term::NAME => five::COUNT,
        term::BLANK => 16384,
        _ => 32768,
    }
}

// An entry put behind the last, and its number, where there is room for one; its bytes lie there already.
pub fn add_lying(
    terms: &mut [u16],
    ends: &mut [u16],
    text: &[u8],
    names: usize,
    n: u16,
    size: usize,
) -> Option<u16>
    requires { Listing (lanes_of terms.old ends.old text.now) names × (start_of ends.old names + size ≤ length text.now) }
    ensures { Lying (lanes_of terms.old ends.old text.now) (lanes_of terms.new ends.new text.now) names n size (entered_is result) }
{
    if terms.len() <= names {
        return None;
    }
    let end = start_of(ends, names) + size;
    ends[names] = end as u16;
    terms[names] = n;
    Some(n)
}
