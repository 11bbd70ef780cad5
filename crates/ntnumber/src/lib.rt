// The number of a term of a file of N-Triples: one of the five, one that the names list has, or a new one behind the last.
// Nothing is refused here: a term that does not fit the list is said to be so.
#![tactic(auto)]

ghost use Rattle.std.specs.Prelude.{◌≡◌, ◌≤◌, length};
ghost use Rattle.names.specs.Read.{lanes_read};
ghost use Rattle.ntline.specs.Kinds.{sort_number};
ghost use Rattle.nttext.specs.Standing.{StandsThere};
ghost use Rattle.ntnumber.specs.Numbering.{told, IsFive, FiveThere, ListedThere, KnownThere, NumberInto, NumberedAs};
ghost use Rattle.ntnumber.specs.Lent.{list_in, KeptList, HashedIn};

mod list;

pub use list::NameList;
use names::find::start_of;
use names::five;
use names::hash::{Lanes, hash};
use ntline::lines::{Sort, Span};
use nttext::texts::{is_text_of, lay_term};

// The number of a term's sort.
fn sort_number(sort: Sort) -> u16
    ensures { result ≡ sort_number sort }
{
    match sort {
        Sort::Name => term::NAME,
        Sort::Blank => term::BLANK,
        Sort::Literal => term::LITERAL,
    }
}

// Whether a text in the file is that of one of the five.
fn is_five(b: &[u8], end: usize, t: Span, n: u16) -> bool
    requires { (end ≤ length b.now) × StandsThere b.now end t }
    ensures { IsFive b.now end t n result }
{
    let five = five::text_of(n);
    is_text_of(b, end, t, five, 0, five.len())
}

// Which of the five a name is that does not fit the text lane.
fn five_in_place(b: &[u8], end: usize, t: Span) -> Option<u16>
    requires { (end ≤ length b.now) × StandsThere b.now end t }
    ensures { FiveThere b.now end t result }
{
    (0..five::COUNT).find(|n| is_five(b, end, t, *n))
}

// The number of a listed text, without the text laid down.
fn listed_in_place(b: &[u8], end: usize, t: Span, l: Lanes) -> Option<u16>
    requires { NumberInto b.now end t (lanes_read l) l.count }
    ensures { ListedThere b.now end t (lanes_read l.entry) l.entry.count result }
{
    let sort = sort_number(t.sort);
    for i in 0..l.count {
        let (from, to) = (start_of(l.ends, i), usize::from(l.ends[i]));
        if term::sort_of(l.terms[i]) == sort && is_text_of(b, end, t, l.text, from, to) {
            return Some(l.terms[i]);
        }
    }
    None
}

// The number of a text that does not fit behind the last: only one that is known has one.
fn number_in_place(b: &[u8], end: usize, t: Span, l: Lanes) -> Option<u16>
    requires { NumberInto b.now end t (lanes_read l) l.count }
    ensures { KnownThere b.now end t (lanes_read l.entry) l.entry.count result }
{
    if t.sort == Sort::Name {
        if let Some(five) = five_in_place(b, end, t) {
            return Some(five);
        }
    }
    listed_in_place(b, end, t, l)
}

// The number of a term of the file, if it fits; entered where it has none yet. Its text is laid down behind the last one to be compared.
pub fn number_of(b: &[u8], end: usize, t: Span, list: &mut NameList) -> Option<u16>
    requires into { NumberInto b.now end t (list_in list.old) list.old.count }
    requires hashed { HashedIn list.old }
    ensures kept { KeptList list.old list.new }
    ensures numbered { NumberedAs b.now end t (list_in list.old) list.old.count (list_in list.new) (told list.new.count result) }
    ensures hashed { HashedIn list.new }
{
    let from = list.end();
    let Some(to) = lay_term(b, end, t, list.text, from) else {
        return number_in_place(b, end, t, list.lanes());
    };
    let l = list.lanes();
    let word = &l.text[from..to];
    let sort = sort_number(t.sort);
    let h = hash(word);
    match l.number_by_hash(sort, word, h) {
        Ok(number) => Some(number),
        Err(n) => list.enter(n, to - from, h),
    }
}
