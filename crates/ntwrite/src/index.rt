// A names list to write from, and where the entries of a number begin at the earliest, so that finding its text does not look at all of the list.
ghost use Rattle.std.specs.Prelude.{◌≡◌, ◌≤◌, ◌<◌, length};
ghost use Rattle.names.specs.Names.{lanes_of};
ghost use Rattle.names.specs.Finding.{FoundWith};
ghost use Rattle.ntwrite.specs.Written.{slot_of, Indexed, Fit};

use names::find::entry_of;

// For each sort as many slots as a list has entries at most.
pub const SLOTS: usize = 2048;

// The slot of a number. New numbers follow one another in each sort, so each has its own.
fn slot_of(n: u16) -> usize
    ensures { (result ≡ slot_of n) × (result < 2048) }
{
    usize::from(term::sort_of(n)) % 4 * 512 + usize::from(n) % 512
}

// Each entry into the slot of its number, from the last to the first, so that the first remains.
pub fn fill(slots: &mut [u16], terms: &[u16], names: usize)
    requires { (length slots.old ≡ 2048) × (names ≤ length terms.now) × (names ≤ 512) }
    ensures { Indexed slots.new terms.now names }
{
    for i in (0..names).rev() {
        slots[slot_of(terms[i])] = i as u16;
    }
}

// The first entry with a number. It asks for no more of the list than its numbers, in slots filled from them.
pub fn entry_by(terms: &[u16], names: usize, slots: &[u16], n: u16) -> Option<usize>
    requires { (names ≤ length terms.now) × Indexed slots.now terms.now names }
    ensures { FoundWith terms.now names n result }
{
    let from = usize::from(slots[slot_of(n)]);
    entry_of(terms, names, from, n)
}

// A names list to write from: its lanes, how many entries it has, and in which slot the entries of a number begin.
#[derive(Clone, Copy)]
pub struct Names<'a> {
    pub terms: &'a [u16],
    pub ends: &'a [u16],
    pub text: &'a [u8],
    pub count: usize,
    pub slots: &'a [u16],
    ghost fit: { Fit (lanes_of terms.now ends.now text.now) count slots.now },
}

impl<'a> Names<'a> {
    pub fn new(
        terms: &'a [u16],
        ends: &'a [u16],
        text: &'a [u8],
        count: usize,
        slots: &'a [u16],
    ) -> Names<'a>
        requires { Fit (lanes_of terms.now ends.now text.now) count slots.now }
        ensures lanes { lanes_of result.terms.now result.ends.now result.text.now ≡ lanes_of terms.now ends.now text.now }
        ensures count { result.count ≡ count }
    {
        Names {
            terms,
            ends,
            text,
            count,
            slots,
        }
    }

    // The first entry with a number.
    pub fn entry_of(self, n: u16) -> Option<usize>
        ensures { FoundWith self.entry.terms.now self.entry.count n result }
    {
        entry_by(self.terms, self.count, self.slots, n)
    }
}
