// Entries looked for by a hash of their texts, so that a file costs as much as it has bytes, however many names it has.
ghost use Rattle.std.specs.Prelude.{◌≡◌, ◌+◌, ◌≤◌, ◌<◌, length, take, get_or, set};
ghost use Rattle.names.specs.Names.{entry_at, entries_of};
ghost use Rattle.names.specs.Read.{lanes_read};
ghost use Rattle.names.specs.Entering.{Listing, is_text_of_lem, lookup, count_of};
ghost use Rattle.names.specs.Finding.{number_for};
ghost use Rattle.names.specs.Hashed.{mixed_by, MixedIn, hash_of, Sought, lookup_is};

use crate::find::start_of;
use crate::texts::same;
use crate::{first_of, five};

// As many as a list has entries at most.
pub const BUCKETS: usize = 512;

fn mixed(h: u32, byte: u8) -> u32
    requires { h < 65536 }
    ensures { (result ≡ mixed_by h byte) × (result < 65536) }
{
    (h * 33 + u32::from(byte)) % 65536
}

// Four bytes mixed in by one sum: the powers of 33, the fourth below 65536.
fn mixed_four(h: u32, a: u8, b: u8, c: u8, d: u8) -> u32
    requires { h < 65536 }
    ensures { (result ≡ mixed_by (mixed_by (mixed_by (mixed_by h a) b) c) d) × (result < 65536) }
{
    let front = u32::from(a) * 35937 + u32::from(b) * 1089;
    let rest = u32::from(c) * 33 + u32::from(d);
    (h * 6273 + (front + rest)) % 65536
}

// A word mixed in by fours: the sum so far, and the bytes behind the last four.
fn mixed_fours(word: &[u8]) -> (u32, &[u8])
    ensures { MixedIn word.now result.1.now result.0 }
{
    let mut h = 0;
    let mut left = word;
    while let [a, b, c, d, rest @ ..] = left {
        h = mixed_four(h, *a, *b, *c, *d);
        left = rest;
    }
    (h, left)
}

pub fn hash(word: &[u8]) -> usize
    ensures { (result ≡ hash_of word.now) × (result < 512) }
{
    let (mut h, rest) = mixed_fours(word);
    for byte in rest {
        h = mixed(h, *byte);
    }
    h as usize % BUCKETS
}

// A names list as it is lent to be read: its lanes, how many entries it has, and the chains by which a text is found.
#[derive(Clone, Copy)]
pub struct Lanes<'a> {
    pub terms: &'a [u16],
    pub ends: &'a [u16],
    pub text: &'a [u8],
    pub count: usize,
    pub heads: &'a [u16],
    pub next: &'a [u16],
}

impl Lanes<'_> {
    // Whether entry i is a text of a sort.
    fn is_entry(self, i: usize, sort: u16, word: &[u8]) -> bool
        requires { Listing (lanes_read self) self.count × (i < self.count) }
        ensures { result ≡ is_text_of_lem sort word.now (entry_at (lanes_read self.entry) i) }
    {
        let (from, to) = (start_of(self.ends, i), usize::from(self.ends[i]));
        term::sort_of(self.terms[i]) == sort && same(&self.text[from..to], word)
    }

    // The number of a text of a sort, if it is listed.
    fn find_by_hash(self, sort: u16, word: &[u8], h: usize) -> Option<u16>
        requires { Sought (lanes_read self) self.count self.heads.now self.next.now word.now h }
        ensures { lookup_is result ≡ lookup (entries_of (lanes_read self.entry) self.entry.count) sort word.now }
    {
        let mut found = None;
        let mut p = usize::from(self.heads[h]);
        while 0 < p {
            let i = p - 1;
            if self.is_entry(i, sort, word) {
                found = Some(self.terms[i]);
            }
            p = usize::from(self.next[i]);
        }
        found
    }

    // How many entries are of a sort. Counted at 16 bits, eight at once; `filter(..).count()` counts at 64, two at once.
    fn count_of(self, sort: u16) -> u16
        requires { Listing (lanes_read self) self.count }
        ensures { (result ≡ count_of sort (entries_of (lanes_read self.entry) self.entry.count)) × (result ≤ 512) }
    {
        let mut count: u16 = 0;
        for i in 0..self.count {
            if term::sort_of(self.terms[i]) == sort {
                count += 1;
            }
        }
        count
    }

    // The number that a text with this hash has; as an error the next of its sort.
    pub fn number_by_hash(self, sort: u16, word: &[u8], h: usize) -> Result<u16, u16>
        requires { Sought (lanes_read self) self.count self.heads.now self.next.now word.now h }
        ensures { result ≡ number_for (entries_of (lanes_read self.entry) self.entry.count) sort word.now }
    {
        if sort == term::NAME {
            if let Some(five) = five::number_of(word) {
                return Ok(five);
            }
        }
        match self.find_by_hash(sort, word, h) {
            Some(number) => Ok(number),
            None => Err(first_of(sort) + self.count_of(sort)),
        }
    }
}

// The entry behind the last, whose text has this hash, entered among those that have it.
pub fn enter_hash(heads: &mut [u16], next: &mut [u16], names: usize, h: usize)
    requires { (h < length heads.old) × (names < length next.old) × (names < 512) }
    ensures { (heads.new ≡ set heads.old h (names + 1)) × (next.new ≡ set next.old names (get_or heads.old h 0)) }
{
    next[names] = heads[h];
    heads[h] = (names + 1) as u16;
}
