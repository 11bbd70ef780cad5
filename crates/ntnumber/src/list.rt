// A names list as it is lent to be changed.
ghost use Rattle.std.specs.Prelude.{◌≡◌, ◌≤◌, length};
ghost use Rattle.names.specs.Names.{start_of};
ghost use Rattle.ntnumber.specs.Numbering.{told, ListAsLong, LyingInto, LyingAs, HashEntered};
ghost use Rattle.ntnumber.specs.Lent.{list_in, KeptList};

use names::add_lying;
use names::find::start_of;
use names::hash::{Lanes, enter_hash};

// Three lanes, how many of their entries are the list's, and the chains by which a text is found in them.
#[derive(Drop)]
pub struct NameList<'a> {
    pub terms: &'a mut [u16],
    pub ends: &'a mut [u16],
    pub text: &'a mut [u8],
    pub count: usize,
    pub heads: &'a mut [u16],
    pub next: &'a mut [u16],
}

impl NameList<'_> {
    pub fn lanes(&self) -> Lanes<'_>
        ensures same_terms { result.terms.now ≡ self.now.terms.now }
        ensures same_ends { result.ends.now ≡ self.now.ends.now }
        ensures same_text { result.text.now ≡ self.now.text.now }
        ensures same_count { result.count ≡ self.now.count }
        ensures same_heads { result.heads.now ≡ self.now.heads.now }
        ensures same_next { result.next.now ≡ self.now.next.now }
    {
        Lanes {
            terms: self.terms,
            ends: self.ends,
            text: self.text,
            count: self.count,
            heads: self.heads,
            next: self.next,
        }
    }

    // Where the text behind the last begins.
    pub fn end(&self) -> usize
        requires { self.now.count ≤ length self.now.ends.now }
        ensures { result ≡ start_of self.now.ends.now self.now.count }
    {
        start_of(self.ends, self.count)
    }

    // A text that lies behind the last, with this hash, entered where there is room.
    pub fn enter(&mut self, n: u16, size: usize, h: usize) -> Option<u16>
        requires { LyingInto (list_in self.old) self.old.count self.old.heads.now self.old.next.now size h }
        ensures kept { KeptList self.old self.new }
        ensures as_long { ListAsLong (list_in self.old) (list_in self.new) }
        ensures lying { LyingAs (list_in self.old) (list_in self.new) self.old.count n size (told self.new.count result) }
        ensures hashed { HashEntered self.old.heads.now self.old.next.now self.new.heads.now self.new.next.now self.old.count h (told self.new.count result) }
    {
        let count = self.count;
        let text = &mut *self.text;
        let number = add_lying(self.terms, self.ends, text, count, n, size)?;
        enter_hash(self.heads, self.next, count, h);
        self.count = count + 1;
        Some(number)
    }
}
