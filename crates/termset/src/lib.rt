// Sets of terms: one bit for each of the 65,536 that there can be, in words (8 KB).
// Nothing is refused here.
#![tactic(auto)]

ghost use Rattle.std.specs.Prelude.{◌≡◌, List, ℕ, length, replicate, true};
ghost use Rattle.termset.specs.Termset.{words, holds, With, Without};

use std::marker::Model;

const BITS: u16 = 64;

#[derive(Drop)]
pub struct TermSet {
    bits: [u64; 1024],
}

// A clause sees the words, of which there are always as many.
impl Model for TermSet {
    ghost Value = { List ℕ };

    ghost view = { λ s. s.bits };

    ghost invariant = { λ s. length s.bits ≡ words };
}

impl TermSet {
    // The set of no term.
    pub fn empty() -> TermSet
        ensures { result ≡ replicate words 0 }
    {
        TermSet { bits: [0; 1024] }
    }

    // The set of all terms.
    pub fn all() -> TermSet
        ensures { result ≡ replicate words 18446744073709551615 }
    {
        TermSet {
            bits: [u64::MAX; 1024],
        }
    }

    // Whether a term is in the set.
    pub fn contains(&self, term: u16) -> bool
        ensures { result ≡ holds self.now term }
    {
        let at = usize::from(term / BITS);
        let bit = term % BITS;
        (self.bits[at] >> bit) & 1 == 1
    }

    // Puts a term in, where `on`.
    pub fn insert_if(&mut self, on: bool, term: u16)
        ensures { With on term self.old self.new }
    {
        let at = usize::from(term / BITS);
        let bit = term % BITS;
        if on {
            self.bits[at] |= 1 << bit;
        }
    }

    // Takes a term out.
    pub fn remove(&mut self, term: u16)
        ensures { Without term self.old self.new }
    {
        let at = usize::from(term / BITS);
        let bit = term % BITS;
        self.bits[at] &= !(1 << bit);
    }
    // Takes all out.
    pub fn clear(&mut self)
        ensures { self.new ≡ replicate words 0 }
    {
        self.bits = [0; 1024];
    }
}
