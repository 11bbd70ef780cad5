// The five names of RDF and RDFS that have numbers of their own.
ghost use Rattle.std.specs.Prelude.{◌≡◌, ◌++◌, ◌+◌, ◌≤◌, length, take, drop};
ghost use Rattle.names.specs.Five.{five_text};
ghost use Rattle.names.specs.Finding.{five_of};

use crate::texts::{put, same};

// How many they are: other names are numbered from here on.
pub const COUNT: u16 = 5;

// The text of a number of the five.
pub fn text_of(n: u16) -> &'static [u8]
    ensures { result.now ≡ five_text n }
{
    match n {
        term::SP => b"http://www.w3.org/2000/01/rdf-schema#subPropertyOf",
        term::SC => b"http://www.w3.org/2000/01/rdf-schema#subClassOf",
        term::TYPE => b"http://www.w3.org/1999/02/22-rdf-syntax-ns#type",
        term::DOM => b"http://www.w3.org/2000/01/rdf-schema#domain",
        _ => b"http://www.w3.org/2000/01/rdf-schema#range",
    }
}

// Which of the five a word is.
pub fn number_of(word: &[u8]) -> Option<u16>
    ensures { result ≡ five_of word.now }
{
    (0..COUNT).find(|n| same(text_of(*n), word))
}

pub fn size_of(n: u16) -> usize
    ensures { result ≡ length (five_text n) }
{
    text_of(n).len()
}

// One of the five, laid into `out` from `at` on.
pub fn put_five(out: &mut [u8], at: usize, n: u16)
    requires { at + length (five_text n) ≤ length out.old }
    ensures { out.new ≡ take at out.old ++ five_text n ++ drop (at + length (five_text n)) out.old }
{
    let five = text_of(n);
    put(out, at, five, five.len());
}
