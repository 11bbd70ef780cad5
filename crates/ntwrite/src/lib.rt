// What writing a table as N-Triples writes of a term and of a row, and how long it is. Whether every term has a text, and whether
// the output has room, is asked before.
#![tactic(auto)]

ghost use Rattle.std.specs.Prelude.{◌≡◌, ◌+◌, ◌≤◌, length};
ghost use Rattle.names.specs.Names.{text_in, text_of};
ghost use Rattle.ntwrite.specs.Written.{term_bytes, part_bytes, line_bytes};
ghost use Rattle.ntwrite.specs.Listed.{entries_in, LaidFrom};

pub mod index;

use crate::index::Names;
use names::find::text_at;
use names::five;

const OPENS: u8 = b'<';

const CLOSES: u8 = b'>';

const BLANK: u8 = b' ';

impl<'a> Names<'a> {
    // The text that the list has for a number: no bytes where it has none.
    fn listed_text(self, n: u16) -> &'a [u8]
        ensures { (result.now ≡ text_in (entries_in self.entry) n) × (length result.now ≤ 32768) }
    {
        match self.entry_of(n) {
            Some(i) => text_at(self.ends, self.text, i),
            None => &[],
        }
    }

    fn text_size(self, n: u16) -> usize
        ensures { (result ≡ length (text_of (entries_in self.entry) n)) × (result ≤ 32768) }
    {
        if n < five::COUNT {
            five::size_of(n)
        } else {
            self.listed_text(n).len()
        }
    }

    // How many bytes a term takes.
    pub fn term_size(self, n: u16) -> usize
        ensures { (result ≡ length (term_bytes (entries_in self.entry) n)) × (result ≤ 32770) }
    {
        let size = self.text_size(n);
        if term::sort_of(n) < term::LITERAL {
            size + 2
        } else {
            size
        }
    }

    // How many bytes a row's line takes.
    pub fn line_size(self, s: u16, p: u16, o: u16) -> usize
        ensures { (result ≡ length (line_bytes (entries_in self.entry) s p o)) × (result ≤ 98315) }
    {
        self.term_size(s) + self.term_size(p) + self.term_size(o) + 5
    }

    // A number's text laid into `out` from `at` on; where it ends.
    fn put_text(self, out: &mut [u8], at: usize, n: u16) -> usize
        requires { at + length (text_of (entries_in self) n) ≤ length out.old }
        ensures { LaidFrom (text_of (entries_in self.entry) n) out.old out.new at result }
    {
        if n < five::COUNT {
            five::put_five(out, at, n);
            at + five::size_of(n)
        } else {
            let text = self.listed_text(n);
            names::texts::put(out, at, text, text.len());
            at + text.len()
        }
    }

    // A term laid into `out` from `at` on; where it ends.
    fn put_term(self, out: &mut [u8], at: usize, n: u16) -> usize
        requires { at + length (term_bytes (entries_in self) n) ≤ length out.old }
        ensures { LaidFrom (term_bytes (entries_in self.entry) n) out.old out.new at result }
    {
        match term::sort_of(n) {
            term::NAME => {
                out[at] = OPENS;
                let end = self.put_text(out, at + 1, n);
                out[end] = CLOSES;
                end + 1
            }
            term::BLANK => {
                field::put_pair(out, at, b'_', b':');
                self.put_text(out, at + 2, n)
            }
            _ => self.put_text(out, at, n),
        }
    }

    // A term and the blank behind it; where the next begins.
    fn put_part(self, out: &mut [u8], at: usize, n: u16) -> usize
        requires { at + length (part_bytes (entries_in self) n) ≤ length out.old }
        ensures { LaidFrom (part_bytes (entries_in self.entry) n) out.old out.new at result }
    {
        let end = self.put_term(out, at, n);
        out[end] = BLANK;
        end + 1
    }

    // A row's line laid into `out` from `at` on; where the next begins.
    pub fn put_line(self, out: &mut [u8], at: usize, s: u16, p: u16, o: u16) -> usize
        requires { at + length (line_bytes (entries_in self) s p o) ≤ length out.old }
        ensures { LaidFrom (line_bytes (entries_in self.entry) s p o) out.old out.new at result }
    {
        let second = self.put_part(out, at, s);
        let third = self.put_part(out, second, p);
        let last = self.put_part(out, third, o);
        field::put_pair(out, last, b'.', b'\n');
        last + 2
    }
}
