// Which terms have a text, and which rows can be written.
ghost use Rattle.std.specs.Prelude.{◌≡◌, not};
ghost use Rattle.table.specs.Rows.{row};
ghost use Rattle.ntwrite.specs.Listed.{lanes_in, entries_in};
ghost use Rattle.ntriples.specs.Writing.{has_text, is_unwritable};
ghost use Rattle.ntriples.specs.Inner.{Marked};

use names::five;
use ntwrite::index::Names;
use table::Row;

// A names list to write from, each of its texts judged: whether it is legal for its number's sort.
#[derive(Clone, Copy)]
pub struct Texts<'a> {
    pub names: Names<'a>,
    pub marks: &'a [bool],
    ghost judged: { Marked (lanes_in names) names.count marks.now },
}

impl<'a> Texts<'a> {
    // Whether a term has a text: one of the five, or a legal one of the list.
    fn has_text(self, n: u16) -> bool
        ensures { result ≡ has_text (entries_in self.entry.names) n }
    {
        n < five::COUNT || self.names.entry_of(n).is_some_and(|i| self.marks[i])
    }

    // Whether a row can be written: no literal its subject, and a text for each of its terms.
    pub fn writable(self, r: Row) -> bool
        ensures { result ≡ not (is_unwritable (entries_in self.entry.names) (row r.s r.p r.o r.a)) }
    {
        term::sort_of(r.s) != term::LITERAL
            && self.has_text(r.s)
            && self.has_text(r.p)
            && self.has_text(r.o)
    }
}
