// Makers' lists for C: the same calls as the page's, their numbers in one word.
ghost use Rattle.table.specs.Lent.{before, after};
ghost use Rattle.names.specs.Lent.{names_before, names_after};
ghost use Rattle.trackvesper.specs.Triples.{ReadTriplesExported, WriteTriplesExported};
ghost use Rattle.table.specs.Rows.{lanes};
ghost use Rattle.names.specs.Names.{lanes_of};

use crate::pack;
use ntread::read_triples;
use ntriples::write_triples;

// What a name counts in a word that holds a count of rows beside the names.
const A_NAME: u64 = 65536;

// Reads N-Triples: names * 2^16 + rows, or number * 2^32 + the place of a refusal.
pub fn trackvesper_read_triples(
    kind: u8,
    a: u64,
    file: &[u8],
    subj: &mut [u16],
    pred: &mut [u16],
    obj: &mut [u16],
    ann: &mut [u64],
    terms: &mut [u16],
    ends: &mut [u16],
    text: &mut [u8],
) -> u64
    ensures { ReadTriplesExported kind a file.now (before subj pred obj ann) (after subj pred obj ann) (names_before terms ends text) (names_after terms ends text) result }
{
    let done = read_triples(kind, a, file, subj, pred, obj, ann, terms, ends, text);
    if done.number > 0 {
        return pack(done.number, done.place);
    }
    (done.names as u64) * A_NAME + (done.count as u64)
}

// Writes N-Triples: the length, or number * 2^32 + the place of a refusal, which leaves the output as it was.
pub fn trackvesper_write_triples(
    kind: u8,
    subj: &[u16],
    pred: &[u16],
    obj: &[u16],
    ann: &[u64],
    count: usize,
    terms: &[u16],
    ends: &[u16],
    text: &[u8],
    names: usize,
    out: &mut [u8],
) -> u64
    ensures { WriteTriplesExported kind (lanes subj.now pred.now obj.now ann.now) count (lanes_of terms.now ends.now text.now) names out.old out.new result }
{
    let done = write_triples(
        kind, subj, pred, obj, ann, count, terms, ends, text, names, out,
    );
    if done.number > 0 {
        return pack(done.number, done.place);
    }
    done.size as u64
}
