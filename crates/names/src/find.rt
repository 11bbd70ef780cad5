// Entries looked for by number.
ghost use Rattle.std.specs.Prelude.{◌≡◌, ◌≤◌, ◌<◌, length};
ghost use Rattle.names.specs.Names.{start_of, text_at_lem};
ghost use Rattle.names.specs.Finding.{NotBefore, FoundWith};

// Where entry i's text begins.
pub fn start_of(ends: &[u16], i: usize) -> usize
    requires { i ≤ length ends.now }
    ensures { result ≡ start_of ends.now i }
{
    if i == 0 { 0 } else { usize::from(ends[i - 1]) }
}

// Entry i's text, or no bytes where its ends do not fit.
pub fn text_at<'a>(ends: &[u16], text: &'a [u8], i: usize) -> &'a [u8]
    requires { i < length ends.now }
    ensures { (result.now ≡ text_at_lem ends.now text.now i) × (length result.now ≤ length text.now) }
{
    let from = start_of(ends, i);
    let to = usize::from(ends[i]);
    if from <= to && to <= text.len() {
        &text[from..to]
    } else {
        &[]
    }
}

// The first entry with a number, which no entry before `from` has.
pub fn entry_of(terms: &[u16], names: usize, from: usize, n: u16) -> Option<usize>
    requires { (names ≤ length terms.now) × NotBefore terms.now names from n }
    ensures { FoundWith terms.now names n result }
{
    (from..names).find(|i| terms[*i] == n)
}
