// Bytes laid into a lane, and bytes compared.
ghost use Rattle.std.specs.Prelude.{◌≡◌, ◌↔◌, IsTrue, ◌+◌, ◌≤◌, length};
ghost use Rattle.std.proofs.Math.Seq.{paste};
ghost use Rattle.names.specs.Entering.{same_text_lem};
ghost use Rattle.names.specs.Finding.{SameIn};

// As many bytes as are compared together.
const EIGHT: usize = 8;

// The first `size` bytes of a word, laid into `out` from `at` on. A loop: `copy_from_slice` would have the archive for C want `memmove`.
pub fn put(out: &mut [u8], at: usize, word: &[u8], size: usize)
    requires { (at + size ≤ length out.old) × (size ≤ length word.now) }
    ensures { out.new ≡ paste out.old at word.now size }
{
    for k in 0..size {
        out[at + k] = word[k];
    }
}

// Whether the eight bytes from `at` on are the same. The compiler looks at them together, so none is the first.
fn same_eight(text: &[u8], word: &[u8], at: usize) -> bool
    requires { (at + 8 ≤ length text.now) × (at + 8 ≤ length word.now) }
    ensures { IsTrue result ↔ SameIn text.now at word.now at 8 }
{
    let mut same = true;
    for k in 0..EIGHT {
        same &= text[at + k] == word[at + k];
    }
    same
}

// Whether two texts are the same. By eights from the last on, for names often begin alike: `==` of the whole would look at their beginnings first.
pub fn same(text: &[u8], word: &[u8]) -> bool
    ensures { result ≡ same_text_lem text.now word.now }
{
    if text.len() != word.len() {
        return false;
    }
    let mut i = text.len();
    while EIGHT <= i {
        i -= EIGHT;
        if !same_eight(text, word, i) {
            return false;
        }
    }
    text[..i] == word[..i]
}
