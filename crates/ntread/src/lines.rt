// Line after line into the lent lanes.
ghost use Rattle.std.specs.Prelude.{◌≡◌, false, ℕ, ◌+◌, ◌≤◌, ◌<◌, length, get_or};
ghost use Rattle.annotation.specs.Numbered.{kind_number};
ghost use Rattle.table.specs.Lent.{lanes_in, Kept};
ghost use Rattle.ntnumber.specs.Lent.{list_in, KeptList, HashedIn};
ghost use Rattle.ntread.specs.Reading.{is_eol};
ghost use Rattle.ntread.specs.Inner.{Inside, LineEnd, Fresh, lines_told, LinesRead};

use ntenter::read_line;
use ntnumber::NameList;
use table::Table;
use term::Refused;

const CR: u8 = b'\r';

const LF: u8 = b'\n';

// As many bytes as are looked at together.
const BLOCK: usize = 16;

fn is_eol(x: u8) -> bool
    ensures { result ≡ is_eol x }
{
    x == CR || x == LF
}

// Whether a block has a byte that is no higher than CR. The compiler looks at them together, so none is the first.
fn has_low(b: &[u8], at: usize) -> bool
    requires { at + 16 ≤ length b.now }
    ensures { result ≡ false → (k : ℕ) → k < 16 → is_eol (get_or b.now (at + k) 0) ≡ false }
{
    let mut low = false;
    for k in 0..BLOCK {
        low |= b[at + k] <= CR;
    }
    low
}

// Behind the blocks from `at` on that have none. By places: of chunks the place would be counted beside them.
fn high_blocks(b: &[u8], at: usize) -> usize
    requires { at ≤ length b.now }
    ensures { Inside b.now at result }
{
    let mut to = at;
    while BLOCK <= b.len() - to {
        if has_low(b, to) {
            return to;
        }
        to += BLOCK;
    }
    to
}

// Where the line that begins at `at` ends: at the next CR or LF, or with the file.
fn line_end(b: &[u8], at: usize) -> usize
    requires { at ≤ length b.now }
    ensures { LineEnd b.now at result }
{
    for i in high_blocks(b, at)..b.len() {
        if is_eol(b[i]) {
            return i;
        }
    }
    b.len()
}

// Every line in order, until one is refused.
pub fn read_lines(table: &mut Table, list: &mut NameList, a: u64, b: &[u8]) -> Result<(), Refused>
    requires fresh { Fresh (kind_number table.old.kind) a (lanes_in table.old) (list_in list.old) }
    requires no_row { table.old.count ≡ 0 }
    requires no_name { list.old.count ≡ 0 }
    requires hashed { HashedIn list.old }
    ensures kept { Kept table.old table.new }
    ensures list_kept { KeptList list.old list.new }
    ensures read { LinesRead (kind_number table.old.kind) a b.now (lanes_in table.old) (lanes_in table.new) (list_in list.old) (list_in list.new) (lines_told table.new.count list.new.count result) }
{
    let mut at = 0;
    while at < b.len() {
        let end = line_end(b, at);
        if at < end {
            match read_line(table, list, a, b, at, end) {
                Ok(()) => {}
                Err(e) => return Err(e.at(at)),
            }
            at = end;
        } else {
            at += 1;
        }
    }
    Ok(())
}
