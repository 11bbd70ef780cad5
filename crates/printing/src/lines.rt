// Lines: a word or a number, numbers behind single blanks, a line feed.
ghost use Rattle.std.specs.Prelude.{◌+◌, ◌*◌, ◌≤◌, length};
ghost use Rattle.ground.specs.Lists.{each};
ghost use Rattle.printing.specs.Text.{decimal, behind_blank, line_feed, line, refused_line};
ghost use Rattle.printing.specs.Laid.{Fits, Laid, LaidWithin};

const BLANK: u8 = 32;

const LF: u8 = 10;

// A text as it is.
fn put(out: &mut [u8], at: usize, text: &[u8]) -> usize
    requires { Fits out.old at text.now }
    ensures { Laid out.old out.new at result text.now }
{
    let end = at + text.len();
    out[at..end].copy_from_slice(text);
    end
}

pub fn put_decimal(out: &mut [u8], at: usize, n: u64) -> usize
    requires { Fits out.old at (decimal n) }
    ensures { Laid out.old out.new at result (decimal n) }
{
    let mut text = [0u8; 20];
    let start = itoa::write_digits(n, &mut text, 20);
    put(out, at, &text[start..])
}

// A blank and a number.
pub fn put_behind_blank(out: &mut [u8], at: usize, n: u64) -> usize
    requires { Fits out.old at (behind_blank n) }
    ensures { Laid out.old out.new at result (behind_blank n) }
{
    out[at] = BLANK;
    put_decimal(out, at + 1, n)
}

// Numbers, each behind a blank: 21 bytes at most.
pub fn put_numbers(out: &mut [u8], at: usize, numbers: &[u64]) -> usize
    requires { at + length numbers.now * 21 ≤ length out.old }
    ensures { LaidWithin out.old out.new at result (each behind_blank numbers.now) (length numbers.now * 21) }
{
    let mut next = at;
    for n in numbers {
        next = put_behind_blank(out, next, *n);
    }
    next
}

pub fn put_line_feed(out: &mut [u8], at: usize) -> usize
    requires { Fits out.old at line_feed }
    ensures { Laid out.old out.new at result line_feed }
{
    out[at] = LF;
    at + 1
}

// A word, and the numbers behind it.
pub fn put_line(out: &mut [u8], at: usize, first: &[u8], numbers: &[u64]) -> usize
    requires { at + length first.now + length numbers.now * 21 + 1 ≤ length out.old }
    ensures { Laid out.old out.new at result (line first.now numbers.now) }
{
    let behind = put(out, at, first);
    let last = put_numbers(out, behind, numbers);
    put_line_feed(out, last)
}

// A refusal's line, at the front of `out`.
pub fn put_refused(out: &mut [u8], number: u8, place: usize) -> usize
    requires { 50 ≤ length out.old }
    ensures { Laid out.old out.new 0 result (refused_line number place) }
{
    let numbers = [number as u64, place as u64];
    put_line(out, 0, b"refused", &numbers)
}
