// What a question is answered with: its `asked` line, and a line for each answer.
ghost use Rattle.std.specs.Prelude.{◌≡◌, ◌+◌, ◌*◌, ◌≤◌, length};
ghost use Rattle.ground.specs.Lists.{each};
ghost use Rattle.printing.specs.Text.{behind_blank, answer_line};
ghost use Rattle.printing.specs.Laid.{LaidWithin, answers_in, asked_in};

use crate::lines::{put_behind_blank, put_decimal, put_line, put_line_feed, put_numbers};

// Terms, each behind a blank: 6 bytes at most, and not 21 as for any number (`put_numbers`), which an answer's 264 bytes count on.
fn put_terms(out: &mut [u8], at: usize, terms: &[u16]) -> usize
    requires { at + length terms.now * 6 ≤ length out.old }
    ensures { LaidWithin out.old out.new at result (each behind_blank terms.now) (length terms.now * 6) }
{
    let mut next = at;
    for term in terms {
        next = put_behind_blank(out, next, *term as u64);
    }
    next
}

// An answer's 16 terms and 8 annotations: 264 bytes at most.
fn put_answer(out: &mut [u8], at: usize, terms: &[u16], anns: &[u64]) -> usize
    requires { (length terms.now ≡ 16) × (length anns.now ≡ 8) × (at + 264 ≤ length out.old) }
    ensures { LaidWithin out.old out.new at result (answer_line terms.now anns.now) 264 }
{
    let second = put_decimal(out, at, terms[0] as u64);
    let annotations = put_terms(out, second, &terms[1..]);
    let last = put_numbers(out, annotations, anns);
    put_line_feed(out, last)
}

// The first count answers, a line each.
fn put_answers(out: &mut [u8], at: usize, terms: &[u16], anns: &[u64], count: usize) -> usize
    requires { (count * 16 ≤ length terms.now) × (count * 8 ≤ length anns.now) × (at + count * 264 ≤ length out.old) }
    ensures { LaidWithin out.old out.new at result (answers_in terms.now anns.now count) (count * 264) }
{
    let mut next = at;
    let answers = terms.chunks_exact(16).zip(anns.chunks_exact(8));
    for (bound, values) in answers.take(count) {
        next = put_answer(out, next, bound, values);
    }
    next
}

// The line and the answers, at the front of `out`.
pub fn put_asked(
    out: &mut [u8],
    number: u8,
    place: usize,
    looks: u32,
    terms: &[u16],
    anns: &[u64],
    count: usize,
) -> usize
    requires { (count * 16 ≤ length terms.now) × (count * 8 ≤ length anns.now) × (90 + count * 264 ≤ length out.old) }
    ensures { LaidWithin out.old out.new 0 result (asked_in number place looks terms.now anns.now count) (90 + count * 264) }
{
    let numbers = [number as u64, place as u64, count as u64, looks as u64];
    let answers = put_line(out, 0, b"asked", &numbers);
    put_answers(out, answers, terms, anns, count)
}
