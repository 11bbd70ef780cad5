// The counter's program: a book, then questions to the end of the input, each behind a length of two bytes.
// For each question `asked NUMBER PLACE COUNT LOOKS` and a line for each answer; `refused NUMBER PLACE` ends it.
#![tactic(auto)]

ghost use Rattle.std.specs.Prelude.{◌≡◌, true, ◌+◌, ◌≤◌, length, IfOk, IfErr};
ghost use Rattle.ruleset.specs.RuleSet.{is_rule_set};
ghost use Rattle.table.specs.Lent.{lent};
ghost use Rattle.printing.specs.Laid.{IsPrefixLen};
ghost use Rattle.counter.specs.Turns.{Ready, asked_room};

mod next;
mod turns;

use printing::input::read_full;
use std::io;
use std::io::Read;

const ALL_LOOKS: u32 = 4294967295;

fn main(rt: HostRuntime) -> io::Result<()> {
    let mut subj = [0u16; 1024];
    let mut pred = [0u16; 1024];
    let mut obj = [0u16; 1024];
    let mut ann = [0u64; 1024];
    let mut text = [0u8; 67712];
    // A length, and as many bytes as it can say.
    let mut bytes = [0u8; 65537];
    let mut input = rt.stdin();
    let size = read_next(&mut input, &mut bytes)?;
    let book = turns::open_book(
        &bytes[..size],
        &mut subj,
        &mut pred,
        &mut obj,
        &mut ann,
        &mut text,
    );
    rt.write_all(&text[..book.size])?;
    let Some(table) = book.table else {
        return Ok(());
    };
    answer_all(
        &rt,
        &mut input,
        table.kind,
        table.rules,
        &mut subj,
        &mut pred,
        &mut obj,
        &mut ann,
        table.rows,
        &mut bytes,
        &mut text,
    )
}

// Reads a length and as many bytes as it says, or what there is, to the front of `bytes`; how many came.
fn read_next<R: Read>(input: &mut R, bytes: &mut [u8]) -> io::Result<usize>
    requires { 65537 ≤ length bytes.old }
    ensures counts { IfOk result (λ n. IsPrefixLen n bytes.new) }
    ensures after_an_error { IfErr result (λ e. length bytes.new ≡ length bytes.old) }
{
    let head = read_part(input, bytes, 0, 2)?;
    if head < 2 {
        return Ok(head);
    }
    let size = next::length_of(bytes[0], bytes[1]);
    let rest = read_part(input, bytes, 2, 2 + size)?;
    Ok(2 + rest)
}

// Reads into the bytes from `from` up to `to`, until they are full or the input ends; how many came.
fn read_part<R: Read>(input: &mut R, bytes: &mut [u8], from: usize, to: usize) -> io::Result<usize>
    requires { (from ≤ to) × (to ≤ length bytes.old) }
    ensures counts { IfOk result (λ n. from + n ≤ to) }
    ensures after_an_error { IfErr result (λ e. length bytes.new ≡ length bytes.old) }
{
    read_full(input, &mut bytes[from..to])
}

// A proved loop has to end, and nothing says that the input does: the turns are so many that no run uses them up.
fn answer_all<R: Read>(
    rt: &impl Print,
    input: &mut R,
    kind: u8,
    rules: u8,
    subj: &mut [u16],
    pred: &mut [u16],
    obj: &mut [u16],
    ann: &mut [u64],
    count: usize,
    bytes: &mut [u8],
    text: &mut [u8],
) -> io::Result<()>
    requires { Ready kind (lent subj pred obj ann) count × (65537 ≤ length bytes.old) × (asked_room ≤ length text.old) × (is_rule_set rules ≡ true) }
{
    let mut terms = [0u16; 4096];
    let mut anns = [0u64; 2048];
    let mut rows = count;
    for _ in 0..u64::MAX {
        let size = read_next(input, bytes)?;
        let turn = turns::answer(
            kind,
            rules,
            &bytes[..size],
            subj,
            pred,
            obj,
            ann,
            rows,
            ALL_LOOKS,
            &mut terms,
            &mut anns,
            text,
        );
        rt.write_all(&text[..turn.size])?;
        let Some(closed) = turn.rows else {
            return Ok(());
        };
        rows = closed;
    }
    Ok(())
}
