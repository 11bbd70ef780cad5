// Rows on standard output, a line each: decimal numbers behind single blanks.
// What a call of the system writes no contract can say, so these have none; the programs' stored output tests them.
#![tactic(auto)]

use std::io;

pub fn row(rt: &impl Print, s: u16, p: u16, o: u16, a: u64) -> io::Result<()> {
    println!(rt; "{s} {p} {o} {a}")
}

// The first count rows, as far as every lane has them.
pub fn rows(
    rt: &impl Print,
    subj: &[u16],
    pred: &[u16],
    obj: &[u16],
    ann: &[u64],
    count: usize,
) -> io::Result<()> {
    let lanes = subj.iter().zip(pred).zip(obj).zip(ann);
    for (((s, p), o), a) in lanes.take(count) {
        row(rt, *s, *p, *o, *a)?;
    }
    Ok(())
}
