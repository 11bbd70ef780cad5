// A small demonstration: triples added to a table of three rows, and tables checked, each answer printed with its rows.
#![tactic(auto)]

use std::io;
use trackvesper::{add, check};

// Lamp 10 is of class 11 in 2000 to 2002, and again in 2005 to 2007 (base year 2000): two runs, never one.
// Class 11 lies within 13, and within 12: the rows stay in order.
// Then what is refused: no room, 65535 as a term, a blank as predicate, bottom.
const TRIPLES: [(u16, u16, u16, u64); 8] = [
    (10, 2, 11, 7),
    (10, 2, 11, 224),
    (11, 1, 13, 2016),
    (11, 1, 12, 2016),
    (11, 1, 14, 1),
    (65535, 2, 11, 1),
    (10, 16384, 11, 1),
    (10, 2, 11, 0),
];

fn main(rt: HostRuntime) -> io::Result<()> {
    let mut subj = [0u16; 3];
    let mut pred = [0u16; 3];
    let mut obj = [0u16; 3];
    let mut ann = [0u64; 3];
    let count = add_all(&rt, &mut subj, &mut pred, &mut obj, &mut ann)?;
    check_all(&rt, &subj, &pred, &obj, &ann, count)?;
    // The last row moved in front of the others.
    subj[2] = 0;
    shown_check(&rt, 1, &subj, &pred, &obj, &ann, count)
}

fn add_all(
    rt: &impl Print,
    subj: &mut [u16],
    pred: &mut [u16],
    obj: &mut [u16],
    ann: &mut [u64],
) -> io::Result<usize> {
    let mut count = 0;
    for triple in TRIPLES {
        count = shown_add(rt, subj, pred, obj, ann, count, triple)?;
    }
    Ok(count)
}

fn shown_add(
    rt: &impl Print,
    subj: &mut [u16],
    pred: &mut [u16],
    obj: &mut [u16],
    ann: &mut [u64],
    count: usize,
    (s, p, o, a): (u16, u16, u16, u64),
) -> io::Result<usize> {
    let done = add(1, subj, pred, obj, ann, count, s, p, o, a);
    println!(rt; "added {} {} {}", done.number, done.place, done.count)?;
    listing::rows(rt, subj, pred, obj, ann, done.count)?;
    Ok(done.count)
}

// Sound; a kind that is none; degrees past 1000; a count past the lanes.
fn check_all(
    rt: &impl Print,
    subj: &[u16],
    pred: &[u16],
    obj: &[u16],
    ann: &[u64],
    count: usize,
) -> io::Result<()> {
    for kind in 1..=3 {
        shown_check(rt, kind, subj, pred, obj, ann, count)?;
    }
    shown_check(rt, 1, subj, pred, obj, ann, 4)
}

fn shown_check(
    rt: &impl Print,
    kind: u8,
    subj: &[u16],
    pred: &[u16],
    obj: &[u16],
    ann: &[u64],
    count: usize,
) -> io::Result<()> {
    let verdict = check(kind, subj, pred, obj, ann, count);
    println!(rt; "checked {} {}", verdict.number, verdict.place)
}
