// A second pass over a question that was read: the annotation variables of its TRIPLEs, and the first test (22) whose annotation
// variable also stands in a TRIPLE outside its part. Safe on any bytes; says something where the bytes hold a part.
ghost use Rattle.std.specs.Prelude.{◌≡◌, ◌+◌, ◌≤◌, length};
ghost use Rattle.parts.specs.Format.{pattern_at, test_at};
ghost use Rattle.parts.specs.Outside.{pattern_annotation, test_annotation};
ghost use Rattle.parts.specs.Bound.{numbered};
ghost use Rattle.parts.specs.Holding.{UsedIn, UsedPair, StrayIn, StrayPair, StrayOnly};

use crate::fields::{FieldIn, ONLY, TRIPLE, field_at};
use crate::slots;
use field::two;

fn triple_annotation(b: &[u8], from: usize) -> u64
    requires { from + 18 ≤ length b.now }
    ensures { result ≡ pattern_annotation (pattern_at b.now from) }
{
    slots::annotation_vars(b, from + 9)
}

fn test_annotation(b: &[u8], from: usize) -> u64
    requires { from + 3 ≤ length b.now }
    ensures { result ≡ test_annotation (test_at b.now from) }
{
    if b[from] < 2 {
        return 0;
    }
    slots::annotation_bit(u64::from(two(b, from + 1)))
}

#[cycle(used_in_used_pair)]
fn used_in(b: &[u8], at: usize, end: usize) -> u64
    requires { (at ≤ end) × (end ≤ length b.now) }
    ensures { UsedIn b.now at end result }
{
    let Some(f) = field_at(b, at, end) else {
        return 0;
    };
    match f.tag {
        TRIPLE if f.to - f.from == slots::TRIPLE_SIZE => triple_annotation(b, f.from),
        TRIPLE => 0,
        ONLY => used_in(b, f.from, f.to),
        _ => used_pair(b, f.from, f.to),
    }
}

#[cycle(used_in_used_pair)]
fn used_pair(b: &[u8], at: usize, end: usize) -> u64
    requires { (at ≤ end) × (end ≤ length b.now) }
    ensures { UsedPair b.now at end result }
{
    let Some(left) = field_at(b, at, end) else {
        return 0;
    };
    used_in(b, at, end) | used_in(b, left.to, end)
}

// The place of the first such ONLY. `outer` has the variables of the triples outside.
#[cycle(stray_in_stray_pair)]
pub fn stray_in(b: &[u8], at: usize, end: usize, outer: u64) -> Option<usize>
    requires { (at ≤ end) × (end ≤ length b.now) }
    ensures { StrayIn b.now at end outer (numbered result) }
{
    let f = field_at(b, at, end)?;
    match f.tag {
        TRIPLE => None,
        ONLY => {
            let inner = stray_in(b, f.from, f.to, outer);
            stray_test(b, at, f, outer, inner)
        }
        _ => stray_pair(b, f.from, f.to, outer),
    }
}

#[cycle(stray_in_stray_pair)]
fn stray_pair(b: &[u8], at: usize, end: usize, outer: u64) -> Option<usize>
    requires { (at ≤ end) × (end ≤ length b.now) }
    ensures { StrayPair b.now at end outer (numbered result) }
{
    let mid = field_at(b, at, end)?.to;
    let left = used_in(b, at, end);
    let right = used_in(b, mid, end);
    let first = stray_in(b, at, end, outer | right);
    let second = stray_in(b, mid, end, outer | left);
    first.or(second)
}

// An ONLY's own test is before those in its part.
fn stray_test(
    b: &[u8],
    holder: usize,
    only: FieldIn,
    outer: u64,
    inner: Option<usize>,
) -> Option<usize>
    requires { (only.from ≤ only.to) × (only.to ≤ length b.now) }
    ensures { StrayIn b.now only.from only.to outer (numbered inner) → StrayOnly b.now holder only.from only.to outer (numbered result) }
{
    let to = field_at(b, only.from, only.to)?.to;
    if only.to - to < 6 {
        return None;
    }
    if test_annotation(b, to + 3) & outer == 0 {
        inner
    } else {
        Some(holder)
    }
}
