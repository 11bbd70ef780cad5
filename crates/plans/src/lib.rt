// The rules of rho-df driven from one row (X D Y): which rows each rule looks for beside it, and what each of those gives.
// Nothing is refused or drawn here; `walks` carries a plan out, and `rounds` all plans of a row.
#![tactic(auto)]

ghost use Rattle.std.specs.Prelude.{◌≡◌};
ghost use Rattle.table.specs.Rows.{triple};
ghost use Rattle.plans.specs.Plans.{subject_of, straight_if, renaming_plan, behind_plan, alone_if, plan_at, plan_count_lem, reflexive_plans, all_plans};

use ruleset::RuleSet;
use term::{DOM, RANGE, SC, SP, TYPE};

// What a row with the object z gives: (s p z), or (s z o).
#[derive(Clone, Copy)]
pub enum Once {
    Straight { s: u16, p: u16 },
    Renaming { s: u16, o: u16 },
}

// A row with the object z leads to the rows (z t w), and each of these gives (s p w).
#[derive(Clone, Copy)]
pub struct Behind {
    pub t: u16,
    pub s: u16,
    pub p: u16,
}

// What each row that a plan meets gives. Enums within enums, for speed: a match of five arms is compiled to a table of jumps.
#[derive(Clone, Copy)]
pub enum Each {
    Once(Once),
    Behind(Behind),
}

#[derive(Clone, Copy)]
pub enum Plan {
    // There is nothing to do.
    Off,
    // The rows that begin with q and r are looked for.
    Rows { q: u16, r: u16, each: Each },
    // No row is looked for, and the plan itself gives (s p o).
    Alone { s: u16, p: u16, o: u16 },
}

impl Plan {
    // The subject of all that it gives.
    pub fn subject(self) -> u16
        ensures { result ≡ subject_of self }
    {
        match self {
            Plan::Off => 0,
            Plan::Rows { each, .. } => match each {
                Each::Once(Once::Straight { s, .. } | Once::Renaming { s, .. }) => s,
                Each::Behind(gives) => gives.s,
            },
            Plan::Alone { s, .. } => s,
        }
    }
}

// Of a rule that begins with this row only where `on`.
fn straight_plan(on: bool, q: u16, r: u16, s: u16, p: u16) -> Plan
    ensures { result ≡ straight_if on q r s p }
{
    if on {
        Plan::Rows {
            q,
            r,
            each: Each::Once(Once::Straight { s, p }),
        }
    } else {
        Plan::Off
    }
}

fn renaming_plan(q: u16, r: u16, s: u16, o: u16) -> Plan
    ensures { result ≡ renaming_plan q r s o }
{
    Plan::Rows {
        q,
        r,
        each: Each::Once(Once::Renaming { s, o }),
    }
}

fn behind_plan(q: u16, r: u16, t: u16, s: u16, p: u16) -> Plan
    ensures { result ≡ behind_plan q r t s p }
{
    Plan::Rows {
        q,
        r,
        each: Each::Behind(Behind { t, s, p }),
    }
}

// (s p s) by itself, where `on`.
fn alone_plan(on: bool, s: u16, p: u16) -> Plan
    ensures { result ≡ alone_if on s p }
{
    if on {
        Plan::Alone { s, p, o: s }
    } else {
        Plan::Off
    }
}

// The rules, and the rules with the reflexive lines of rule set 2.
const RULES: u8 = 8;

const RULES_AND_LINES: u8 = 18;

// How many plans a row has in a rule set; a number that is none has those of set 1.
pub fn plan_count(rules: u8) -> u8
    ensures { result ≡ plan_count_lem rules }
{
    if rules == RuleSet::Reflexive.number() {
        RULES_AND_LINES
    } else {
        RULES
    }
}

// The plan of a reflexive line for the row (x d y): 9, 10, 11, 12, 13, 14, 15, 16, 17, 18.
#[tactic(auto, unfolding(crate::specs::Plans::reflexive_plans))]
fn reflexive_plan(line: u8, x: u16, d: u16, y: u16) -> Plan
    ensures { result ≡ plan_at (reflexive_plans x d y) line }
{
    match line {
        0 => alone_plan(true, d, SP),
        1 => alone_plan(d == SP, x, SP),
        2 => alone_plan(d == SP, y, SP),
        3 => alone_plan(d == DOM, x, SP),
        4 => alone_plan(d == RANGE, x, SP),
        5 => alone_plan(d == SC, x, SC),
        6 => alone_plan(d == SC, y, SC),
        7 => alone_plan(d == TYPE, y, SC),
        8 => alone_plan(d == DOM, y, SC),
        9 => alone_plan(d == RANGE, y, SC),
        _ => Plan::Off,
    }
}

// The plan of a rule for the row (x d y): 2a, 2b, 3a, 3b, 4a, 4b, 5a, 5b, and then the reflexive lines. By its number, and no list
// of all: each is made when its turn comes, for every row that is asked.
#[tactic(auto, unfolding(crate::specs::Plans::plans_of))]
pub fn plan_of(rule: u8, x: u16, d: u16, y: u16) -> Plan
    ensures { result ≡ plan_at (all_plans (triple x d y)) rule }
{
    match rule {
        0 => straight_plan(d == SP, y, SP, x, SP),
        1 => renaming_plan(d, SP, x, y),
        2 => straight_plan(d == SC, y, SC, x, SC),
        3 => straight_plan(d == TYPE, y, SC, x, TYPE),
        4 => straight_plan(true, d, DOM, x, TYPE),
        5 => straight_plan(true, d, RANGE, y, TYPE),
        6 => behind_plan(d, SP, DOM, x, TYPE),
        7 => behind_plan(d, SP, RANGE, y, TYPE),
        _ => reflexive_plan(rule - RULES, x, d, y),
    }
}
