//! The rules' table of LKF, line by line: the premises of steps that fit. That another step does not fit
//! can't be told otherwise, but at `cut`, whose formula is tested first.
use crate::told::step_of;
use Logic::{Ljf, Lkf};
use fpc_terms::Names;
use lkf_rules::rules::{premises, root};
use lkf_rules::{Premises, Sequent, StepRefusal};
use polarised_formulas::{Formula, Formulas, Logic, Step, read_plain_formula};
use std::alloc::Global;
use std::process::Abort;
use std::test::Fail;

/// A sequent: its level, its stored formulas with commas between them, and `up` with the formulas that are
/// worked on or `down` with the one under focus.
type Written<'a> = (u64, &'a str, &'a str);

fn formulas(alloc: Global, names: &mut Names, text: &str) -> Result<Formulas, Fail> {
    let mut list = Formulas::new(alloc);
    for part in text.split(", ") {
        if !part.is_empty() {
            list.push(read_plain_formula(alloc, names, Lkf, part.as_bytes())?)?;
        }
    }
    Ok(list)
}

fn sequent(
    alloc: Global,
    names: &mut Names,
    (level, stored, place): Written<'_>,
) -> Result<Sequent, Fail> {
    let stored = formulas(alloc, names, stored)?;
    match place.strip_prefix("down ") {
        Some(focus) => {
            let focus = read_plain_formula(alloc, names, Lkf, focus.as_bytes())?;
            Ok(Sequent::Down {
                level,
                stored,
                focus,
            })
        }
        None => {
            let work = formulas(alloc, names, place.strip_prefix("up ").unwrap_or(""))?;
            Ok(Sequent::Up {
                level,
                stored,
                work,
            })
        }
    }
}

fn are_same(some: &[Formula], others: &[Formula]) -> bool {
    some.len() == others.len()
        && some
            .iter()
            .zip(others)
            .all(|(one, other)| one.nodes() == other.nodes())
}

fn is_same(one: &Sequent, other: &Sequent) -> bool {
    if one.level() != other.level() {
        return false;
    }
    match (one, other) {
        (
            Sequent::Up { stored, work, .. },
            Sequent::Up {
                stored: others,
                work: left,
                ..
            },
        ) => are_same(stored.items(), others.items()) && are_same(work.items(), left.items()),
        (
            Sequent::Down { stored, focus, .. },
            Sequent::Down {
                stored: others,
                focus: other,
                ..
            },
        ) => are_same(stored.items(), others.items()) && focus.nodes() == other.nodes(),
        _ => false,
    }
}

/// Expects a sequent.
fn expect_same(
    rt: &impl Abort,
    alloc: Global,
    names: &mut Names,
    found: &Sequent,
    due: Written<'_>,
) -> Result<(), Fail> {
    let other = sequent(alloc, names, due)?;
    assert!(rt; is_same(found, &other), "{due:?}");
    Ok(())
}

/// What a step is to give: the premises, or nothing where it does not fit.
type Due<'a> = Option<&'a [Written<'a>]>;

/// Expects the premises of a step.
fn expect_premises(
    rt: &impl Abort,
    alloc: Global,
    names: &mut Names,
    sequent: &Sequent,
    step: &Step,
    due: Due<'_>,
) -> Result<(), Fail> {
    assert!(rt; sequent.level() < u64::MAX);
    match (premises(alloc, sequent, step), due) {
        (Ok(Premises::None), Some([])) => Ok(()),
        (Ok(Premises::One(only)), Some([one])) => expect_same(rt, alloc, names, &only, *one),
        (Ok(Premises::Two(first, second)), Some([one, two])) => {
            expect_same(rt, alloc, names, &first, *one)?;
            expect_same(rt, alloc, names, &second, *two)
        }
        (Err(StepRefusal::DoesNotFit), None) => Ok(()),
        _ => panic!(rt; "other premises than {due:?}"),
    }
}

/// A row: a sequent, the line of a step with its logic, and what the step gives.
type Row<'a> = (Written<'a>, Logic, &'a str, Due<'a>);

/// The rules from `tt-` to `cut`.
const NEGATIVE: &[Row<'static>] = &[
    ((0, "p", "up tt-, ff-"), Lkf, "tt-", Some(&[])),
    (
        (2, "p", "up ff-, ~p"),
        Lkf,
        "ff-",
        Some(&[(2, "p", "up ~p")]),
    ),
    (
        (1, "tt-", "up (p |- ~p), ff-"),
        Lkf,
        "or-",
        Some(&[(1, "tt-", "up p, ~p, ff-")]),
    ),
    (
        (1, "tt-", "up (p &- ~p), ff-"),
        Lkf,
        "and-",
        Some(&[(1, "tt-", "up p, ff-"), (1, "tt-", "up ~p, ff-")]),
    ),
    (
        (3, "p", "up all r(#0), ff-"),
        Lkf,
        "all",
        Some(&[(4, "p", "up r($3), ff-")]),
    ),
    ((0, "", "up tt+"), Lkf, "store", Some(&[(0, "tt+", "up")])),
    (
        (0, "p", "up ~p, ff-"),
        Lkf,
        "store",
        Some(&[(0, "p, ~p", "up ff-")]),
    ),
    (
        (0, "", "up some r(#0)"),
        Lkf,
        "store",
        Some(&[(0, "some r(#0)", "up")]),
    ),
    (
        (5, "~p, p", "up"),
        Lkf,
        "decide 1",
        Some(&[(5, "~p, p", "down p")]),
    ),
    (
        (3, "p", "up"),
        Lkf,
        "cut r($2)",
        Some(&[(3, "p", "up r($2)"), (3, "p", "up ~r($2)")]),
    ),
    (
        (0, "", "up"),
        Lkf,
        "cut (all r(#0) &+ tt-)",
        Some(&[
            (0, "", "up (all r(#0) &+ tt-)"),
            (0, "", "up (some ~r(#0) |- ff+)"),
        ]),
    ),
    ((3, "", "up"), Lkf, "cut r($3)", None),
];

/// The rules from `tt+` to `init`.
const POSITIVE: &[Row<'static>] = &[
    ((0, "p", "down tt+"), Lkf, "tt+", Some(&[])),
    (
        (1, "tt-", "down (p &+ ~p)"),
        Lkf,
        "and+",
        Some(&[(1, "tt-", "down p"), (1, "tt-", "down ~p")]),
    ),
    (
        (1, "tt-", "down (p |+ ~p)"),
        Lkf,
        "or+ left",
        Some(&[(1, "tt-", "down p")]),
    ),
    (
        (1, "tt-", "down (p |+ ~p)"),
        Lkf,
        "or+ right",
        Some(&[(1, "tt-", "down ~p")]),
    ),
    (
        (2, "all r(#0)", "down some r(#0)"),
        Lkf,
        "some $1",
        Some(&[(2, "all r(#0)", "down r($1)")]),
    ),
    (
        (2, "", "down some all r(f(#1,#0))"),
        Lkf,
        "some g($1,a)",
        Some(&[(2, "", "down all r(f(g($1,a),#0))")]),
    ),
    (
        (4, "p", "down ~p"),
        Lkf,
        "release",
        Some(&[(4, "p", "up ~p")]),
    ),
    ((0, "all r(#0), ~p", "down p"), Lkf, "init 1", Some(&[])),
    ((2, "~r($0)", "down r($0)"), Lkf, "init 0", Some(&[])),
];

fn expect_row(rt: &impl Abort, alloc: Global, row: Row<'_>) -> Result<(), Fail> {
    let (place, logic, line, due) = row;
    let mut names = Names::new(alloc);
    let at = sequent(alloc, &mut names, place)?;
    let step = step_of(rt, alloc, &mut names, logic, line)?;
    expect_premises(rt, alloc, &mut names, &at, &step, due)
}

#[test]
fn steps_give_the_premises_of_their_rules(rt: HostRuntime) -> Result<(), Fail> {
    for row in NEGATIVE {
        expect_row(&rt, rt.alloc(), *row)?;
    }
    for row in POSITIVE {
        expect_row(&rt, rt.alloc(), *row)?;
    }
    Ok(())
}

#[test]
fn the_root_has_the_goal_to_be_worked_on(rt: HostRuntime) -> Result<(), Fail> {
    let mut names = Names::new(rt.alloc());
    let goal = read_plain_formula(rt.alloc(), &mut names, Lkf, b"(p |- ~p)")?;
    let due = sequent(rt.alloc(), &mut names, (0, "", "up (p |- ~p)"))?;
    assert!(rt; is_same(&root(rt.alloc(), &goal)?, &due));
    Ok(())
}
