//! The cases: figures of every weighing, settles on top of settles, refusals between, and the largest fit.
use crate::caller::best_with;
use charge::Charge;
use counter::Counter;
use division::cost::Cost;
use division::table::{MOST_READINGS, Table, Told};
use even::Even;
use fit::fit::Fit;
use fit::rounds::Rounds;
use pair::Pair;
use refusal::Refusal;
use rising::ceiling::Ceiling;
use rising::middle::Middle;
use runs::run::run;
use runs::step::{Answer, Call, step};
use search::search;
use search::sheet::Sheet;
use search::strip::Strip;
use std::array;
use std::process::Abort;
use std::test::Fail;
use weighing::weighing::Weighing;

// What stands in a list before a call: no end has this number.
const UNTOUCHED: usize = 77_777;

const STAGES: [u32; 5] = [2, 2, 5, 9, 9];

fn holding<W: Weighing + Drop>(rt: &impl Abort, mut weighing: W, readings: &[u32]) -> W {
    for &reading in readings {
        assert!(rt; weighing.take(reading).is_ok());
    }
    weighing
}

// as `holding` does by the weighing, this takes by the fit
fn take_all<W: Weighing>(rt: &impl Abort, fit: &mut Fit<W>, readings: &[u32]) {
    for &reading in readings {
        assert!(rt; fit.take(reading).is_ok());
    }
}

// Settles with lists of any length that may be needed, and tells how far the count rose.
fn settle<W: Weighing>(fit: &mut Fit<W>) -> Result<u64, Fail> {
    let mut answers = [UNTOUCHED; MOST_READINGS];
    let mut work = [UNTOUCHED; 4 * MOST_READINGS];
    fit.settle(&mut answers, &mut work)
        .map_err(|_| Fail::new("the settle is refused"))
}

// A division into at most three spans: what is told, and that the ends alone were written.
fn divides<W: Weighing>(rt: &impl Abort, fit: &Fit<W>, k: usize, weight: u64, ends: &[usize]) {
    let mut list = [UNTOUCHED; 3];
    let spans = ends.len();
    assert_eq!(rt; fit.divide(k, &mut list), Ok(Told { spans, weight }));
    assert!(rt; list.starts_with(ends));
    assert!(rt; list.iter().skip(spans).all(|&end| end == UNTOUCHED));
}

// The division of these readings into at most k spans, settled at once.
fn figure<W: Weighing + Drop>(
    rt: &impl Abort,
    weighing: W,
    readings: &[u32],
    k: usize,
    weight: u64,
    ends: &[usize],
) -> Result<(), Fail> {
    let mut fit = Fit::open(weighing, 8);
    take_all(rt, &mut fit, readings);
    settle(&mut fit)?;
    divides(rt, &fit, k, weight, ends);
    Ok(())
}

fn follow<W: Weighing>(
    rt: &impl Abort,
    fit: &mut Fit<W>,
    ends: &mut [usize],
    work: &mut [usize],
    script: &[(Call, Result<Answer, Refusal>)],
) {
    for &(call, answer) in script {
        assert_eq!(rt; step(fit, call, ends, work), answer);
    }
}

#[test]
fn figures_of_each_weighing(rt: HostRuntime) -> Result<(), Fail> {
    figure(&rt, Ceiling::new(), &STAGES, 2, 4, &[2, 5])?;
    figure(&rt, Ceiling::new(), &STAGES, 3, 0, &[2, 3, 5])?;
    figure(&rt, Ceiling::new(), &[2, 2], 2, 0, &[2])?;
    figure(&rt, Ceiling::new(), &[7], 8, 0, &[1])?;
    figure(&rt, Ceiling::new(), &[4, 4, 4, 4], 3, 0, &[4])?;
    figure(&rt, Ceiling::new(), &[1, 2, 3], 8, 0, &[1, 2, 3])?;
    figure(&rt, Middle::new(), &[0, 5, 10], 2, 5, &[1, 3])?;
    figure(&rt, Even::new(2), &STAGES, 2, 1, &[2, 5])?;
    figure(
        &rt,
        Charge::new(Ceiling::new(), 10),
        &STAGES,
        3,
        24,
        &[2, 5],
    )?;
    figure(
        &rt,
        Pair::new(Ceiling::new(), Even::new(2)),
        &[2, 2, 2, 2],
        3,
        0,
        &[2, 4],
    )
}

#[test]
fn settles_on_top_of_settles(rt: HostRuntime) -> Result<(), Fail> {
    let mut fit = Fit::open(Ceiling::new(), 3);
    take_all(&rt, &mut fit, &STAGES);
    settle(&mut fit)?;
    assert_eq!(rt; fit.exact(1), Ok(18));
    assert_eq!(rt; fit.exact(2), Ok(4));
    assert_eq!(rt; fit.exact(3), Ok(0));
    assert_eq!(rt; fit.exact(4), Err(Refusal::WrongSpans));
    // what is left of settled readings is settled
    assert_eq!(rt; fit.drop_last(), Ok(4));
    assert_eq!(rt; fit.drop_last(), Ok(3));
    divides(&rt, &fit, 2, 0, &[2, 3]);
    assert_eq!(rt; settle(&mut fit)?, 0);
    // and what comes on top of it is not
    take_all(&rt, &mut fit, &[20, 21, 40]);
    assert_eq!(rt; fit.exact(1), Err(Refusal::NotSettled));
    settle(&mut fit)?;
    assert_eq!(rt; fit.exact(1), Ok(150));
    divides(&rt, &fit, 2, 45, &[3, 6]);
    divides(&rt, &fit, 3, 7, &[3, 5, 6]);
    assert_eq!(rt; fit.wipe(), 0);
    take_all(&rt, &mut fit, &[2, 2]);
    assert_eq!(rt; fit.exact(1), Err(Refusal::NotSettled));
    settle(&mut fit)?;
    divides(&rt, &fit, 2, 0, &[2]);
    assert_eq!(rt; fit.exact(3), Err(Refusal::WrongSpans));
    Ok(())
}

#[test]
fn refusals_leave_the_lists(rt: HostRuntime) -> Result<(), Fail> {
    let mut fit = Fit::open(Ceiling::new(), 2);
    let mut ends = [UNTOUCHED; 2];
    let mut work = [UNTOUCHED; 11];
    follow(
        &rt,
        &mut fit,
        &mut ends,
        &mut work,
        &[
            (Call::Settle, Err(Refusal::NothingHeld)),
            (Call::Divide(0), Err(Refusal::NothingHeld)),
            (Call::Exact(9), Err(Refusal::NothingHeld)),
            (Call::Drop, Err(Refusal::NothingHeld)),
            (Call::Wipe, Ok(Answer::Held(0))),
            (Call::Take(65_536), Err(Refusal::ReadingTooGreat)),
            (Call::Take(5), Ok(Answer::Held(1))),
            (Call::Take(4), Err(Refusal::ReadingFalls)),
            (Call::Divide(0), Err(Refusal::NotSettled)),
            (Call::Exact(0), Err(Refusal::NotSettled)),
            (Call::Take(5), Ok(Answer::Held(2))),
            (Call::Take(9), Ok(Answer::Held(3))),
            (Call::Settle, Err(Refusal::ListTooShort)),
            (Call::Divide(1), Err(Refusal::NotSettled)),
        ],
    );
    assert_eq!(rt; ends, [UNTOUCHED; 2]);
    assert_eq!(rt; work, [UNTOUCHED; 11]);
    settle(&mut fit)?;
    follow(
        &rt,
        &mut fit,
        &mut ends,
        &mut work,
        &[
            (Call::Settle, Ok(Answer::Settled(0))),
            (Call::Divide(0), Err(Refusal::WrongSpans)),
            (Call::Divide(3), Err(Refusal::WrongSpans)),
            (Call::Exact(0), Err(Refusal::WrongSpans)),
            (Call::Exact(2), Ok(Answer::Weight(0))),
            (Call::Take(8), Err(Refusal::ReadingFalls)),
        ],
    );
    assert_eq!(rt; fit.divide(2, &mut ends[0..1]), Err(Refusal::ListTooShort));
    assert_eq!(rt; fit.divide(0, &mut ends[0..0]), Err(Refusal::WrongSpans));
    assert_eq!(rt; ends, [UNTOUCHED; 2]);
    assert_eq!(rt; work, [UNTOUCHED; 11]);
    follow(
        &rt,
        &mut fit,
        &mut ends,
        &mut work,
        &[
            (
                Call::Divide(2),
                Ok(Answer::Divided(Told {
                    spans: 2,
                    weight: 0,
                })),
            ),
            (Call::Drop, Ok(Answer::Held(2))),
            (Call::Exact(1), Ok(Answer::Weight(0))),
        ],
    );
    assert_eq!(rt; ends, [2, 3]);
    Ok(())
}

// Only the first places for the unsettled readings are free.
#[test]
fn settles_in_the_first_places(rt: HostRuntime) -> Result<(), Fail> {
    let mut fit = Fit::open(Ceiling::new(), 8);
    take_all(&rt, &mut fit, &STAGES);
    settle(&mut fit)?;
    take_all(&rt, &mut fit, &[9]);
    let mut answers = [UNTOUCHED; 3];
    let mut work = [UNTOUCHED; 6];
    assert!(rt; fit.settle(&mut answers, &mut work).is_ok());
    assert_eq!(rt; [answers[1], answers[2]], [UNTOUCHED; 2]);
    assert_eq!(rt; [work[4], work[5]], [UNTOUCHED; 2]);
    assert_eq!(rt; fit.exact(1), Ok(18));
    divides(&rt, &fit, 2, 4, &[2, 6]);
    Ok(())
}

#[test]
fn largest_fit(rt: HostRuntime) -> Result<(), Fail> {
    let mut fit = Fit::open(Ceiling::new(), 9);
    assert_eq!(rt; fit.limit(), 8);
    for reading in 0..512u32 {
        assert!(rt; fit.take(reading / 64 * 100).is_ok());
    }
    assert_eq!(rt; fit.held(), 512);
    assert_eq!(rt; fit.take(700), Err(Refusal::Full));
    let whole = settle(&mut fit)?;
    assert!(rt; whole <= 69_632);
    assert_eq!(rt; settle(&mut fit)?, 0);
    let mut ends = [UNTOUCHED; 9];
    assert_eq!(rt;
        fit.divide(8, &mut ends),
        Ok(Told {
            spans: 8,
            weight: 0,
        })
    );
    assert_eq!(rt; ends, [64, 128, 192, 256, 320, 384, 448, 512, UNTOUCHED]);
    assert_eq!(rt; fit.exact(8), Ok(0));
    assert_eq!(rt; fit.drop_last(), Ok(511));
    assert_eq!(rt; fit.take(700), Ok(512));
    let one_more = settle(&mut fit)?;
    assert!(rt; one_more <= 16_488);
    assert!(rt; one_more < whole / 4);
    assert_eq!(rt; fit.exact(8), Ok(0));
    Ok(())
}

#[test]
fn caller_gets_the_best_division(rt: HostRuntime) {
    let weighing = holding(&rt, Ceiling::new(), &[2, 2, 5, 9]);
    let mut ends = [UNTOUCHED; 5];
    let mut work = [UNTOUCHED; 20];
    assert_eq!(rt;
        best_with(weighing, 9, 8, 2, &mut ends, &mut work),
        Ok(Answer::Divided(Told {
            spans: 2,
            weight: 4,
        }))
    );
    assert_eq!(rt; [ends[0], ends[1]], [2, 5]);
}

#[test]
fn run_makes_the_calls_that_have_room(rt: HostRuntime) {
    let calls = [
        Call::Take(2),
        Call::Take(1),
        Call::Take(5),
        Call::Divide(1),
        Call::Settle,
        Call::Settle,
        Call::Divide(2),
        Call::Wipe,
    ];
    let mut answers = [Err(Refusal::NotUnderstood); 7];
    let mut ends = [UNTOUCHED; 3];
    let mut work = [UNTOUCHED; 8];
    let fit = run(
        Ceiling::new(),
        9,
        &calls,
        &mut answers,
        &mut ends,
        &mut work,
    );
    assert_eq!(rt; fit.held(), 2);
    assert_eq!(rt;
        &answers[..4],
        [
            Ok(Answer::Held(1)),
            Err(Refusal::ReadingFalls),
            Ok(Answer::Held(2)),
            Err(Refusal::NotSettled),
        ]
        .as_slice()
    );
    assert_eq!(rt;
        &answers[5..],
        [
            Ok(Answer::Settled(0)),
            Ok(Answer::Divided(Told {
                spans: 2,
                weight: 0,
            })),
        ]
        .as_slice()
    );
    assert_eq!(rt; ends, [1, 2, UNTOUCHED]);
}

// what a span weighs, or more than any span
fn weight_of<W: Weighing>(weighing: &mut W, a: usize, b: usize) -> u64 {
    weighing.weigh(a, b).unwrap_or(u64::MAX)
}

// What the first readings weigh at least in two spans, by trying every cut, and the leftmost cut that reaches it.
fn every_cut_tried<W: Weighing>(weighing: &mut W, readings: usize) -> Option<(u64, usize)> {
    (1..readings)
        .map(|cut| {
            let before = weight_of(weighing, 0, cut);
            (
                before.saturating_add(weight_of(weighing, cut, readings)),
                cut,
            )
        })
        .min()
}

// One round of the row search over the tallies of one span finds the best single cut of each first part of a lead.
fn cuts_as_tried<W: Weighing + Drop>(rt: &impl Abort, weighing: W) {
    let n = weighing.held().min(MOST_READINGS);
    let mut rounds = Rounds {
        weighing,
        table: Table::new(),
        round: 1,
        ledger: Counter::new(),
    };
    for j in 1..=n {
        let whole = weight_of(&mut rounds.weighing, 0, j);
        rounds.table.put(1, j, Cost::Number(whole), 0);
    }
    let strip = Strip {
        row: 0,
        rows: n,
        column: 0,
        columns: n,
    };
    let mut cuts = [UNTOUCHED; MOST_READINGS];
    let mut work = [UNTOUCHED; 4 * MOST_READINGS];
    assert!(rt; search(&mut rounds, strip, &mut cuts, &mut work).is_ok());
    for (row, &cut) in cuts[..n].iter().enumerate().skip(1) {
        let Some((least, best)) = every_cut_tried(&mut rounds.weighing, row + 1) else {
            panic!(rt; "no cut");
        };
        assert_eq!(rt; cut, best);
        assert_eq!(rt; rounds.entry(row, cut), Ok(Cost::Number(least)));
    }
}

#[test]
fn single_cuts_as_tried(rt: HostRuntime) {
    let stages = [10, 10, 11, 40, 41, 41, 41, 80, 80];
    cuts_as_tried(&rt, holding(&rt, Ceiling::new(), &stages));
    let steady: [u32; 200] = array::from_fn(|i| i as u32 * 3);
    cuts_as_tried(&rt, holding(&rt, Middle::new(), &steady));
}
