//! The weighings at their edges: each test is a script of steps with what each is to answer.
use crate::stairs::Stairs;
use charge::Charge;
use even::Even;
use pair::Pair;
use refusal::Refusal;
use rising::ceiling::Ceiling;
use rising::middle::Middle;
use std::process::Abort;
use weighing::verdict::heed;
use weighing::weighing::Weighing;

// A step is a value, so that one script can be followed with every weighing.
#[derive(Clone, Copy)]
enum Step {
    Take(u32),
    DropLast,
    Wipe,
    Weigh(usize, usize),
    Level(usize, usize),
    Verdict(u32),
    Held,
    Top,
    Count,
}

use Refusal::{Full, Misfit, NoSuchPlace, NothingHeld, ReadingFalls, ReadingTooGreat};
use Step::{Count, DropLast, Held, Level, Take, Top, Verdict, Weigh, Wipe};

// what a step answers
type Answer = Result<u64, Refusal>;

// written out: a value under test is not taken from the code
const GREATEST_CHARGE: u64 = 0x1000_0000;

const GREATEST_COUNT: u64 = 0x7fff_ffff_ffff_ffff;

const GREATEST_TOP: u64 = 0x7ff_ffff_ffff_ffff;

fn act<W: Weighing>(w: &mut W, step: Step) -> Answer {
    match step {
        Take(reading) => w.take(reading).map(|n| n as u64),
        DropLast => w.drop_last().map(|n| n as u64),
        Wipe => Ok(w.wipe() as u64),
        Weigh(a, b) => w.weigh(a, b),
        Level(a, b) => w.level(a, b).map(u64::from),
        Verdict(reading) => heed(w.verdict(reading)).map(|()| 0),
        Held => Ok(w.held() as u64),
        Top => Ok(w.top()),
        Count => Ok(w.count()),
    }
}

fn follow<W: Weighing>(rt: &impl Abort, w: &mut W, script: &[(Step, Answer)]) {
    for (step, answer) in script {
        assert_eq!(rt; act(w, *step), *answer);
    }
}

// takes so many readings of one size
fn fill<W: Weighing>(rt: &impl Abort, w: &mut W, count: usize, reading: u32) {
    for _ in 0..count {
        assert_eq!(rt; act(w, Verdict(reading)), Ok(0));
        let _ = w.take(reading);
    }
}

#[test]
fn ceiling_by_the_last_reading(rt: HostRuntime) {
    let mut w = Ceiling::new();
    follow(
        &rt,
        &mut w,
        &[
            (Held, Ok(0)),
            (Count, Ok(0)),
            (Top, Ok(33_553_920)),
            (DropLast, Err(NothingHeld)),
            (Weigh(0, 1), Err(NoSuchPlace)),
            (Take(2), Ok(1)),
            (Take(2), Ok(2)),
            (Verdict(1), Err(ReadingFalls)),
            (Take(1), Err(ReadingFalls)),
            (Take(5), Ok(3)),
            (Take(9), Ok(4)),
            (Take(9), Ok(5)),
            (Weigh(0, 5), Ok(18)),
            (Level(0, 5), Ok(9)),
            (Weigh(0, 2), Ok(0)),
            (Weigh(1, 3), Ok(3)),
            (Level(1, 3), Ok(5)),
            (Weigh(2, 2), Err(NoSuchPlace)),
            (Weigh(3, 2), Err(NoSuchPlace)),
            (Weigh(0, 6), Err(NoSuchPlace)),
            (Level(2, 2), Err(NoSuchPlace)),
            (Level(3, 2), Err(NoSuchPlace)),
            (Level(0, 6), Err(NoSuchPlace)),
            (Count, Ok(3)),
            (DropLast, Ok(4)),
            (DropLast, Ok(3)),
            (Take(4), Err(ReadingFalls)),
            (Take(6), Ok(4)),
            (Weigh(0, 4), Ok(9)),
            (Wipe, Ok(0)),
            (Take(65_536), Err(ReadingTooGreat)),
            (Take(1), Ok(1)),
            (Take(65_535), Ok(2)),
            (Take(65_536), Err(ReadingTooGreat)),
            (Take(u32::MAX), Err(ReadingTooGreat)),
            (Take(65_535), Ok(3)),
            (Weigh(0, 3), Ok(65_534)),
            (Count, Ok(5)),
        ],
    );
}

#[test]
fn middle_by_the_middle_reading(rt: HostRuntime) {
    let mut w = Middle::new();
    follow(
        &rt,
        &mut w,
        &[
            (Count, Ok(0)),
            (Top, Ok(33_553_920)),
            (DropLast, Err(NothingHeld)),
            (Take(0), Ok(1)),
            (Take(10), Ok(2)),
            (Take(0), Err(ReadingFalls)),
            (Wipe, Ok(0)),
            (Take(0), Ok(1)),
            (Take(5), Ok(2)),
            (Take(10), Ok(3)),
            (Weigh(0, 3), Ok(10)),
            (Level(0, 3), Ok(5)),
            (Weigh(0, 2), Ok(5)),
            (Level(0, 2), Ok(5)),
            (Weigh(1, 3), Ok(5)),
            (Level(1, 3), Ok(10)),
            (Weigh(2, 3), Ok(0)),
            (Take(11), Ok(4)),
            (Weigh(0, 4), Ok(16)),
            (Level(0, 4), Ok(10)),
            (Weigh(4, 4), Err(NoSuchPlace)),
            (Weigh(1, 5), Err(NoSuchPlace)),
            (Level(2, 1), Err(NoSuchPlace)),
            (Count, Ok(5)),
            (Take(65_536), Err(ReadingTooGreat)),
            (Take(65_535), Ok(5)),
        ],
    );
}

#[test]
fn even_by_length(rt: HostRuntime) {
    let mut two = Even::new(2);
    follow(
        &rt,
        &mut two,
        &[
            (Top, Ok(261_121)),
            (Take(9), Ok(1)),
            (Take(0), Ok(2)),
            (Take(65_535), Ok(3)),
            (Take(65_536), Err(ReadingTooGreat)),
            (Take(7), Ok(4)),
            (Weigh(0, 1), Ok(1)),
            (Weigh(0, 2), Ok(0)),
            (Weigh(0, 4), Ok(4)),
            (Level(0, 4), Ok(0)),
            (Weigh(0, 5), Err(NoSuchPlace)),
            (Count, Ok(3)),
            (DropLast, Ok(3)),
            (Wipe, Ok(0)),
            (DropLast, Err(NothingHeld)),
        ],
    );
    let misfit = [
        (Top, Ok(0)),
        (Verdict(0), Err(Misfit)),
        (Take(70_000), Err(Misfit)),
        (DropLast, Err(NothingHeld)),
        (Weigh(0, 1), Err(NoSuchPlace)),
        (Wipe, Ok(0)),
        (Held, Ok(0)),
        (Take(0), Err(Misfit)),
    ];
    follow(&rt, &mut Even::new(0), &misfit);
    follow(&rt, &mut Even::new(513), &misfit);
    let fitting = [(Top, Ok(261_121)), (Verdict(0), Ok(0)), (Take(0), Ok(1))];
    follow(&rt, &mut Even::new(1), &fitting);
    let mut widest = Even::new(512);
    follow(&rt, &mut widest, &fitting);
    follow(&rt, &mut widest, &[(Weigh(0, 1), Ok(261_121))]);
}

// what every weighing answers that begins empty and takes small readings: equal ones, places that are no span, a take after a
// drop, a new start after a wipe, and readings about the greatest
const ALIKE: [(Step, Answer); 31] = [
    (Held, Ok(0)),
    (Count, Ok(0)),
    (DropLast, Err(NothingHeld)),
    (Take(4), Ok(1)),
    (Take(4), Ok(2)),
    (Weigh(1, 1), Err(NoSuchPlace)),
    (Weigh(2, 1), Err(NoSuchPlace)),
    (Weigh(0, 3), Err(NoSuchPlace)),
    (Weigh(2, 3), Err(NoSuchPlace)),
    (Level(1, 1), Err(NoSuchPlace)),
    (Level(2, 1), Err(NoSuchPlace)),
    (Level(0, 3), Err(NoSuchPlace)),
    (Level(2, 3), Err(NoSuchPlace)),
    (Count, Ok(0)),
    (DropLast, Ok(1)),
    (Weigh(0, 2), Err(NoSuchPlace)),
    (Level(0, 2), Err(NoSuchPlace)),
    (Take(5), Ok(2)),
    (DropLast, Ok(1)),
    (DropLast, Ok(0)),
    (DropLast, Err(NothingHeld)),
    (Take(9), Ok(1)),
    (Wipe, Ok(0)),
    (Weigh(0, 1), Err(NoSuchPlace)),
    (Level(0, 1), Err(NoSuchPlace)),
    (Take(0), Ok(1)),
    (Level(0, 1), Ok(0)),
    (Verdict(65_535), Ok(0)),
    (Verdict(65_536), Err(ReadingTooGreat)),
    (Take(65_536), Err(ReadingTooGreat)),
    (Take(65_535), Ok(2)),
];

// what those answer besides whose readings never fall
const NEVER_FALLING: [(Step, Answer); 7] = [
    (Verdict(65_534), Err(ReadingFalls)),
    (Take(65_534), Err(ReadingFalls)),
    (Level(1, 2), Ok(65_535)),
    (Level(0, 2), Ok(65_535)),
    (DropLast, Ok(1)),
    (Take(65_534), Ok(2)),
    (Take(65_533), Err(ReadingFalls)),
];

fn follow_never_falling<W: Weighing>(rt: &impl Abort, w: &mut W) {
    follow(rt, w, &ALIKE);
    follow(rt, w, &NEVER_FALLING);
}

#[test]
fn alike_in_every_weighing(rt: HostRuntime) {
    follow(&rt, &mut Even::new(2), &ALIKE);
    follow(&rt, &mut Charge::new(Even::new(2), 10), &ALIKE);
    follow_never_falling(&rt, &mut Ceiling::new());
    follow_never_falling(&rt, &mut Middle::new());
    follow_never_falling(&rt, &mut Charge::new(Middle::new(), 0));
    follow_never_falling(&rt, &mut Pair::new(Ceiling::new(), Even::new(2)));
}

#[test]
fn greatest_weights(rt: HostRuntime) {
    // all below the last; half at either end
    let mut ceiling = Ceiling::new();
    fill(&rt, &mut ceiling, 511, 0);
    fill(&rt, &mut ceiling, 1, 65_535);
    follow(
        &rt,
        &mut ceiling,
        &[
            (Weigh(0, 512), Ok(33_488_385)),
            (Weigh(0, 511), Ok(0)),
            (Weigh(511, 512), Ok(0)),
            (Weigh(512, 512), Err(NoSuchPlace)),
            (Weigh(0, 513), Err(NoSuchPlace)),
        ],
    );
    let mut middle = Middle::new();
    fill(&rt, &mut middle, 256, 0);
    fill(&rt, &mut middle, 256, 65_535);
    follow(
        &rt,
        &mut middle,
        &[
            (Weigh(0, 512), Ok(16_776_960)),
            (Level(0, 512), Ok(65_535)),
            (Level(0, 511), Ok(0)),
            (Weigh(0, 511), Ok(16_711_425)),
        ],
    );
}

// fills it with readings of one size, to the last that it holds
fn fill_up<W: Weighing>(rt: &impl Abort, w: &mut W, weight: u64, level: u64) {
    fill(rt, w, 511, 7);
    follow(
        rt,
        w,
        &[
            (Held, Ok(511)),
            (Take(7), Ok(512)),
            (Verdict(7), Err(Full)),
            (Take(7), Err(Full)),
            (Take(65_536), Err(Full)),
            (Take(0), Err(Full)),
            (Held, Ok(512)),
            (Weigh(0, 513), Err(NoSuchPlace)),
            (DropLast, Ok(511)),
            (Take(7), Ok(512)),
            (Weigh(0, 512), Ok(weight)),
            (Level(0, 512), Ok(level)),
        ],
    );
}

#[test]
fn full_at_512(rt: HostRuntime) {
    fill_up(&rt, &mut Ceiling::new(), 0, 7);
    fill_up(&rt, &mut Middle::new(), 0, 7);
    fill_up(&rt, &mut Even::new(1), 261_121, 0);
}

#[test]
fn charge_to_its_limits(rt: HostRuntime) {
    let mut held = Ceiling::new();
    fill(&rt, &mut held, 2, 3);
    let mut most = Charge::new(held, GREATEST_CHARGE);
    follow(
        &rt,
        &mut most,
        &[
            (Held, Ok(2)),
            (Top, Ok(301_989_376)),
            (Take(2), Err(ReadingFalls)),
            (Take(5), Ok(3)),
            (Weigh(0, 3), Ok(268_435_460)),
            (Level(0, 3), Ok(5)),
            (Weigh(0, 4), Err(NoSuchPlace)),
            (Count, Ok(1)),
            (DropLast, Ok(2)),
            (Wipe, Ok(0)),
            (DropLast, Err(NothingHeld)),
        ],
    );
    let mut brought = Ceiling::new();
    fill(&rt, &mut brought, 2, 3);
    let mut misfit = Charge::new(brought, GREATEST_CHARGE + 1);
    follow(
        &rt,
        &mut misfit,
        &[
            (Held, Ok(0)),
            (Top, Ok(0)),
            (Verdict(3), Err(Misfit)),
            (Take(70_000), Err(Misfit)),
            (DropLast, Err(NothingHeld)),
            (Weigh(0, 1), Err(NoSuchPlace)),
            (Level(0, 1), Err(NoSuchPlace)),
            (Wipe, Ok(0)),
            (Take(3), Err(Misfit)),
            (Count, Ok(0)),
        ],
    );
}

#[test]
fn charges_over_a_pair_to_the_top(rt: HostRuntime) {
    // the first's top is 2^29 - 1 and the second's 2^27 - 1
    let first = Charge::new(Charge::new(Ceiling::new(), GREATEST_CHARGE), 234_881_535);
    let second = Charge::new(Even::new(2), 133_956_606);
    let mut pair = Pair::new(first, second);
    follow(
        &rt,
        &mut pair,
        &[
            (Top, Ok(576_460_751_363_899_391)),
            (Take(4), Ok(1)),
            (Weigh(0, 1), Ok(540_432_504_100_488_191)),
        ],
    );
    let thrice = Charge::new(
        Charge::new(Charge::new(pair, GREATEST_CHARGE), GREATEST_CHARGE),
        GREATEST_CHARGE,
    );
    let mut most = Charge::new(thrice, 134_217_728);
    follow(
        &rt,
        &mut most,
        &[
            (Top, Ok(GREATEST_TOP)),
            (Held, Ok(1)),
            (Take(3), Err(ReadingFalls)),
            (Take(4), Ok(2)),
        ],
    );
    let mut past = Charge::new(most, 1);
    follow(
        &rt,
        &mut past,
        &[
            (Top, Ok(0)),
            (Held, Ok(0)),
            (Take(4), Err(Misfit)),
            (Wipe, Ok(0)),
        ],
    );
    let first = Charge::new(Charge::new(Ceiling::new(), GREATEST_CHARGE), 234_881_536);
    follow(
        &rt,
        &mut Pair::new(first, Even::new(2)),
        &[(Top, Ok(0)), (Take(4), Err(Misfit))],
    );
    let second = Charge::new(Even::new(2), 133_956_607);
    follow(
        &rt,
        &mut Pair::new(Ceiling::new(), second),
        &[(Top, Ok(0)), (Take(4), Err(Misfit))],
    );
}

#[test]
fn pair_moves_together(rt: HostRuntime) {
    let mut pair = Pair::new(Ceiling::new(), Even::new(2));
    follow(
        &rt,
        &mut pair,
        &[
            (Top, Ok(36_028_247_263_411_201)),
            (Take(2), Ok(1)),
            (Take(1), Err(ReadingFalls)),
            (Take(65_536), Err(ReadingTooGreat)),
            (Take(3), Ok(2)),
            (Take(3), Ok(3)),
            (Weigh(0, 2), Ok(1_073_741_824)),
            (Weigh(0, 3), Ok(1_073_741_825)),
            (Level(0, 3), Ok(3)),
            (Weigh(1, 4), Err(NoSuchPlace)),
            (Count, Ok(2)),
            (DropLast, Ok(2)),
            (Take(8), Ok(3)),
            (Wipe, Ok(0)),
            (DropLast, Err(NothingHeld)),
            (Take(0), Ok(1)),
        ],
    );
    let mut ahead = Middle::new();
    fill(&rt, &mut ahead, 1, 6);
    let mut misfit = Pair::new(ahead, Even::new(2));
    follow(
        &rt,
        &mut misfit,
        &[
            (Held, Ok(0)),
            (Top, Ok(0)),
            (Take(70_000), Err(Misfit)),
            (DropLast, Err(NothingHeld)),
            (Weigh(0, 1), Err(NoSuchPlace)),
            (Level(0, 1), Err(NoSuchPlace)),
            (Wipe, Ok(0)),
            (Verdict(6), Err(Misfit)),
        ],
    );
    // the second's verdict, where the first has none
    let mut short = Pair::new(Even::new(1), Stairs::new(0));
    fill(&rt, &mut short, 4, 0);
    follow(
        &rt,
        &mut short,
        &[
            (Take(0), Err(Full)),
            (Held, Ok(4)),
            (Weigh(0, 4), Ok(9_663_676_425)),
        ],
    );
}

#[test]
fn a_weighing_from_outside(rt: HostRuntime) {
    let mut stairs = Stairs::new(GREATEST_COUNT - 1);
    fill(&rt, &mut stairs, 4, 70_000);
    follow(
        &rt,
        &mut stairs,
        &[
            (Weigh(0, 4), Ok(9)),
            (Count, Ok(GREATEST_COUNT)),
            (Weigh(1, 4), Ok(4)),
            (Count, Ok(GREATEST_COUNT)),
            (Take(0), Err(Full)),
        ],
    );
    let mut charged = Charge::new(stairs, 10);
    follow(
        &rt,
        &mut charged,
        &[
            (Top, Ok(19)),
            (Weigh(0, 2), Ok(11)),
            (Count, Ok(GREATEST_COUNT)),
            (DropLast, Ok(3)),
        ],
    );
    let mut pair = Pair::new(charged, Stairs::new(0));
    follow(&rt, &mut pair, &[(Top, Ok(0)), (Take(1), Err(Misfit))]);
    let mut both = Pair::new(Charge::new(Stairs::new(0), 10), Stairs::new(5));
    follow(
        &rt,
        &mut both,
        &[
            (Take(1), Ok(1)),
            (Take(1), Ok(2)),
            (Weigh(0, 2), Ok(11_811_160_065)),
            (Count, Ok(1)),
        ],
    );
}
