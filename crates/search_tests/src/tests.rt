//! The cases: strips of every kind against a plain scan, lists of every length, refusals, and the ledger's end.
use crate::blocks::{Blocks, Shape};
use crate::caller::least_in_row;
use refusal::Refusal;
use search::search;
use search::sheet::Sheet;
use search::strip::Strip;
use std::alloc::{AllocError, Global};
use std::process::Abort;
use std::test::Fail;

// What stands in a list before a search: no column has this number, and no count comes so far.
const UNTOUCHED: usize = 77_777;

const SQUARED_GAP: Shape = Shape {
    rows: 9,
    columns: 7,
    tall: 1,
    wide: 1,
};

const PAIRS_LEVEL: Shape = Shape {
    rows: 40,
    columns: 33,
    tall: 1,
    wide: 2,
};

const ALL_LEVEL: Shape = Shape {
    rows: 30,
    columns: 50,
    tall: 512,
    wide: 1023,
};

const LARGEST: Shape = Shape {
    rows: 512,
    columns: 1023,
    tall: 1,
    wide: 1,
};

const LARGEST_IN_PAIRS: Shape = Shape { wide: 2, ..LARGEST };

const LARGEST_LEVEL: Shape = Shape {
    tall: 512,
    wide: 1023,
    ..LARGEST
};

const TALL_BLOCKS: Shape = Shape {
    rows: 100,
    columns: 60,
    tall: 7,
    wide: 3,
};

const NOTHING: Shape = Shape {
    rows: 0,
    columns: 0,
    tall: 1,
    wide: 1,
};

// A strip as four numbers: its first row, its rows, its first column, its columns.
type Sides = [usize; 4];

const STRIPS: [(Shape, Sides); 18] = [
    (SQUARED_GAP, [0, 1, 0, 1]),
    (SQUARED_GAP, [8, 1, 6, 1]),
    (SQUARED_GAP, [3, 1, 0, 7]),
    (SQUARED_GAP, [0, 9, 4, 1]),
    (SQUARED_GAP, [0, 9, 0, 7]),
    (SQUARED_GAP, [2, 5, 1, 4]),
    (SQUARED_GAP, [7, 2, 1, 6]),
    (PAIRS_LEVEL, [0, 40, 0, 33]),
    (PAIRS_LEVEL, [3, 11, 5, 20]),
    (PAIRS_LEVEL, [1, 3, 1, 32]),
    (ALL_LEVEL, [0, 30, 0, 50]),
    (ALL_LEVEL, [4, 13, 9, 17]),
    (TALL_BLOCKS, [0, 100, 0, 60]),
    (TALL_BLOCKS, [36, 63, 2, 31]),
    (LARGEST, [0, 512, 0, 1023]),
    (LARGEST_IN_PAIRS, [0, 512, 0, 1023]),
    (LARGEST_LEVEL, [0, 512, 0, 1023]),
    (LARGEST, [1, 511, 511, 512]),
];

// Strips that do not lie in a sheet of 9 rows and 7 columns.
const WRONG_STRIPS: [Sides; 18] = [
    [0, 0, 0, 7],
    [0, 9, 0, 0],
    [0, 0, 0, 0],
    [9, 0, 7, 0],
    [0, 10, 0, 7],
    [0, 9, 0, 8],
    [1, 9, 0, 7],
    [0, 9, 1, 7],
    [9, 1, 0, 7],
    [0, 9, 7, 1],
    [usize::MAX, 1, 0, 7],
    [0, usize::MAX, 0, 7],
    [0, 9, usize::MAX, 1],
    [0, 9, 0, usize::MAX],
    [usize::MAX, 2, 0, 7],
    [2, usize::MAX, 0, 7],
    [0, 9, 2, usize::MAX],
    [usize::MAX, usize::MAX, usize::MAX, usize::MAX],
];

// `Strip` and the array are both of other crates, so this is no `From`.
fn strip_of(sides: Sides) -> Strip {
    let [row, rows, column, columns] = sides;
    Strip {
        row,
        rows,
        column,
        columns,
    }
}

/// A search of a strip over lists of so many places.
#[derive(Clone, Copy)]
struct Case {
    shape: Shape,
    strip: Strip,
    answers: usize,
    work: usize,
}

/// A case tried with lists that nothing was written to, and how far the ledger rose.
#[derive(Drop)]
struct Trial {
    sheet: Blocks,
    answer: Result<u64, Refusal>,
    risen: u64,
    answers: Vec<usize>,
    work: Vec<usize>,
}

impl Case {
    /// Over lists that have so many places more than are needed.
    fn with_spare(shape: Shape, sides: Sides, spare: usize) -> Case {
        let strip = strip_of(sides);
        Case {
            shape,
            strip,
            answers: strip.rows.saturating_add(spare),
            work: strip.rows.saturating_mul(4).saturating_add(spare),
        }
    }

    fn tried(self, heap: Global, ledger: u64) -> Result<Trial, AllocError> {
        let mut sheet = Blocks::new(self.shape, ledger);
        let mut answers = vec![in heap; UNTOUCHED; self.answers]?;
        let mut work = vec![in heap; UNTOUCHED; self.work]?;
        let before = sheet.ledger();
        let answer = search(
            &mut sheet,
            self.strip,
            answers.as_mut_slice(),
            work.as_mut_slice(),
        );
        let risen = sheet.ledger().wrapping_sub(before);
        Ok(Trial {
            sheet,
            answer,
            risen,
            answers,
            work,
        })
    }

    /// Tries a search that has to be answered.
    fn answered(self, rt: &impl Abort, heap: Global) -> Result<(), Fail> {
        let Strip {
            row,
            rows,
            columns,
            ..
        } = self.strip;
        assert!(rt; row <= 512 && rows <= 512 && columns <= 1023);
        let mut done = self.tried(heap, 0)?;
        let told = done.answer?;
        assert_eq!(rt; told, done.risen);
        assert!(rt; told <= (4 * columns + 12 * rows) as u64);
        assert!(rt; untouched(&done.answers, rows), "answers past the last row");
        assert!(rt;
            untouched(&done.work, 4 * rows),
            "work past four places a row"
        );
        for (row, answer) in (row..row + rows).zip(&done.answers) {
            assert_eq!(rt; *answer, scanned(&mut done.sheet, self.strip, row)?);
        }
        Ok(())
    }

    /// Tries a search that has to be refused, with nothing written and nothing read.
    fn refused(self, rt: &impl Abort, heap: Global, why: Refusal) -> Result<(), Fail> {
        let done = self.tried(heap, 5)?;
        assert_eq!(rt; done.answer, Err(why));
        assert_eq!(rt; done.risen, 0);
        assert!(rt; untouched(&done.answers, 0), "answers of a refused search");
        assert!(rt; untouched(&done.work, 0), "work of a refused search");
        Ok(())
    }
}

/// Whether nothing was written to a list from a place on.
fn untouched(list: &[usize], from: usize) -> bool {
    list.iter().skip(from).all(|place| *place == UNTOUCHED)
}

/// The leftmost least column of a row of a strip, by a plain scan of all its columns.
fn scanned(sheet: &mut Blocks, strip: Strip, row: usize) -> Result<usize, Refusal> {
    let mut best = strip.column;
    let mut least = sheet.entry(row, best)?;
    for column in strip.column..strip.column.saturating_add(strip.columns) {
        let here = sheet.entry(row, column)?;
        if <Blocks as Sheet>::precedes(&here, &least) {
            best = column;
            least = here;
        }
    }
    Ok(best)
}

#[test]
fn strips_agree_with_a_plain_scan(rt: HostRuntime) -> Result<(), Fail> {
    for (shape, sides) in STRIPS {
        Case::with_spare(shape, sides, 0).answered(&rt, rt.alloc())?;
        Case::with_spare(shape, sides, 3).answered(&rt, rt.alloc())?;
    }
    Ok(())
}

#[test]
fn answers_known_by_hand(rt: HostRuntime) -> Result<(), Fail> {
    let gaps = Case::with_spare(SQUARED_GAP, [0, 9, 0, 7], 0).tried(rt.alloc(), 0)?;
    assert!(rt; gaps.answers.as_slice() == [0, 1, 2, 3, 4, 5, 6, 6, 6].as_slice());
    let pairs = Case::with_spare(PAIRS_LEVEL, [2, 4, 5, 20], 0).tried(rt.alloc(), 0)?;
    assert!(rt; pairs.answers.as_slice() == [5, 6, 8, 10].as_slice());
    let level = Case::with_spare(ALL_LEVEL, [4, 5, 9, 17], 0).tried(rt.alloc(), 0)?;
    assert!(rt; level.answers.as_slice() == [9, 9, 9, 9, 9].as_slice());
    Ok(())
}

#[test]
fn wrong_strips_are_refused_before_short_lists(rt: HostRuntime) -> Result<(), Fail> {
    let lists = [
        (SQUARED_GAP, 20, 80),
        (SQUARED_GAP, 0, 0),
        (NOTHING, 20, 80),
    ];
    for sides in WRONG_STRIPS {
        for (shape, answers, work) in lists {
            let case = Case {
                shape,
                strip: strip_of(sides),
                answers,
                work,
            };
            case.refused(&rt, rt.alloc(), Refusal::WrongStrip)?;
        }
    }
    Case::with_spare(NOTHING, [0, 1, 0, 1], 0).refused(&rt, rt.alloc(), Refusal::WrongStrip)
}

#[test]
fn short_lists_are_refused(rt: HostRuntime) -> Result<(), Fail> {
    for (shape, sides) in STRIPS {
        let strip = strip_of(sides);
        let rows = strip.rows;
        assert!(rt; 0 < rows && rows <= 512);
        for (answers, work) in [(rows - 1, 4 * rows), (rows, 4 * rows - 1), (0, 0)] {
            let case = Case {
                shape,
                strip,
                answers,
                work,
            };
            case.refused(&rt, rt.alloc(), Refusal::ListTooShort)?;
        }
    }
    Ok(())
}

#[test]
fn a_full_ledger_rises_no_further(rt: HostRuntime) -> Result<(), Fail> {
    // written out: a value under test is not taken from the code
    let most = (1u64 << 63) - 1;
    for left in [0u64, 4] {
        let case = Case::with_spare(SQUARED_GAP, [0, 9, 0, 7], 0);
        let done = case.tried(rt.alloc(), most.saturating_sub(left))?;
        assert_eq!(rt; done.answer, Ok(left));
        assert_eq!(rt; done.sheet.ledger(), most);
        assert!(rt; done.answers.as_slice() == [0, 1, 2, 3, 4, 5, 6, 6, 6].as_slice());
    }
    Ok(())
}

#[test]
fn a_caller_needs_the_promise_alone(rt: HostRuntime) {
    let mut sheet = Blocks::new(PAIRS_LEVEL, 0);
    assert_eq!(rt; least_in_row(&mut sheet, 0), Ok(0));
    assert_eq!(rt; least_in_row(&mut sheet, 13), Ok(26));
    assert_eq!(rt; least_in_row(&mut sheet, 39), Ok(32));
    let read = sheet.ledger();
    assert_eq!(rt; least_in_row(&mut sheet, 40), Err(Refusal::WrongStrip));
    assert_eq!(rt;
        least_in_row(&mut sheet, usize::MAX),
        Err(Refusal::WrongStrip)
    );
    assert_eq!(rt; sheet.ledger(), read);
}
