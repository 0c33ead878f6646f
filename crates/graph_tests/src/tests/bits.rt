//! Rows and sets by hand, and matrices that are drawn against an elimination on words.
use std::alloc::{AllocError, Global};
use std::process::Abort;
use zx_bits::{BitMatrix, BitRow, BitSet, Solved, solve};

fn flip(rt: &impl Abort, row: &mut BitRow, place: usize) {
    assert!(rt; place < row.len());
    row.flip(place);
}

fn get(rt: &impl Abort, row: &BitRow, place: usize) -> bool {
    assert!(rt; place < row.len());
    row.get(place)
}

// Negates the bits at these places.
fn flip_each(rt: &impl Abort, row: &mut BitRow, places: &[usize]) {
    for place in places {
        flip(rt, row, *place);
    }
}

// Whether just these bits are set, which rise: each is the first from the one before and from itself.
fn has_set(row: &BitRow, places: &[usize]) -> bool {
    let mut start = 0;
    for place in places {
        if row.bit_from(start) != Some(*place) || row.bit_from(*place) != Some(*place) {
            return false;
        }
        start = place.saturating_add(1);
    }
    row.bit_from(start).is_none()
}

// Negates bits of a row of 301, of which the first is set.
fn negate(rt: &impl Abort, row: &mut BitRow) {
    flip_each(rt, row, &[0, 200, 300, 63, 191]);
    assert!(rt; has_set(row, &[63, 191, 200, 300]));
    flip(rt, row, 300);
    assert!(rt; has_set(row, &[63, 191, 200]));
    assert!(rt; row.bit_from(127) == Some(191));
}

// Grows a row of one bit, and negates bits of it.
fn grow(rt: &impl Abort, row: &mut BitRow) -> Result<(), AllocError> {
    flip(rt, row, 0);
    assert!(rt; row.len() < 2);
    row.grow(300)?;
    assert!(rt; row.len() == 301);
    assert!(rt; get(rt, row, 0) && !get(rt, row, 300));
    negate(rt, row);
    Ok(())
}

#[test]
fn a_row_grows_both_ways(rt: HostRuntime) -> Result<(), AllocError> {
    grow(&rt, &mut BitRow::new(rt.alloc(), 1)?)
}

// Adds a row to another one.
fn add(rt: &impl Abort, row: &mut BitRow, other: &BitRow) {
    assert!(rt; row.len() == other.len());
    row.xor(other);
}

// Whether an odd number of places are set in both rows.
fn has_parity(rt: &impl Abort, row: &BitRow, other: &BitRow) -> bool {
    assert!(rt; row.len() == other.len());
    row.parity_with(other)
}

// Adds the second of two rows to the first, and then the first to the second.
fn add_both(rt: &impl Abort, left: &mut BitRow, right: &mut BitRow) {
    assert!(rt; has_parity(rt, left, right));
    add(rt, left, right);
    assert!(rt; has_set(left, &[3, 639]));
    add(rt, right, left);
    assert!(rt; has_set(right, &[500, 639]));
    assert!(rt; has_parity(rt, left, right));
    assert!(rt; !has_parity(rt, right, right));
}

// Sets bits of a row without any and of another one, and adds them.
fn set_and_add(rt: &impl Abort, alloc: Global, left: &mut BitRow) -> Result<(), AllocError> {
    let mut right = BitRow::new(alloc, left.len())?;
    flip_each(rt, left, &[500, 639]);
    flip_each(rt, &mut right, &[3, 500]);
    add_both(rt, left, &mut right);
    Ok(())
}

#[test]
fn rows_add_at_two_offsets(rt: HostRuntime) -> Result<(), AllocError> {
    set_and_add(&rt, rt.alloc(), &mut BitRow::new(rt.alloc(), 640)?)
}

// Toggles these numbers.
fn toggle_each(set: &mut BitSet, numbers: &[usize]) -> Result<(), AllocError> {
    for number in numbers {
        set.toggle(*number)?;
    }
    Ok(())
}

// Whether a set has just these numbers, which rise.
fn has_just(set: &BitSet, numbers: &[usize]) -> bool {
    let mut start = 0;
    for number in numbers {
        if set.first_from(start) != Some(*number) || !set.contains(*number) {
            return false;
        }
        start = number.saturating_add(1);
    }
    set.first_from(start).is_none() && set.len() == numbers.len()
}

// Toggles numbers; whether just these are in the set then.
fn toggles_to(set: &mut BitSet, numbers: &[usize], left: &[usize]) -> Result<bool, AllocError> {
    toggle_each(set, numbers)?;
    Ok(has_just(set, left))
}

// Whether none of these numbers is in a set.
fn has_none(set: &BitSet, numbers: &[usize]) -> bool {
    for number in numbers {
        if set.contains(*number) {
            return false;
        }
    }
    true
}

fn remove_each(set: &mut BitSet, numbers: &[usize]) {
    for number in numbers {
        set.remove(*number);
    }
}

// Takes these numbers out of a set, and a great one in.
fn take_out(rt: &impl Abort, set: &mut BitSet) -> Result<(), AllocError> {
    assert!(rt; has_just(set, &[0, 63, 64, 300]));
    remove_each(set, &[0, 300, 5]);
    assert!(rt; has_just(set, &[63, 64]));
    assert!(rt; toggles_to(set, &[63, 64], &[])?);
    assert!(rt; toggles_to(set, &[100_000], &[100_000])?);
    Ok(())
}

// Takes numbers into a set without any, and out again.
fn take(rt: &impl Abort, set: &mut BitSet) -> Result<(), AllocError> {
    assert!(rt; has_just(set, &[]));
    assert!(rt; toggles_to(set, &[127, 0, 300, 64, 63], &[0, 63, 64, 127, 300])?);
    assert!(rt; has_none(set, &[1, 128, 100_000]));
    assert!(rt; set.first_from(65) == Some(127));
    assert!(rt; set.first_from(128) == Some(300));
    toggle_each(set, &[127])?;
    take_out(rt, set)
}

#[test]
fn a_set_takes_numbers_in_and_out(rt: HostRuntime) -> Result<(), AllocError> {
    take(&rt, &mut BitSet::new(rt.alloc()))
}

const GREATEST: usize = usize::MAX - 64;

// Takes the greatest number, and then the least and the greatest of those that are too great.
fn take_greatest(rt: &impl Abort, numbers: &mut BitSet) -> Result<(), AllocError> {
    numbers.toggle(GREATEST)?;
    for number in &[GREATEST + 1, usize::MAX] {
        assert!(rt; numbers.toggle(*number).is_err());
    }
    assert!(rt; has_just(numbers, &[GREATEST]));
    Ok(())
}

#[test]
fn the_greatest_numbers_are_refused(rt: HostRuntime) -> Result<(), AllocError> {
    take_greatest(&rt, &mut BitSet::new(rt.alloc()))
}

// Takes room, and a number for which there is room.
fn take_room(rt: &impl Abort, numbers: &mut BitSet) -> Result<(), AllocError> {
    numbers.reserve(1000)?;
    numbers.toggle(999)?;
    assert!(rt; has_just(numbers, &[999]));
    Ok(())
}

#[test]
fn a_set_takes_room(rt: HostRuntime) -> Result<(), AllocError> {
    take_room(&rt, &mut BitSet::new(rt.alloc()))
}

// A set of these numbers.
fn set_of(alloc: Global, numbers: &[usize]) -> Result<BitSet, AllocError> {
    let mut set = BitSet::new(alloc);
    toggle_each(&mut set, numbers)?;
    Ok(set)
}

// Adds a set of these numbers to a set.
fn add_numbers(alloc: Global, set: &mut BitSet, numbers: &[usize]) -> Result<(), AllocError> {
    let other = set_of(alloc, numbers)?;
    set.xor(&other)
}

// Whether the sum of sets of these numbers has those.
fn adds_to(
    alloc: Global,
    numbers: &[usize],
    others: &[usize],
    sum: &[usize],
) -> Result<bool, AllocError> {
    let mut set = set_of(alloc, numbers)?;
    add_numbers(alloc, &mut set, others)?;
    Ok(has_just(&set, sum))
}

#[test]
fn sets_add(rt: HostRuntime) -> Result<(), AllocError> {
    let left = [3, 64, 300];
    let right = [64, 127, 300, 700];
    assert!(rt; adds_to(rt.alloc(), &left, &right, &[3, 127, 700])?);
    assert!(rt; adds_to(rt.alloc(), &[3, 700], &[700, 3], &[])?);
    Ok(())
}

fn is_same_as_copy(set: &BitSet) -> Result<bool, AllocError> {
    let copy = set.clone()?;
    Ok(set.is_same(&copy))
}

// Compares a set of 3, 64 and 300 with one that has two of them, and with its copy.
fn compare(rt: &impl Abort, alloc: Global, set: &BitSet) -> Result<(), AllocError> {
    assert!(rt; is_same_as_copy(set)?);
    let other = set_of(alloc, &[64, 127, 300, 700])?;
    assert!(rt; set.common_with(&other) == 2 && !set.is_same(&other));
    Ok(())
}

#[test]
fn sets_are_compared(rt: HostRuntime) -> Result<(), AllocError> {
    compare(&rt, rt.alloc(), &set_of(rt.alloc(), &[3, 64, 300])?)
}

// The bit of a word at a place.
fn is_set(rt: &impl Abort, word: u64, place: usize) -> bool {
    assert!(rt; place < 64);
    word >> place & 1 == 1
}

// Adds rows to a matrix: the low bits of words.
fn add_rows(rt: &impl Abort, m: &mut BitMatrix, words: &[u64]) -> Result<(), AllocError> {
    m.reserve(words.len())?;
    for (r, word) in words.iter().enumerate() {
        m.push_row()?;
        for c in 0..m.columns() {
            if is_set(rt, *word, c) {
                assert!(rt; r < m.height() && c < m.columns());
                m.flip(r, c);
            }
        }
    }
    Ok(())
}

// Adds the low bits of a word to a row.
fn add_bits(rt: &impl Abort, row: &mut BitRow, word: u64) {
    for c in 0..row.len() {
        if is_set(rt, word, c) {
            flip(rt, row, c);
        }
    }
}

// The word whose low bits are those of a row.
fn word_of(rt: &impl Abort, row: &BitRow) -> u64 {
    let mut word = 0;
    for place in 0..row.len() {
        assert!(rt; place < 64);
        if get(rt, row, place) {
            word |= 1 << place;
        }
    }
    word
}

// The sum of the words whose bit is set.
fn sum(rt: &impl Abort, words: &[u64], set: u64) -> u64 {
    let mut sum = 0;
    for (r, word) in words.iter().enumerate() {
        if is_set(rt, set, r) {
            sum ^= *word;
        }
    }
    sum
}

// Whether some of the words sum to the target: each is kept if it isn't a sum of those kept.
fn has_sum(alloc: Global, words: &[u64], target: u64) -> Result<bool, AllocError> {
    let mut kept: Vec<u64> = Vec::new(alloc);
    for word in words {
        let left = least(&kept, *word);
        if left != 0 {
            kept.push(left)?;
        }
    }
    Ok(least(&kept, target) == 0)
}

// Each word is added that makes it less.
fn least(kept: &[u64], word: u64) -> u64 {
    let mut left = word;
    for other in kept {
        left = left.min(left ^ *other);
    }
    left
}

// An answer as a word.
#[derive(Clone, Copy)]
enum Answer {
    Rows(u64),
    None(u64),
}

fn answer_of(rt: &impl Abort, solved: &Solved) -> Answer {
    match solved {
        Solved::Rows(set) => Answer::Rows(word_of(rt, set)),
        Solved::None(dual) => Answer::None(word_of(rt, dual)),
    }
}

// What is answered where a matrix gets these rows, and a row these bits.
fn answered(
    rt: &impl Abort,
    alloc: Global,
    m: &mut BitMatrix,
    goal: &mut BitRow,
    words: &[u64],
    target: u64,
) -> Result<Answer, AllocError> {
    add_rows(rt, m, words)?;
    add_bits(rt, goal, target);
    assert!(rt; goal.len() == m.columns());
    let found = solve(alloc, m, goal)?;
    Ok(answer_of(rt, &found))
}

// What is answered of a matrix with so many columns.
fn solved(
    rt: &impl Abort,
    alloc: Global,
    columns: usize,
    words: &[u64],
    target: u64,
) -> Result<Answer, AllocError> {
    let mut goal = BitRow::new(alloc, columns)?;
    let mut m = BitMatrix::new(alloc, columns);
    answered(rt, alloc, &mut m, &mut goal, words, target)
}

fn has_odd_parity(word: u64) -> bool {
    word.count_ones() % 2 == 1
}

// Whether these words sum to the target, and no part of them does.
fn is_least_sum(rt: &impl Abort, words: &[u64], set: u64, target: u64) -> bool {
    for part in 0..set {
        if part & set == part && sum(rt, words, part) == target {
            return false;
        }
    }
    sum(rt, words, set) == target
}

// Whether each word has an even number of these places, and the target an odd one.
fn is_dual(words: &[u64], dual: u64, target: u64) -> bool {
    for word in words {
        if has_odd_parity(*word & dual) {
            return false;
        }
    }
    has_odd_parity(target & dual)
}

// Both answers, checked on words.
fn is_right(rt: &impl Abort, words: &[u64], target: u64, answer: Answer, is_sum: bool) -> bool {
    match answer {
        Answer::Rows(set) => is_sum && is_least_sum(rt, words, set, target),
        Answer::None(dual) => !is_sum && is_dual(words, dual, target),
    }
}

// What is answered of a matrix with so many columns is right.
fn check(
    rt: &impl Abort,
    alloc: Global,
    columns: usize,
    words: &[u64],
    target: u64,
) -> Result<(), AllocError> {
    let is_sum = has_sum(alloc, words, target)?;
    let answer = solved(rt, alloc, columns, words, target)?;
    assert!(rt; is_right(rt, words, target, answer, is_sum));
    Ok(())
}

// Numbers of columns, rows, and what they are to sum to.
const SUMS: [(usize, &[u64], u64); 4] = [
    (2, &[1, 2, 2, 3], 1),
    (2, &[2, 2], 1),
    (3, &[], 0),
    (3, &[], 5),
];

#[test]
fn a_least_set_sums_to_the_target(rt: HostRuntime) -> Result<(), AllocError> {
    for (columns, words, target) in &SUMS {
        check(&rt, rt.alloc(), *columns, words, *target)?;
    }
    Ok(())
}

// Of the rows {0, 1}, {1, 2} and {0, 2} none sum to {0}: each has two places of {0, 1, 2}, and {0}
// has one. The third is {0, 2}, and so is the sum of the others.
#[test]
fn rows_of_two_places_have_even_sums(rt: HostRuntime) -> Result<(), AllocError> {
    for target in &[1, 5] {
        check(&rt, rt.alloc(), 3, &[3, 6, 5], *target)?;
    }
    Ok(())
}

// Adds the third of three rows on two columns to a row, which has these bits then.
fn add_third(rt: &impl Abort, m: &mut BitMatrix, to: usize, first: bool, second: bool) {
    assert!(rt; m.height() == 3 && m.columns() == 2 && to < 3);
    m.add_row(2, to);
    assert!(rt; m.height() == 3 && m.columns() == 2);
    assert!(rt; m.get(to, 0) == first && m.get(to, 1) == second);
}

// Adds the third of three rows to the first, and to itself.
fn add_rows_of(rt: &impl Abort, m: &mut BitMatrix) -> Result<(), AllocError> {
    add_rows(rt, m, &[1, 2, 3])?;
    add_third(rt, m, 0, false, true);
    add_third(rt, m, 2, false, false);
    Ok(())
}

#[test]
fn rows_of_a_matrix_add(rt: HostRuntime) -> Result<(), AllocError> {
    add_rows_of(&rt, &mut BitMatrix::new(rt.alloc(), 2))
}

#[test]
fn drawn_matrices(rt: HostRuntime) -> Result<(), AllocError> {
    let mut state: u64 = 20;
    for _ in 0..1000 {
        let mut words = [0; 6];
        for word in words.iter_mut() {
            state = state
                .wrapping_mul(6364136223846793005)
                .wrapping_add(1442695040888963407);
            *word = state >> 58;
        }
        state = state
            .wrapping_mul(6364136223846793005)
            .wrapping_add(1442695040888963407);
        check(&rt, rt.alloc(), 6, &words, state >> 58)?;
    }
    Ok(())
}
