//! Words, picks and walks of partition 54 under seed 42. The words are those that the demonstration
//! `pcg32-demo` of PCG's reference code in C prints for this seed and stream.
use super::*;

const HALF: u64 = 2147483648;

const WHOLE: u64 = 4294967296;

#[test]
fn words_are_those_of_the_reference_code_and_half_pick_row_1(rt: HostRuntime) {
    for (row, want, at_half) in [
        (0, 2707161783, false),
        (1, 2068313097, true),
        (2, 3122475824, false),
        (3, 2211639955, false),
        (4, 3215226955, false),
        (5, 3421331566, false),
    ] {
        assert_eq!(rt; word(42, 54, row), want, "the word of row {row}");
        assert_eq!(rt; picked(42, HALF, 54, row), at_half, "row {row} at half");
        assert!(rt; !picked(42, 0, 54, row), "row {row} at 0");
        assert!(rt; picked(42, WHOLE, 54, row), "row {row} at 2^32");
    }
}

#[test]
fn a_row_is_picked_above_its_word_alone(rt: HostRuntime) {
    for (threshold, want) in [
        (0, false),
        (2068313097, false),
        (2068313098, true),
        (WHOLE, true),
        (u64::MAX, true),
    ] {
        assert_eq!(rt;
            picked(42, threshold, 54, 1),
            want,
            "at threshold {threshold}"
        );
    }
}

#[test]
fn a_walk_leaves_out_rows_and_goes_on_row_by_row(rt: HostRuntime) {
    let mut walker = Walker::new(42, 54);
    assert_eq!(rt; walker.at(1), 2068313097);
    assert_eq!(rt; walker.at(4), 3215226955);
    assert_eq!(rt; walker.at(5), 3421331566);
    assert_eq!(rt; walker.at(u32::MAX), word(42, 54, u32::MAX));
}
