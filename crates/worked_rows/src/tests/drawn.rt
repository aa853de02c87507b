//! Elections of drawn ballots, the same each time.
use super::runs::{reader, run_over};
use super::support::{assert_leaves, request};
use std::alloc::Global;
use std::fmt::Write;
use std::process::Abort;

/// The next state of a linear congruential generator (Knuth's).
fn next_state(state: u64) -> u64 {
    state
        .wrapping_mul(6_364_136_223_846_793_005)
        .wrapping_add(1_442_695_040_888_963_407)
}

/// How voters choose among candidates.
#[derive(Clone, Copy)]
enum Sort {
    /// Each a quarter of them, drawn independently.
    Independent,
    /// All nearly the same.
    Alike,
    /// Each some that stand beside one another on a circle.
    Circle,
}

/// A voter's candidates, as bits of a word, by three numbers that were drawn.
fn chosen(sort: Sort, a: u64, b: u64, c: u64) -> u64 {
    match sort {
        Sort::Independent => a & b,
        Sort::Alike => 0xff00_ff0f ^ (a & b & c),
        Sort::Circle => {
            let mut bits = 0u64;
            for step in 0..(b >> 20) % 6 + 3 {
                let place = (a >> 20).wrapping_add(step) % 40;
                bits |= 1u64.wrapping_shl(place as u32);
            }
            bits
        }
    }
}

/// Adds a line of a ballot of the candidates from 1 to m whose bit is 1.
fn push_ballot(rt: &impl Abort, text: &mut String, m: u8, bits: u64) {
    let mut front = "1: {";
    for n in 1..=m {
        if bits.wrapping_shr(u32::from(n).wrapping_sub(1)) & 1 == 1 {
            write!(text, "{front}{n}").expect(rt, "memory");
            front = ",";
        }
    }
    let end = if front == "," { "}\n" } else { "1: {}\n" };
    text.push_str(end).expect(rt, "memory");
}

/// The beginning of a file of approvals of m candidates.
fn approvals_of(rt: &impl Abort, alloc: Global, m: u8) -> String {
    format!(in alloc; "# DATA TYPE: cat\n# NUMBER ALTERNATIVES: {m}\n").expect(rt, "memory")
}

/// The ballots of a thousand voters among 40 candidates.
fn thousand(rt: &impl Abort, alloc: Global, sort: Sort) -> String {
    let mut text = approvals_of(rt, alloc, 40);
    let mut state = 1u64;
    for _voter in 0..1000 {
        let a = next_state(state);
        let b = next_state(a);
        state = next_state(b);
        let bits = chosen(sort, a >> 24, b >> 24, state >> 24);
        push_ballot(rt, &mut text, 40, bits);
    }
    text
}

/// Asserts that a committee has every property.
fn assert_stable(rt: &impl Abort, alloc: Global, file: &str, committee: &str) {
    for property in ["jr", "pjr", "ejr", "ejrplus"] {
        let words = format!(in alloc; "check --property {property} --committee {committee}");
        let words = words.expect(rt, committee);
        assert_leaves(rt, alloc, words.as_str(), file.as_bytes(), b"holds\n");
    }
}

/// Committees of twenty whose value under `pav` no exchange of one member for one other candidate raises, found apart
/// from the program. They have every property (Aziz and others, The Complexity of Extended and Proportional Justified
/// Representation; Brill and Peters).
static STABLE: [(Sort, &str); 3] = [
    (
        Sort::Independent,
        "1,2,4,5,7,8,10,13,14,16,20,21,23,26,30,31,32,34,39,40",
    ),
    (
        Sort::Alike,
        "1,2,3,4,9,10,11,12,13,14,15,16,25,26,27,28,29,30,31,32",
    ),
    (
        Sort::Circle,
        "2,4,5,8,10,12,14,17,18,20,22,24,25,27,29,31,33,35,38,40",
    ),
];

#[test]
fn stable_committees(rt: HostRuntime) {
    for (sort, committee) in &STABLE {
        let file = thousand(&rt, rt.alloc(), *sort);
        assert_stable(&rt, rt.alloc(), file.as_str(), committee);
    }
}

/// A file of ballots. A candidate stands on a ballot if the first `bits` bits of the next state are 0.
fn by_chance(rt: &impl Abort, alloc: Global, m: u8, ballots: u32, bits: u32, seed: u64) -> String {
    let mut text = approvals_of(rt, alloc, m);
    let mut state = seed;
    for _ballot in 0..ballots {
        let mut word = 0u64;
        for n in 0..m {
            state = next_state(state);
            let is_chosen = state.leading_zeros() >= bits;
            word |= u64::from(is_chosen).wrapping_shl(u32::from(n));
        }
        push_ballot(rt, &mut text, m, word);
    }
    text
}

/// What elections of three by proportional approval voting leave over a file.
fn pav_of_three(rt: &impl Abort, alloc: Global, file: &str) -> String {
    let request = request(rt, alloc, "elect --rule pav --size 3");
    let ended = run_over(alloc, alloc, &request, reader(file.as_bytes()));
    let text = str::from_utf8(ended.out.taken()).expect(rt, "a text");
    String::from_str(alloc, text).expect(rt, "memory")
}

/// Asserts that some committee wins by proportional approval voting, and that all that do have every property.
fn assert_winners_stable(rt: &impl Abort, alloc: Global, file: &str) {
    let answer = pav_of_three(rt, alloc, file);
    let mut has_winner = false;
    // After the lines of the rule, the size and the score, and before the last.
    for line in answer.as_str().lines().skip(3) {
        if line != "end" {
            has_winner = true;
            assert_stable(rt, alloc, file, line);
        }
    }
    assert!(rt; has_winner, "some committee wins");
}

/// Committees that win by proportional approval voting have EJR+ (Brill and Peters), and with it all four properties.
#[test]
fn winners_of_pav_have_every_property(rt: HostRuntime) {
    for seed in 1..=4 {
        let file = by_chance(&rt, rt.alloc(), 64, 16, 3, seed);
        assert_winners_stable(&rt, rt.alloc(), file.as_str());
    }
}

/// The committee of sequential and of reverse sequential proportional approval voting.
const PROPORTIONAL: &str = "2,5,6,8,9,14,16,19,20,24,26,27,28,29,30,32,34,37,38,40\n";

/// The committees of sequential Chamberlin-Courant.
const COVERING: &str = "\
1,2,3,4,6,8,9,10,14,15,17,18,19,23,24,29,32,33,35,36
1,2,3,4,6,8,9,10,14,15,17,18,19,23,25,29,32,33,35,36
1,2,3,4,6,8,9,10,14,15,17,18,19,23,29,32,33,35,36,39
1,2,4,6,8,9,10,13,14,15,17,18,19,20,23,29,32,33,35,36
1,2,4,6,8,9,10,13,14,15,17,18,19,23,24,29,32,33,35,36
2,3,4,5,6,8,9,10,14,15,17,18,19,23,29,30,32,33,35,36
2,3,4,5,6,8,9,10,14,15,17,18,19,23,29,32,33,35,36,39
2,3,4,6,8,9,10,12,14,15,17,18,19,23,29,32,33,35,36,39
2,3,4,6,8,9,10,14,15,16,17,18,19,23,29,32,33,35,36,39
2,3,4,6,8,9,10,14,15,17,18,19,20,23,29,32,33,35,36,39
2,3,4,6,8,9,10,14,15,17,18,19,23,24,29,30,32,33,35,36
2,3,4,6,8,9,10,14,15,17,18,19,23,24,29,32,33,35,36,39
2,3,4,6,8,9,10,14,15,17,18,19,23,25,29,30,32,33,35,36
2,3,4,6,8,9,10,14,15,17,18,19,23,25,29,32,33,35,36,39
2,3,4,6,8,9,10,14,15,17,18,19,23,29,30,32,33,35,36,39
2,3,4,6,8,9,10,14,15,17,18,19,23,29,31,32,33,35,36,39
2,3,4,6,8,9,10,14,15,17,18,19,23,29,32,33,35,36,37,39
2,3,4,6,8,9,10,14,15,17,18,19,23,29,32,33,35,36,39,40
2,4,5,6,8,9,10,14,15,17,18,19,20,23,29,30,32,33,35,36
2,4,6,8,9,10,13,14,15,17,18,19,20,23,29,30,32,33,35,36
2,4,6,8,9,10,13,14,15,17,18,19,23,24,29,30,32,33,35,36
2,4,6,8,9,10,14,15,17,18,19,20,23,29,30,31,32,33,35,36
2,4,6,8,9,10,14,15,17,18,19,20,23,29,31,32,33,35,36,39
2,4,6,8,9,10,14,15,17,18,19,23,24,29,30,31,32,33,35,36
2,4,6,8,9,10,14,15,17,18,19,23,25,29,30,31,32,33,35,36
";

/// Sequential rules, and their committees of twenty over 5,000 different ballots. The committees were computed apart
/// from the program, by a script that takes the same ballots and follows each tied choice in exact arithmetic.
static SEQUENCES: [(&str, &str); 3] = [
    ("seqpav", PROPORTIONAL),
    ("seqcc", COVERING),
    ("revseqpav", PROPORTIONAL),
];

/// Asserts the committees of a sequential rule over a file.
fn assert_sequence(rt: &impl Abort, alloc: Global, file: &str, rule: &str, committees: &str) {
    let words = format!(in alloc; "elect --rule {rule} --size 20").expect(rt, rule);
    let answer = format!(in alloc; "rule {rule}\nsize 20\n{committees}end\n").expect(rt, rule);
    let (words, answer) = (words.as_str(), answer.as_bytes());
    assert_leaves(rt, alloc, words, file.as_bytes(), answer);
}

#[test]
fn sequences_over_many_ballots(rt: HostRuntime) {
    let ballots = by_chance(&rt, rt.alloc(), 40, 5000, 2, 1);
    for (rule, committees) in &SEQUENCES {
        assert_sequence(&rt, rt.alloc(), ballots.as_str(), rule, committees);
    }
}
