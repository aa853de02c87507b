//! Long lines, long files, and long answers.
use super::support::{THREE, assert_leaves};
use std::alloc::Global;
use std::fmt::Write;
use std::process::Abort;

/// A file of two candidates and 349,525 categories with a long line: its front, a number of times a part, and its end.
static FILES: [(&str, &str, u32, &str); 20] = [
    // Lines of 1,048,576 bytes, which are the longest.
    ("1: 1", ",{}", 349_524, "\n"),
    ("1: 1", ",{}", 349_524, "\r\n"),
    ("1: 1", ",{}", 349_524, ""),
    ("1:0", "000", 349_524, "1\n"),
    ("", "0", 1_000_000, "1: 1"),
    ("#   ", "a:b", 349_524, "\n1: 1\n"),
    ("1: 1\n#   ", "a:b", 349_524, "\n"),
    ("    ", " \t ", 349_524, "\n1: 1\n"),
    ("1: 1\n", " ", 1_048_576, "\r\n"),
    ("1: 1\n", " ", 1_048_576, "\r"),
    // Many lines.
    ("", "# X: y\n", 300_000, "1: 1\n"),
    // Lines of a byte more.
    ("10: 1", ",{}", 349_524, "\n"),
    ("10: 1", ",{}", 349_524, "\r\n"),
    ("10: 1", ",{}", 349_524, ""),
    ("abcde", "fgh", 349_524, "\n"),
    ("#    ", "a:b", 349_524, "\n1: 1\n"),
    ("1: 1\n#    ", "a:b", 349_524, "\n"),
    ("     ", " \t ", 349_524, "\n1: 1\n"),
    ("1: 1\n", " ", 1_048_576, "\r\r\n"),
    // A late line.
    ("", "\n", 123_452, "# NUMBER CATEGORIES: x"),
];

/// What elections of one seat leave over those files.
fn wanted(number: usize) -> &'static [u8] {
    match number {
        0..=10 => b"rule av\nsize 1\nscore 1/1\n1\nend\n",
        16 | 18 => b"committees: input line 5: LongLine\n",
        19 => b"committees: input line 123456: BadNumber\n",
        _ => b"committees: input line 4: LongLine\n",
    }
}

/// The bytes of a file with a long line.
fn long_file(
    rt: &impl Abort,
    alloc: Global,
    front: &str,
    part: &str,
    times: u32,
    end: &str,
) -> String {
    let head = "# DATA TYPE: cat\n# NUMBER ALTERNATIVES: 2\n# NUMBER CATEGORIES: 349525\n";
    let mut file = format!(in alloc; "{head}{front}").expect(rt, part);
    for _ in 0..times {
        file.push_str(part).expect(rt, part);
    }
    file.push_str(end).expect(rt, part);
    file
}

#[test]
fn long_lines_and_many(rt: HostRuntime) {
    let alloc = rt.alloc();
    for (number, (front, part, times, end)) in FILES.iter().enumerate() {
        let file = long_file(&rt, alloc, front, part, *times, end);
        let words = "elect --rule av --size 1";
        assert_leaves(&rt, alloc, words, file.as_bytes(), wanted(number));
    }
}

/// All 41,664 committees of three of 64 candidates, none of which is approved: many times what is put together before
/// it is written.
#[test]
fn a_long_answer(rt: HostRuntime) {
    let alloc = rt.alloc();
    let mut answer = String::new(alloc);
    answer
        .push_str("rule av\nsize 3\nscore 0/1\n")
        .expect(&rt, "memory");
    for first in 1..=62u8 {
        for second in first + 1..=63 {
            for third in second + 1..=64 {
                writeln!(answer, "{first},{second},{third}").expect(&rt, "memory");
            }
        }
    }
    answer.push_str("end\n").expect(&rt, "memory");
    let words = "elect --rule av --size 3 --kind cat";
    let file = b"# NUMBER ALTERNATIVES: 64\n1: {}\n".as_slice();
    assert_leaves(&rt, alloc, words, file, answer.as_bytes());
}

/// Of 18 candidates, voters who all approve 1, and of 2 to 18 those that the binary digits of their number name: no two
/// ballots are equal.
fn different_ballots(rt: &impl Abort, alloc: Global, voters: u32) -> String {
    let mut file = String::from_str(alloc, "# NUMBER ALTERNATIVES: 18\n").expect(rt, "memory");
    for voter in 0..voters {
        file.push_str("1: {1").expect(rt, "memory");
        for digit in 0..17u32 {
            if voter >> digit & 1 == 1 {
                write!(file, ",{}", digit + 2).expect(rt, "memory");
            }
        }
        file.push_str("}\n").expect(rt, "memory");
    }
    file
}

/// Rules, a number of those voters, the line of the score of two seats, and the last candidate who wins beside 1, as
/// all from 2 on do.
static OF_DIFFERENT_BALLOTS: [(&str, u32, &str, u8); 10] = [
    // Half of the voters approve 2, and also each of the next two or three.
    ("av", 9_000, "score 13500/1\n", 4),
    ("pav", 9_000, "score 22500/2\n", 4),
    ("seqpav", 9_000, "", 4),
    ("av", 70_000, "score 105000/1\n", 5),
    ("pav", 70_000, "score 175000/2\n", 5),
    ("seqpav", 70_000, "", 5),
    // Everybody approves 1.
    ("cc", 9_000, "score 9000/1\n", 18),
    ("cc", 70_000, "score 70000/1\n", 18),
    // A voter approves 1 and all of 2 to 14 (to 17) but the other member.
    ("minimax", 9_000, "distance 13\n", 14),
    ("minimax", 70_000, "distance 16\n", 17),
];

#[test]
fn many_different_ballots(rt: HostRuntime) {
    let alloc = rt.alloc();
    for (rule, voters, best, last) in &OF_DIFFERENT_BALLOTS {
        let file = different_ballots(&rt, alloc, *voters);
        let words = format!(in alloc; "elect --rule {rule} --size 2 --kind cat").expect(
            &rt, "memory",
        );
        let mut answer = format!(in alloc; "rule {rule}\nsize 2\n{best}").expect(&rt, "memory");
        for other in 2..=*last {
            writeln!(answer, "1,{other}").expect(&rt, "memory");
        }
        answer.push_str("end\n").expect(&rt, "memory");
        assert_leaves(&rt, alloc, &words, file.as_bytes(), answer.as_bytes());
    }
}

/// Of 40 candidates, one voter for each two of 2 to 39, who approves 1 beside them: the lines of the ballots, after a
/// header, or as a report has them.
pub(super) fn all_beside_one(rt: &impl Abort, alloc: Global, open: &str, close: &str) -> String {
    let header = if open.is_empty() {
        ""
    } else {
        "# NUMBER ALTERNATIVES: 40\n"
    };
    let mut text = String::from_str(alloc, header).expect(rt, "memory");
    for first in 2..39u8 {
        for second in first + 1..=39 {
            writeln!(text, "1: {open}1,{first},{second}{close}").expect(rt, "memory");
        }
    }
    text
}

/// The report on the committee that nobody of those 703 voters approves.
pub(super) fn report_of_all(rt: &impl Abort, alloc: Global) -> String {
    let rows = all_beside_one(rt, alloc, "", "");
    format!(in alloc; "violated jr\nlevel 1\ncandidates 1\nvoters 703 of 703\n{rows}").expect(
        rt, "memory",
    )
}

#[test]
fn a_long_report(rt: HostRuntime) {
    let alloc = rt.alloc();
    let file = all_beside_one(&rt, alloc, "{", "}");
    let report = report_of_all(&rt, alloc);
    // 51 bytes, and 7 on each of 703 lines beside the digits: 37 lines have each of 8 + 30 candidates.
    assert_eq!(rt; report.len(), 51 + 703 * 7 + 37 * (8 + 30 * 2));
    let words = "check --property jr --committee 40 --kind cat";
    assert_leaves(&rt, alloc, words, file.as_bytes(), report.as_bytes());
}

/// A name of a thousand bytes, one of bytes that are not text, and one that was taken away.
#[test]
fn names_of_any_bytes(rt: HostRuntime) {
    let alloc = rt.alloc();
    let long = "x".repeat(alloc, 1000).expect(&rt, "memory");
    let file = [
        b"# NUMBER ALTERNATIVES: 3\n# ALTERNATIVE NAME 1: ".as_slice(),
        long.as_bytes(),
        b"\n# ALTERNATIVE NAME 2:\xFF\x00\x0B\n# ALTERNATIVE NAME 3: Blue\n# ALTERNATIVE NAME 3:\n1: 1\n",
    ];
    let answer = [
        b"rule av\nsize 3\nscore 1/1\n1,2,3\t".as_slice(),
        long.as_bytes(),
        b"; \xFF\x00\x0B; 3\nend\n",
    ];
    let file = file.concat(alloc).expect(&rt, "memory");
    let answer = answer.concat(alloc).expect(&rt, "memory");
    let words = "elect --rule av --size 3 --kind soi --names";
    assert_leaves(&rt, alloc, words, &file, &answer);
}

/// Each beginning of `THREE`.
#[test]
fn beginnings_of_a_file(rt: HostRuntime) {
    assert_eq!(rt; THREE.len(), 87);
    for n in 0..=THREE.len() {
        let left: &[u8] = match n {
            0..=38 => b"committees: input: NoAlternatives\n",
            // After the colon of the alternatives.
            39 | 40 => b"committees: input line 2: BadNumber\n",
            // After the colon of the categories.
            62 | 63 => b"committees: input line 3: BadNumber\n",
            41..=65 => b"committees: input: NoVoters\n",
            66 | 69..=72 | 74 => b"committees: input line 4: BadBallot\n",
            // Two voters approve nobody so far.
            67 | 68 => b"rule av\nsize 1\nscore 0/1\n1\n2\n3\nend\n",
            77 | 81..=85 => b"committees: input line 5: BadBallot\n",
            _ => b"rule av\nsize 1\nscore 2/1\n1\n2\nend\n",
        };
        assert_leaves(
            &rt,
            rt.alloc(),
            "elect --rule av --size 1",
            &THREE[..n],
            left,
        );
    }
}
