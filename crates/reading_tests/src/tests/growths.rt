//! Growths that are refused, one after the other, to readers of files.
ghost use Rattle.std.specs.Prelude.{◌≤◌};
ghost use Rattle.preflib_text.specs.Approvals.{HasNumber};

use super::support::{MANY, has_refused, reading_as};
use preflib_text::{FaultName, Pick, ReadFault, read_profile};
use refusing_heap::Refusing;
use std::alloc::Global;
use std::process::Abort;

/// A file of each type, with names, and the lines that take memory: the first, at which the builder is made, those of
/// names, and those of new ballots.
static GROWING: [(&str, &[u64]); 6] = [
    (
        "# DATA TYPE: cat\n# ALTERNATIVE NAME 9: Nobody\n# NUMBER ALTERNATIVES: 3\n\
         # ALTERNATIVE NAME 1: Ada\n# NUMBER CATEGORIES: 2\n# ALTERNATIVE NAME 3: Cy\n\
         2: {1,2},3\n1: 3,{1,2}\n2: {1,2}\n",
        &[1, 2, 4, 6, 7, 8],
    ),
    (
        "# ALTERNATIVE NAME 2: Bo\n# DATA TYPE: soc\n# NUMBER ALTERNATIVES: 3\n2: 1,2,3\n1: 3,1,2\n",
        &[1, 4, 5],
    ),
    (
        "# NUMBER ALTERNATIVES: 3\n# DATA TYPE: soi\n# ALTERNATIVE NAME 2: Bo\n\
         2: 2\n4: 2,3\n1:\n1: 3,1\n",
        &[1, 3, 4, 6, 7],
    ),
    (
        "# DATA TYPE: toc\n# NUMBER ALTERNATIVES: 3\n# ALTERNATIVE NAME 1: Ada\n\n2: {1,3},2\n1: 2,{1,3}\n\
         # ALTERNATIVE NAME 2: Bo\n",
        &[1, 3, 5, 6],
    ),
    (
        "# ALTERNATIVE NAME 3: Cy\n# ALTERNATIVE NAME 3: Di\n# DATA TYPE: toi\n# NUMBER ALTERNATIVES: 3\n\
         1: {},{2}\n2: {2,3}\n",
        &[1, 2, 5, 6],
    ),
    // Empty names take no memory, nor do names of numbers above a known number of alternatives.
    (
        "# DATA TYPE: soi\n# ALTERNATIVE NAME 1: Ada\n# ALTERNATIVE NAME 1:\n# ALTERNATIVE NAME 64: \t\n\
         # NUMBER ALTERNATIVES: 3\n# ALTERNATIVE NAME 2:\n# ALTERNATIVE NAME 4: Di\n\
         # ALTERNATIVE NAME 3: Cy\n1: 1\n",
        &[1, 2, 8, 9],
    ),
];

/// The fault of a reading, if it has one, and whether the growth with this number was refused in it.
fn fault_at(alloc: Global, pick: Pick, file: &[u8], refused: u64) -> (Option<ReadFault>, bool)
    requires way { HasNumber pick.way }
    requires growth { 1 ≤ refused }
{
    let heap = Refusing::new(alloc, refused);
    let fault = read_profile(&heap, file, &pick).err();
    (fault, has_refused(&heap))
}

/// The line of a fault, if there is one, and whether it is out of memory.
fn line_of(fault: Option<ReadFault>, last: u64) -> (u64, bool) {
    match fault {
        Some(ReadFault { name, line }) => (line.unwrap_or(0), name == FaultName::Memory),
        None => (last, false),
    }
}

/// The number of growths of a reading. Each is refused at one of these lines, later growths at no earlier line, and the
/// file is read if none is. For a growth of which this is false, its number and its fault.
fn count_growths(
    alloc: Global,
    pick: Pick,
    file: &[u8],
    growing: &[u64],
) -> Result<u64, (u64, Option<ReadFault>)>
    requires { HasNumber pick.way }
{
    let mut last = 0;
    let mut growths = 0;
    for n in 1..=MANY {
        let (fault, is_refused) = fault_at(alloc, pick, file, n);
        let (line, is_memory) = line_of(fault, last);
        let is_due = is_memory && growing.contains(&line) && last <= line;
        if is_refused != is_due || is_refused != fault.is_some() {
            return Err((n, fault));
        }
        last = line;
        growths = growths.max(if is_refused { n } else { 0 });
    }
    Ok(growths)
}

/// Asserts that a reading has growths, and that each is refused at one of these lines.
fn assert_growths(rt: &impl Abort, alloc: Global, pick: Pick, file: &str, growing: &[u64])
    requires { HasNumber pick.way }
{
    let told = count_growths(alloc, pick, file.as_bytes(), growing);
    assert!(rt; matches!(told, Ok(3..MANY)), "{file:?}: {told:?}");
}

#[test]
fn each_growth_of_a_reading(rt: HostRuntime) {
    let pick = reading_as(&rt, rt.alloc(), "");
    for (file, growing) in &GROWING {
        assert_growths(&rt, rt.alloc(), pick, file, growing);
    }
}

/// Files whose reading begins with a refused growth, and what comes of them: the first line's own fault comes before
/// out of memory.
static FIRST_GROWTHS: [(&str, FaultName, Option<u64>); 7] = [
    ("", FaultName::NoAlternatives, None),
    ("\u{feff}", FaultName::NoAlternatives, None),
    ("x\n", FaultName::NoAlternatives, None),
    (
        "# NUMBER ALTERNATIVES: 65\n",
        FaultName::TooManyCandidates,
        Some(1),
    ),
    ("\n", FaultName::Memory, Some(1)),
    ("# NUMBER ALTERNATIVES: 3", FaultName::Memory, Some(1)),
    (
        "# DATA TYPE: cat\n# NUMBER ALTERNATIVES: 65\n",
        FaultName::Memory,
        Some(1),
    ),
];

/// Asserts the fault of a reading that begins with a refused growth.
fn assert_fault(rt: &impl Abort, alloc: Global, pick: Pick, file: &str, wanted: ReadFault)
    requires { HasNumber pick.way }
{
    let (fault, _) = fault_at(alloc, pick, file.as_bytes(), 1);
    assert!(rt; fault == Some(wanted), "{file:?}: {fault:?}");
}

#[test]
fn the_first_growth_of_a_reading(rt: HostRuntime) {
    let pick = reading_as(&rt, rt.alloc(), "");
    for (file, name, line) in &FIRST_GROWTHS {
        let wanted = ReadFault {
            name: *name,
            line: *line,
        };
        assert_fault(&rt, rt.alloc(), pick, file, wanted);
    }
}
