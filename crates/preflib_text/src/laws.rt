//! Laws of names, and of inputs in pieces. Each function does nothing, and its contract is the law.
ghost use Rattle.std.specs.Prelude.{◌≡◌, ℕ, ◌≤◌, ◌==◌, false, List, [], ◌∷◌, ◌++◌, length, map, Option, Some, Err};
ghost use Rattle.std.specs.List.{list_any};
ghost use Rattle.preflib_text.specs.Limits.{most_line_bytes};
ghost use Rattle.preflib_text.specs.Lines.{lines_of, pieces_of, without_return};
ghost use Rattle.preflib_text.specs.Reading.{Reads, RunsShort};
ghost use Rattle.preflib_text.specs.Pieces.{LacksMemory, Tells, ended_lines, unfinished_line, is_too_long};
ghost use Rattle.preflib_text.specs.Names.{kind_name, kind_named, kinds, fault_name, fault_named};

use crate::fault::{FaultName, ReadFault};
use crate::pick::{Kind, Pick};

/// `Kind::ALL` has each type. No two types share a name, and no two faults do.
pub fn names()
    ensures kinds { Kind.ALL ≡ kinds }
    ensures kind { (kind : Kind) → kind_named (kind_name kind) ≡ Some kind }
    ensures fault { (fault : FaultName) → fault_named (fault_name fault) ≡ Some fault }
{}

/// The lines of an input are those that have ended and, if bytes follow the last LF, the line that they make. A line
/// that is not too long so far is within the limit if it ends there.
pub fn unfinished_lines()
    ensures all { (bytes : List ℕ) → lines_of bytes
        ≡ ended_lines bytes ++ map without_return (pieces_of (unfinished_line bytes)) }
    ensures one { (bytes : List ℕ) → list_any (λ b. b == 10) (unfinished_line bytes) ≡ false }
    ensures next { (bytes : List ℕ) → ended_lines (bytes ++ 10 ∷ [])
        ≡ ended_lines bytes ++ without_return (unfinished_line bytes) ∷ [] }
    ensures fits { (bytes : List ℕ) → is_too_long (unfinished_line bytes) ≡ false
        → length (without_return (unfinished_line bytes)) ≤ most_line_bytes }
{}

/// Under a pick, the bytes so far show exactly one thing: a fault, or none yet. The fault is that of every input that
/// begins with these bytes. If a reader in pieces can run out of memory at a line, so can a reader of the whole.
pub fn pieces()
    ensures some { (bytes : List ℕ) (pick : Pick) → (fault : Option ReadFault) × Tells bytes pick fault }
    ensures one { (bytes : List ℕ) (pick : Pick) (a b : Option ReadFault) → Tells bytes pick a → Tells bytes pick b
        → a ≡ b }
    ensures every { (bytes more : List ℕ) (pick : Pick) (fault : ReadFault) → Tells bytes pick (Some fault)
        → Reads (bytes ++ more) pick (Err fault) }
    ensures memory { (bytes : List ℕ) (pick : Pick) (fault : ReadFault) → LacksMemory (lines_of bytes) pick fault
        → RunsShort bytes pick fault }
{}
