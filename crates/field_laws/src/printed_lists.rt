//! Lists of answers that can be read back from what is printed of them.
ghost use Rattle.std.specs.Prelude.{◌≡◌, ℕ, List, Option};
ghost use Rattle.std.specs.List.{AllByRecursion};
ghost use Rattle.text_output.specs.Names.{Names};
ghost use Rattle.vote_cli.specs.Listing.{allocation_line, answers_text, committee_line, has_more, within_limit};
ghost use Rattle.field_laws.specs.Lines.{AreInLines, AreNumbers};

/// Two lists of committees with the same text have the same committees, whether there are names beside them or not. The
/// last line says of both whether there are more. A line ends with LF, and numbers end at the first tab.
pub fn committees_can_be_read_back()
    ensures { (names other_names : Names) (limit other_limit : Option ℕ) (answers others : List (List ℕ))
        → AreInLines names → AreInLines other_names
        → AllByRecursion AreNumbers answers → AllByRecursion AreNumbers others
        → answers_text (committee_line names) limit answers
        ≡ answers_text (committee_line other_names) other_limit others
        → (within_limit limit answers ≡ within_limit other_limit others)
        × (has_more limit answers ≡ has_more other_limit others) }
{}

/// So do two lists of allocations of seats.
pub fn allocations_can_be_read_back()
    ensures { (names other_names : Names) (limit other_limit : Option ℕ) (allocations others : List (List ℕ))
        → AreInLines names → AreInLines other_names
        → AllByRecursion AreNumbers allocations → AllByRecursion AreNumbers others
        → answers_text (allocation_line names) limit allocations
        ≡ answers_text (allocation_line other_names) other_limit others
        → (within_limit limit allocations ≡ within_limit other_limit others)
        × (has_more limit allocations ≡ has_more other_limit others) }
{}
