//! Laws of the answers. Each function does nothing, and its contract is the law.
ghost use Rattle.std.specs.Prelude.{◌≡◌, ◌⊎◌, ◌↔◌, ℕ, ◌-◌, ◌<◌, ◌≤◌, List, None, Option, Some, IfSome, slice_get, true};
ghost use Rattle.ballot_base.specs.Lists.{IsLater, later_than};
ghost use Rattle.seat_share.specs.Allocations.{IsLater as IsLaterAllocation, later_than as later_allocations};
ghost use Rattle.request_words.specs.Request.{Request, InRange, Page, whole};
ghost use Rattle.vote_cli.specs.Answer.{Answer, IsAnswer};
ghost use Rattle.vote_cli.specs.Laws.{IsCut, IsListed, IsPart, IsRest, IsSameRefusal, Listed, asked_for, is_listing};
ghost use Rattle.vote_cli.specs.Laws.{later_of, page_from};

use crate::status::Status;

/// A request has at most one answer over an input.
pub fn one_answer()
    ensures { (asked : Request) (bytes : List ℕ) (a b : Answer)
        → IsAnswer asked bytes a → IsAnswer asked bytes b → a ≡ b }
{}

/// A request has an answer over every input.
pub fn some_answer()
    ensures { (asked : Request) (bytes : List ℕ) → (answer : Answer) × IsAnswer asked bytes answer }
{}

/// A limit of `n` cuts the list of answers off after the n-th, and changes nothing before. The last line is `more` if
/// answers were cut off, and otherwise `end`. A refusal stays as it is.
pub fn limited()
    ensures { (asked : Request) (bytes : List ℕ) (after : Option (List ℕ)) (n : ℕ) (all cut : Answer)
        → is_listing asked.task ≡ true
        → IsAnswer (asked_for (record { after = after; limit = None }) asked) bytes all
        → IsAnswer (asked_for (record { after = after; limit = Some n }) asked) bytes cut
        → IsSameRefusal all cut ⊎ ((listed : Listed) × IsListed asked bytes listed
        × IsCut listed (later_than after listed.answers) n all cut) }
{}

/// A start that fits leaves out the answers up to it, and changes nothing before: the score is that of all answers. A
/// start is refused exactly if it does not fit.
pub fn paged()
    ensures { (asked : Request) (bytes : List ℕ) (page : Page) (all part : Answer) → is_listing asked.task ≡ true
        → IsAnswer (asked_for whole asked) bytes all → IsAnswer (asked_for page asked) bytes part
        → IsSameRefusal all part ⊎ ((listed : Listed) × IsListed asked bytes listed × IsPart listed page all part) }
{}

/// What follows the j-th answer is fetched by the same request with that answer as its start, and its limit reduced by
/// j. The output has the same lines before its answers, then the answers that were left, and the same last line. So a
/// second run completes an output that was cut off after the line of its j-th answer.
pub fn rest()
    ensures { (asked : Request) (bytes : List ℕ) (listed : Listed) (page : Page) (j : ℕ) (last : List ℕ)
        (all rest : Answer) → is_listing asked.task ≡ true → InRange asked.task → IsListed asked bytes listed
        → 1 ≤ j → IfSome page.limit (λ n. j < n) → slice_get (later_of listed page) (j - 1) ≡ Some last
        → IsAnswer (asked_for page asked) bytes all → all.status ≡ Status.Answered
        → IsAnswer (asked_for (page_from page j last) asked) bytes rest → IsRest listed page j all rest }
{}

/// Allocations come in the same order as committees. `seat_share` stands on no other crate, so it has its own
/// definition of what is later than a start.
pub fn orders()
    ensures later { (list other : List ℕ) → IsLaterAllocation list other ↔ IsLater list other }
    ensures starts { (start : Option (List ℕ)) (lists : List (List ℕ))
        → later_allocations start lists ≡ later_than start lists }
{}
