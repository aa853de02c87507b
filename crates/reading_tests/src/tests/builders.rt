//! Builders of profiles: what comes of each step, and growths that are refused.
ghost use Rattle.std.specs.Prelude.{◌≡◌, ◌≤◌};
ghost use Rattle.ballot_base.specs.Limits.{most_candidates};

use super::support::{MANY, assert_outcome, has_refused};
use ballot_base::{AddFault, CandSet, FinishFault, MOST_CANDIDATES, Profile, ProfileBuilder};
use refusing_heap::Refusing;
use std::alloc::{Allocator, Global};
use std::process::Abort;

/// A step of a builder for the maximum number of candidates.
#[derive(Clone, Copy)]
enum Step {
    /// A candidate's name.
    Name(u8, &'static [u8]),
    /// A ballot of at least one voter. A list that is not a set is the empty ballot.
    Ballot(&'static [u8], u64),
    /// A ballot whose voters, with those before, exceed the maximum.
    TooMany(&'static [u8], u64),
}

/// Steps with ballots of one set, of no candidates, and of the maximum number of voters.
static BALLOTS: [Step; 6] = [
    Step::Ballot(&[1, 2], 2),
    Step::Ballot(&[3], 1),
    Step::Ballot(&[1, 2], 3),
    Step::Ballot(&[], 4),
    Step::TooMany(&[3], 4_294_967_287),
    Step::Ballot(&[3], 4_294_967_286),
];

/// Steps with names, and ballots of few voters.
static NAMES: [Step; 5] = [
    Step::Name(64, b"Red"),
    Step::Ballot(&[7], 1),
    Step::Ballot(&[64], 1),
    Step::Name(7, b"Blue"),
    Step::Ballot(&[7], 1),
];

/// Adds a ballot.
fn add<A: Allocator + Copy + Drop>(
    builder: &mut ProfileBuilder<A>,
    list: &[u8],
    voters: u64,
) -> Result<(), AddFault>
    requires { builder.old.m ≡ most_candidates }
    ensures { builder.new.m ≡ most_candidates }
{
    let ballot = CandSet::of_list(list).unwrap_or(CandSet::empty());
    prove!(ballot.len() <= MOST_CANDIDATES);
    builder.add(ballot, voters.max(1))
}

/// Takes a step. Returns whether it is done, or, for a step with too many voters, refused for them.
fn take<A: Allocator + Copy + Drop>(builder: &mut ProfileBuilder<A>, step: Step) -> bool
    requires { builder.old.m ≡ most_candidates }
    ensures { builder.new.m ≡ most_candidates }
{
    match step {
        Step::Name(n, name) => builder.set_name(n.clamp(1, MOST_CANDIDATES), name).is_ok(),
        Step::Ballot(list, voters) => add(builder, list, voters).is_ok(),
        Step::TooMany(list, voters) => add(builder, list, voters) == Err(AddFault::TooManyVoters),
    }
}

/// A builder that gave no profile, because there are no voters.
fn begun<'a>(rt: &impl Abort, heap: &'a Refusing) -> ProfileBuilder<&'a Refusing>
    ensures { result.m ≡ most_candidates }
{
    let builder = ProfileBuilder::new(heap, MOST_CANDIDATES).expect(rt, "a builder");
    let (fault, builder) = builder.finish().err().expect(rt, "no ballot was added");
    assert!(rt; fault == FinishFault::NoVoters);
    builder
}

/// Takes the step with this number, a second time if a growth was refused.
fn assert_done(
    rt: &impl Abort,
    heap: &Refusing,
    builder: &mut ProfileBuilder<&Refusing>,
    i: usize,
    step: Step,
)
    requires { builder.old.m ≡ most_candidates }
    ensures { builder.new.m ≡ most_candidates }
{
    let is_done = take(builder, step) || has_refused(heap) && take(builder, step);
    assert!(rt; is_done, "step {i}");
}

/// The profile that comes of these steps.
fn built<'a>(rt: &impl Abort, heap: &'a Refusing, steps: &[Step]) -> Profile<&'a Refusing> {
    let mut builder = begun(rt, heap);
    for (i, step) in steps.iter().enumerate() {
        assert_done(rt, heap, &mut builder, i, *step);
    }
    builder.finish().ok().expect(rt, "ballots were added")
}

/// Whether the numbers of rows and of voters, and each row, are those of the ballots.
fn agrees_with_ballots(profile: &Profile<&Refusing>) -> bool {
    let mut rows = 0usize;
    let mut voters = 0u64;
    for (ballot, count) in profile.ballots() {
        if rows >= profile.rows() || profile.row(rows) != (ballot, count) {
            return false;
        }
        rows = rows.saturating_add(1);
        voters = voters.saturating_add(count);
    }
    rows == profile.rows() && voters == profile.voters()
}

/// Asserts the profile of these steps if the growth with this number is refused. Returns whether it was.
fn assert_built(rt: &impl Abort, alloc: Global, refused: u64, steps: &[Step], wanted: &str) -> bool
    requires { 1 ≤ refused }
{
    let heap = Refusing::new(alloc, refused);
    let profile = built(rt, &heap, steps);
    assert!(rt; agrees_with_ballots(&profile), "growth {refused}");
    assert_outcome(rt, alloc, Ok(profile), wanted, b"", refused);
    has_refused(&heap)
}

#[test]
fn profiles(rt: HostRuntime) {
    let wanted = "64\n5: 1,2\n4294967287: 3\n4: ";
    assert!(rt; !assert_built(&rt, rt.alloc(), MANY, &BALLOTS, wanted));
}

/// After a refused growth a builder is as it was, and the same step succeeds with memory.
#[test]
fn each_growth_of_a_builder(rt: HostRuntime) {
    let wanted = "64\n7 Blue\n64 Red\n2: 7\n1: 64";
    let mut growths = 0;
    for n in 2..=MANY {
        if assert_built(&rt, rt.alloc(), n, &NAMES, wanted) {
            growths = n;
        }
    }
    assert!(rt; growths > 3 && growths < MANY, "{growths} growths");
}
