//! The committee of a check, and the lists after which answers start.
ghost use Rattle.std.specs.Prelude.{◌≡◌, ◌≤◌, ℕ, IfOk, IfErr, IfSome, None, false, true, length};
ghost use Rattle.ballot_base.specs.Limits.{most_candidates, most_members};
ghost use Rattle.ballot_base.specs.Lists.{IsIncreasing, is_committee};
ghost use Rattle.request_words.specs.Request.{page_of};
ghost use Rattle.seat_share.specs.Limits.{most_parties};
ghost use Rattle.tie_walk.specs.Winners.{IsStart};
ghost use Rattle.vote_cli.specs.Starts.{has_seats_for, may_start};

use crate::refusal::RequestFault;
use arrayvec::ArrayVec;
use ballot_base::{CandSet, MOST_MEMBERS};
use request_words::Page;
use seat_share::{MOST_PARTIES, MOST_SEATS};

/// The committee with the numbers of a list, of the candidates 1 to `m`. Returns `None` if the list is not strictly
/// increasing, has a number outside 1 to `m`, or has more than `MOST_MEMBERS`.
pub(crate) fn committee_of(list: &[u64], m: u8) -> Option<CandSet>
    requires { m ≤ most_candidates }
    ensures some { IfSome result (λ committee. committee ≡ list.now) }
    ensures fits { IfSome result (λ _. IsIncreasing 1 m list.now × (length list.now ≤ most_members)) }
    ensures none { result ≡ None → length list.now ≤ most_members → IsIncreasing 1 m list.now → ⊥ }
{
    if list.len() > usize::from(MOST_MEMBERS) {
        return None;
    }
    let mut committee = CandSet::empty();
    let mut last = 0;
    for n in list {
        if *n <= last || *n > u64::from(m) {
            return None;
        }
        committee = committee.with(*n as u8);
        last = *n;
    }
    Some(committee)
}

/// The committee of `k` of the candidates 1 to `m` after which winners are asked for, if the page has a start. It need
/// not win. Any other list is a misfit.
pub(crate) fn committee_start(page: &Page, m: u8, k: u8) -> Result<Option<CandSet>, RequestFault>
    requires candidates { m ≤ most_candidates }
    requires size { k ≤ most_members }
    ensures start { IfOk result (λ start. (start ≡ (page_of page.now).after) × IsStart m k start) }
    ensures fits { IfOk result (λ _. may_start (is_committee m k) (page_of page.now).after ≡ true) }
    ensures misfit { IfErr result (λ fault. (fault ≡ RequestFault.AfterMisfit)
        × (may_start (is_committee m k) (page_of page.now).after ≡ false)) }
{
    let Some(list) = &page.after else {
        return Ok(None);
    };
    let Some(committee) = committee_of(list, m) else {
        return Err(RequestFault::AfterMisfit);
    };
    if committee.len() != k {
        return Err(RequestFault::AfterMisfit);
    }
    Ok(Some(committee))
}

/// The seats in a list, which need not be an allocation. Returns `None` if a number is above `MOST_SEATS`, or there are
/// more than `MOST_PARTIES`. It takes no memory.
pub(crate) fn seats_start(list: &[u64]) -> Option<ArrayVec<u16, MOST_PARTIES>>
    ensures some { IfSome result (λ start.
        (start.items ≡ list.now) × (has_seats_for (length list.now) list.now ≡ true)) }
    ensures none { result ≡ None → (parties : ℕ) → parties ≤ most_parties → has_seats_for parties list.now ≡ false }
{
    if list.len() > MOST_PARTIES {
        return None;
    }
    let mut start = ArrayVec::new();
    for &seats in list {
        if seats > u64::from(MOST_SEATS) {
            return None;
        }
        start.push(seats as u16);
    }
    Some(start)
}
