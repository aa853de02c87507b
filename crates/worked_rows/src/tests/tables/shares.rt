//! Seats shared out among parties, by remainders for `hamilton`, and by the quotients of the votes for the others.

/// Allocations, and votes that have none.
static SHARES: &str = "\
// With votes in the words the input is not looked at: it has no shape of a file.
< x
share --method dhondt --seats 7 --votes 53,24,23 | method dhondt¶seats 7¶4,2,1¶end
share --method saintelague --seats 7 --votes 53,24,23 | method saintelague¶seats 7¶3,2,2¶end
share --method hamilton --seats 7 --votes 53,24,23 | method hamilton¶seats 7¶4,2,1¶end
share --method huntington --seats 7 --votes 53,24,23 | method huntington¶seats 7¶3,2,2¶end
share --method adams --seats 7 --votes 53,24,23 | method adams¶seats 7¶3,2,2¶end
share --method dean --seats 7 --votes 53,24,23 | method dean¶seats 7¶3,2,2¶end
share --method saintelague --seats 2 --votes 3,1 | method saintelague¶seats 2¶1,1¶2,0¶end
share --method hamilton --seats 1 --votes 1,1,1 | method hamilton¶seats 1¶0,0,1¶0,1,0¶1,0,0¶end
share --method hamilton --seats 2 --votes 1,1,1,1 | method hamilton¶seats 2¶0,0,1,1¶0,1,0,1¶0,1,1,0¶1,0,0,1¶1,0,1,0¶1,1,0,0¶end
share --method hamilton --seats 4 --votes 3,1 | method hamilton¶seats 4¶3,1¶end
share --method hamilton --seats 1 --votes 1,0,1 | method hamilton¶seats 1¶0,0,1¶1,0,0¶end
share --method adams --seats 2 --votes 5,3,3 | method adams¶seats 2¶1,0,1¶1,1,0¶end
share --method huntington --seats 2 --votes 5,3,3 | method huntington¶seats 2¶1,0,1¶1,1,0¶end
share --method dean --seats 2 --votes 5,3,3 | method dean¶seats 2¶1,0,1¶1,1,0¶end
share --method adams --seats 5 --votes 5,3,3 | method adams¶seats 5¶2,1,2¶2,2,1¶end
share --method huntington --seats 10 --votes 1,6 | method huntington¶seats 10¶1,9¶2,8¶end
share --method dean --seats 10 --votes 1,6 | method dean¶seats 10¶2,8¶end
share --method adams --seats 2 --votes 5,0 | method adams¶seats 2¶2,0¶end
share --method dhondt --seats 3 --votes 0,0,1 | method dhondt¶seats 3¶0,0,3¶end
share --method dhondt --seats 1 --votes 7 | method dhondt¶seats 1¶1¶end
share --method adams --seats 10000 --votes 1 | method adams¶seats 10000¶10000¶end
share --method dhondt --seats 2 --votes 05,0,003 | method dhondt¶seats 2¶1,0,1¶end
share --method huntington --seats 10000 --votes 4294967295,1 | method huntington¶seats 10000¶9999,1¶end
share --method adams --seats 10000 --votes 4294967295,1 | method adams¶seats 10000¶9999,1¶end
share --method dean --seats 10000 --votes 4294967295,1 | method dean¶seats 10000¶9999,1¶end
share --method dhondt --seats 10000 --votes 4294967295,1 | method dhondt¶seats 10000¶10000,0¶end
share --method hamilton --seats 10000 --votes 4294967295,1 | method hamilton¶seats 10000¶10000,0¶end
share --method saintelague --seats 10000 --votes 4294967295,1 | method saintelague¶seats 10000¶10000,0¶end
share --method dhondt --seats 3 --votes 4294967296 | method dhondt¶seats 3¶3¶end
share --method dhondt --seats 3 --votes 0,4294967296 | method dhondt¶seats 3¶0,3¶end
share --method saintelague --seats 5 --votes 5,3,3 | method saintelague¶seats 5¶2,1,2¶2,2,1¶3,1,1¶end
share --method dhondt --seats 2 --votes 5,0,3 | method dhondt¶seats 2¶1,0,1¶end
share --method dhondt --seats 1 --votes 4294967296 | method dhondt¶seats 1¶1¶end
// Equal parties, of which one goes without a seat.
share --method hamilton --seats 39 --votes [7*40] --limit 2 | method hamilton¶seats 39¶0,[1*39]¶1,0,[1*38]¶more
share --method hamilton --seats 39 --votes [7*40] --after [1*38],0,1 | method hamilton¶seats 39¶[1*39],0¶end
share --method dhondt --seats 39 --votes [7*40] --limit 2 | method dhondt¶seats 39¶0,[1*39]¶1,0,[1*38]¶more
share --method dhondt --seats 39 --votes [7*40] --after [1*38],0,1 | method dhondt¶seats 39¶[1*39],0¶end
share --method saintelague --seats 39 --votes [7*40] --limit 2 | method saintelague¶seats 39¶0,[1*39]¶1,0,[1*38]¶more
share --method saintelague --seats 39 --votes [7*40] --after [1*38],0,1 | method saintelague¶seats 39¶[1*39],0¶end
share --method huntington --seats 39 --votes [7*40] --limit 2 | method huntington¶seats 39¶0,[1*39]¶1,0,[1*38]¶more
share --method huntington --seats 39 --votes [7*40] --after [1*38],0,1 | method huntington¶seats 39¶[1*39],0¶end
share --method adams --seats 39 --votes [7*40] --limit 2 | method adams¶seats 39¶0,[1*39]¶1,0,[1*38]¶more
share --method adams --seats 39 --votes [7*40] --after [1*38],0,1 | method adams¶seats 39¶[1*39],0¶end
share --method dean --seats 39 --votes [7*40] --limit 2 | method dean¶seats 39¶0,[1*39]¶1,0,[1*38]¶more
share --method dean --seats 39 --votes [7*40] --after [1*38],0,1 | method dean¶seats 39¶[1*39],0¶end
share --method hamilton --seats 40 --votes [7*41] --limit 2 | method hamilton¶seats 40¶0,[1*40]¶1,0,[1*39]¶more
share --method hamilton --seats 40 --votes [7*41] --after [1*39],0,1 | method hamilton¶seats 40¶[1*40],0¶end
share --method dhondt --seats 40 --votes [7*41] --limit 2 | method dhondt¶seats 40¶0,[1*40]¶1,0,[1*39]¶more
share --method dhondt --seats 40 --votes [7*41] --after [1*39],0,1 | method dhondt¶seats 40¶[1*40],0¶end
share --method saintelague --seats 40 --votes [7*41] --limit 2 | method saintelague¶seats 40¶0,[1*40]¶1,0,[1*39]¶more
share --method saintelague --seats 40 --votes [7*41] --after [1*39],0,1 | method saintelague¶seats 40¶[1*40],0¶end
share --method huntington --seats 40 --votes [7*41] --limit 2 | method huntington¶seats 40¶0,[1*40]¶1,0,[1*39]¶more
share --method huntington --seats 40 --votes [7*41] --after [1*39],0,1 | method huntington¶seats 40¶[1*40],0¶end
share --method adams --seats 40 --votes [7*41] --limit 2 | method adams¶seats 40¶0,[1*40]¶1,0,[1*39]¶more
share --method adams --seats 40 --votes [7*41] --after [1*39],0,1 | method adams¶seats 40¶[1*40],0¶end
share --method dean --seats 40 --votes [7*41] --limit 2 | method dean¶seats 40¶0,[1*40]¶1,0,[1*39]¶more
share --method dean --seats 40 --votes [7*41] --after [1*39],0,1 | method dean¶seats 40¶[1*40],0¶end
share --method hamilton --seats 63 --votes [7*64] --limit 2 | method hamilton¶seats 63¶0,[1*63]¶1,0,[1*62]¶more
share --method hamilton --seats 63 --votes [7*64] --after [1*62],0,1 | method hamilton¶seats 63¶[1*63],0¶end
share --method dhondt --seats 63 --votes [7*64] --limit 2 | method dhondt¶seats 63¶0,[1*63]¶1,0,[1*62]¶more
share --method dhondt --seats 63 --votes [7*64] --after [1*62],0,1 | method dhondt¶seats 63¶[1*63],0¶end
share --method saintelague --seats 63 --votes [7*64] --limit 2 | method saintelague¶seats 63¶0,[1*63]¶1,0,[1*62]¶more
share --method saintelague --seats 63 --votes [7*64] --after [1*62],0,1 | method saintelague¶seats 63¶[1*63],0¶end
share --method huntington --seats 63 --votes [7*64] --limit 2 | method huntington¶seats 63¶0,[1*63]¶1,0,[1*62]¶more
share --method huntington --seats 63 --votes [7*64] --after [1*62],0,1 | method huntington¶seats 63¶[1*63],0¶end
share --method adams --seats 63 --votes [7*64] --limit 2 | method adams¶seats 63¶0,[1*63]¶1,0,[1*62]¶more
share --method adams --seats 63 --votes [7*64] --after [1*62],0,1 | method adams¶seats 63¶[1*63],0¶end
share --method dean --seats 63 --votes [7*64] --limit 2 | method dean¶seats 63¶0,[1*63]¶1,0,[1*62]¶more
share --method dean --seats 63 --votes [7*64] --after [1*62],0,1 | method dean¶seats 63¶[1*63],0¶end
share --method dhondt --seats 2 --votes [4294967*40] --limit 2 | method dhondt¶seats 2¶[0*38],1,1¶[0*37],1,0,1¶more
share --method dhondt --seats 2 --votes [4294967*40] --after 1,0,1,[0*37] | method dhondt¶seats 2¶1,1,[0*38]¶end
// Votes that no seats can be shared out by.
share --method hamilton --seats 1 --votes 0 | committees: request: NoVotes
share --method adams --seats 10000 --votes 0 | committees: request: NoVotes
share --method hamilton --seats 1 --votes 0,0 | committees: request: NoVotes
share --method adams --seats 10000 --votes 0,0 | committees: request: NoVotes
share --method hamilton --seats 1 --votes [0*40] | committees: request: NoVotes
share --method adams --seats 10000 --votes [0*40] | committees: request: NoVotes
share --method hamilton --seats 1 --votes [0*41] | committees: request: NoVotes
share --method adams --seats 10000 --votes [0*41] | committees: request: NoVotes
share --method hamilton --seats 1 --votes [0*64] | committees: request: NoVotes
share --method adams --seats 10000 --votes [0*64] | committees: request: NoVotes
share --method hamilton --seats 1 --votes [0*65] | committees: request: TooManyParties
share --method adams --seats 10000 --votes [0*65] | committees: request: TooManyParties
share --method hamilton --seats 1 --votes [1*65] | committees: request: TooManyParties
share --method adams --seats 10000 --votes [1*65] | committees: request: TooManyParties
share --method hamilton --seats 1 --votes 4294967296,1 | committees: request: TooManyVotes
share --method adams --seats 10000 --votes 4294967296,1 | committees: request: TooManyVotes
share --method hamilton --seats 1 --votes 4294967297 | committees: request: TooManyVotes
share --method adams --seats 10000 --votes 4294967297 | committees: request: TooManyVotes
share --method hamilton --seats 1 --votes 2147483648,2147483648,1 | committees: request: TooManyVotes
share --method adams --seats 10000 --votes 2147483648,2147483648,1 | committees: request: TooManyVotes
share --method hamilton --seats 1 --votes 18446744073709551615,1 | committees: request: TooManyVotes
share --method adams --seats 10000 --votes 18446744073709551615,1 | committees: request: TooManyVotes
share --method hamilton --seats 1 --votes 18446744073709551615,18446744073709551615 | committees: request: TooManyVotes
share --method adams --seats 10000 --votes 18446744073709551615,18446744073709551615 | committees: request: TooManyVotes
share --method hamilton --seats 1 --votes 9223372036854775808,9223372036854775808 | committees: request: TooManyVotes
share --method adams --seats 10000 --votes 9223372036854775808,9223372036854775808 | committees: request: TooManyVotes
share --method dhondt --seats 1 --votes [4294967296*65] | committees: request: TooManyParties
// Votes of ballots.
< # NUMBER ALTERNATIVES: 3¶# ALTERNATIVE NAME 1: Red¶# ALTERNATIVE NAME 3: Blue¶5: 1,2¶3: 3¶2:¶
share --method dhondt --seats 2 p.soi | method dhondt¶seats 2¶1,0,1¶end
< # DATA TYPE: cat¶# NUMBER ALTERNATIVES: 2¶3: {1}¶9: {}¶1: {2}¶
share --method saintelague --seats 2 | method saintelague¶seats 2¶1,1¶2,0¶end
< # DATA TYPE: cat¶# NUMBER ALTERNATIVES: 2¶9:¶1: 1¶1: {2},1¶2: 1¶
share --method saintelague --seats 2 | method saintelague¶seats 2¶1,1¶2,0¶end
< # DATA TYPE: cat¶# NUMBER ALTERNATIVES: 3¶1: {1}¶1: {3}¶
share --method hamilton --seats 1 | method hamilton¶seats 1¶0,0,1¶1,0,0¶end
< # DATA TYPE: cat¶# NUMBER ALTERNATIVES: 3¶1: {1}¶1: {3}¶
share --method adams --seats 3 | method adams¶seats 3¶1,0,2¶2,0,1¶end
< # DATA TYPE: cat¶# NUMBER ALTERNATIVES: 2¶4294967296: 1¶
share --method dhondt --seats 3 | method dhondt¶seats 3¶3,0¶end
< # DATA TYPE: cat¶# NUMBER ALTERNATIVES: 1¶1: 1¶
share --method dhondt --seats 2 | method dhondt¶seats 2¶2¶end
< # DATA TYPE: cat¶# NUMBER ALTERNATIVES: 3¶4: 1,2,3¶2: 2,3,1¶1: 3,1,2¶
share --method dhondt --seats 7 --kind soc | method dhondt¶seats 7¶4,2,1¶end
< # DATA TYPE: cat¶# NUMBER ALTERNATIVES: 3¶4: 1¶2: 2,3¶1: 3¶
share --method dhondt --seats 7 --kind soi --classes 1 | method dhondt¶seats 7¶4,2,1¶end
< # DATA TYPE: cat¶# NUMBER ALTERNATIVES: 3¶4: {},1,{2,3}¶2: {2}¶1: 3¶
share --method dhondt --seats 7 --kind toi --setsize 1 | method dhondt¶seats 7¶4,2,1¶end
< # DATA TYPE: cat¶# NUMBER ALTERNATIVES: 3¶5: {1,2},3¶1: {},1¶
share --method dhondt --seats 3 --category 2 | method dhondt¶seats 3¶0,0,3¶end
< # DATA TYPE: cat¶# NUMBER ALTERNATIVES: 2¶1: 2¶5: {},1¶
share --method dhondt --seats 2 --kind toi --classes 1 | method dhondt¶seats 2¶0,2¶end
< # DATA TYPE: cat¶# NUMBER ALTERNATIVES: 64¶1: 1¶1: 2¶1: 3¶1: 4¶1: 5¶1: 6¶1: 7¶1: 8¶1: 9¶1: 10¶1: 11¶1: 12¶1: 13¶1: 14¶1: 15¶1: 16¶1: 17¶1: 18¶1: 19¶1: 20¶1: 21¶1: 22¶1: 23¶1: 24¶1: 25¶1: 26¶1: 27¶1: 28¶1: 29¶1: 30¶1: 31¶1: 32¶1: 33¶1: 34¶1: 35¶1: 36¶1: 37¶1: 38¶1: 39¶1: 40¶1: 41¶1: 42¶1: 43¶1: 44¶1: 45¶1: 46¶1: 47¶1: 48¶1: 49¶1: 50¶1: 51¶1: 52¶1: 53¶1: 54¶1: 55¶1: 56¶1: 57¶1: 58¶1: 59¶1: 60¶1: 61¶1: 62¶1: 63¶1: 64¶
share --method dhondt --seats 63 --limit 1 | method dhondt¶seats 63¶0,[1*63]¶more
share --method dhondt --seats 63 --after [1*62],0,1 | method dhondt¶seats 63¶[1*63],0¶end
// Ballots that no seats can be shared out by.
< # DATA TYPE: cat¶# NUMBER ALTERNATIVES: 3¶# NUMBER CATEGORIES: 2¶2: {1,2},3¶1: 3,{1,2}¶
share --method dhondt --seats 2 | committees: request: ManyApproved
< # DATA TYPE: cat¶# NUMBER ALTERNATIVES: 2¶5: {}¶
share --method adams --seats 2 | committees: request: NoVotes
< # DATA TYPE: cat¶# NUMBER ALTERNATIVES: 2¶2:¶3: {},1¶
share --method adams --seats 2 | committees: request: NoVotes
< # DATA TYPE: cat¶# NUMBER ALTERNATIVES: 2¶1: {},1¶
share --method adams --seats 2 --kind toi --classes 1 | committees: request: NoVotes
< # DATA TYPE: cat¶# NUMBER ALTERNATIVES: 2¶1: {1,2}¶
share --method adams --seats 2 | committees: request: ManyApproved
< # DATA TYPE: cat¶# NUMBER ALTERNATIVES: 3¶5: {}¶2: {3}¶1: {1,3}¶
share --method adams --seats 2 | committees: request: ManyApproved
< # DATA TYPE: cat¶# NUMBER ALTERNATIVES: 3¶1: {1,2,3}¶5: {}¶
share --method adams --seats 2 | committees: request: ManyApproved
< # DATA TYPE: cat¶# NUMBER ALTERNATIVES: 3¶5: {1,2},3¶1: {},{1,2}¶
share --method adams --seats 2 --category 2 | committees: request: ManyApproved
< # DATA TYPE: cat¶# NUMBER ALTERNATIVES: 3¶4: 1,2,3¶
share --method adams --seats 2 --kind soc --setsize 2 | committees: request: ManyApproved
< # DATA TYPE: cat¶# NUMBER ALTERNATIVES: 3¶1: 1¶4: {2,3},1¶
share --method adams --seats 2 --kind toi | committees: request: ManyApproved
// The input is tested before the votes.
<
share --method dhondt --seats 2 | committees: input: NoAlternatives
< # DATA TYPE: cat¶# NUMBER ALTERNATIVES: 3¶
share --method dhondt --seats 2 | committees: input: NoVoters
< # DATA TYPE: cat¶# NUMBER ALTERNATIVES: 64¶1: {[1..64]}¶1: 65¶
share --method dhondt --seats 2 | committees: input line 4: NoSuchCandidate";

/// Six states and 36 seats, by each method (Balinski and Young, Fair Representation).
static SIX_STATES: &str = "\
share --method adams --seats 36 --votes 27744,25178,19951,14610,9225,3292 | method adams¶seats 36¶10,9,7,5,3,2¶end
share --method dean --seats 36 --votes 27744,25178,19951,14610,9225,3292 | method dean¶seats 36¶10,9,7,5,4,1¶end
share --method huntington --seats 36 --votes 27744,25178,19951,14610,9225,3292 | method huntington¶seats 36¶10,9,7,6,3,1¶end
share --method saintelague --seats 36 --votes 27744,25178,19951,14610,9225,3292 | method saintelague¶seats 36¶10,9,8,5,3,1¶end
share --method dhondt --seats 36 --votes 27744,25178,19951,14610,9225,3292 | method dhondt¶seats 36¶11,9,7,5,3,1¶end
share --method hamilton --seats 36 --votes 27744,25178,19951,14610,9225,3292 | method hamilton¶seats 36¶10,9,7,5,4,1¶end";

/// The census of the United States of 1790, and the bills of 1792 by Jefferson's and by Hamilton's method (Balinski and
/// Young, Fair Representation).
static CENSUS: &str = "\
share --method dhondt --seats 105 --votes 236841,55540,70835,68705,278514,475327,141822,179570,331589,353523,432879,68446,206236,85533,630560 | method dhondt¶seats 105¶7,1,2,2,8,14,4,5,10,10,13,2,6,2,19¶end
share --method hamilton --seats 120 --votes 236841,55540,70835,68705,278514,475327,141822,179570,331589,353523,432879,68446,206236,85533,630560 | method hamilton¶seats 120¶8,2,2,2,9,16,5,6,11,12,14,2,7,3,21¶end";

/// The Alabama paradox: with one more seat, the third party has one fewer
/// (<https://en.wikipedia.org/wiki/Apportionment_paradox>).
static PARADOX: &str = "\
share --method hamilton --seats 10 --votes 6,6,2 | method hamilton¶seats 10¶4,4,2¶end
share --method hamilton --seats 11 --votes 6,6,2 | method hamilton¶seats 11¶5,5,1¶end";

#[test]
fn allocations(rt: HostRuntime) {
    super::assert_table(&rt, rt.alloc(), SHARES);
}

#[test]
fn six_states(rt: HostRuntime) {
    super::assert_table(&rt, rt.alloc(), SIX_STATES);
}

#[test]
fn the_first_census(rt: HostRuntime) {
    super::assert_table(&rt, rt.alloc(), CENSUS);
}

#[test]
fn a_seat_more(rt: HostRuntime) {
    super::assert_table(&rt, rt.alloc(), PARADOX);
}
