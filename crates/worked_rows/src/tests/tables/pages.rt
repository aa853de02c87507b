//! Answers from a start on, and up to a limit.

/// Starts and limits.
static PAGES: &str = "\
// Starts that are no answers, and how they go with limits.
< # DATA TYPE: cat¶# NUMBER ALTERNATIVES: 3¶# NUMBER CATEGORIES: 2¶2: {1,2},3¶1: 3,{1,2}¶
elect --rule pav --size 2 --after 1,3 | rule pav¶size 2¶score 6/2¶2,3¶end
elect --rule pav --size 2 --after 2,3 | rule pav¶size 2¶score 6/2¶end
elect --rule cc --size 2 --limit 1 | rule cc¶size 2¶score 3/1¶1,3¶more
elect --rule cc --size 2 --limit 2 | rule cc¶size 2¶score 3/1¶1,3¶2,3¶end
elect --rule cc --size 2 --limit 1 --after 1,2 | rule cc¶size 2¶score 3/1¶1,3¶more
elect --rule seqpav --size 2 --after 1,2 --limit 1 | rule seqpav¶size 2¶1,3¶more
elect --rule revseqpav --size 1 --after 3 | rule revseqpav¶size 1¶end
elect --rule minimax --size 2 --after=01,002 | rule minimax¶size 2¶distance 2¶1,3¶2,3¶end
share --method hamilton --seats 1 --votes 1,1,1 --limit 2 | method hamilton¶seats 1¶0,0,1¶0,1,0¶more
share --method hamilton --seats 1 --votes 1,1,1 --limit 3 | method hamilton¶seats 1¶0,0,1¶0,1,0¶1,0,0¶end
share --method hamilton --seats 1 --votes 1,1,1 --after 0,0,0 --limit 2 | method hamilton¶seats 1¶0,0,1¶0,1,0¶more
share --method hamilton --seats 1 --votes 1,1,1 --after 0,10000,10000 | method hamilton¶seats 1¶1,0,0¶end
// Starts: allocations, and lists that are none.
share --method dhondt --seats 7 --votes 53,24,23 --after 4,2,0 | method dhondt¶seats 7¶4,2,1¶end
share --method dhondt --seats 7 --votes 53,24,23 --after 4,2,1 | method dhondt¶seats 7¶end
share --method dhondt --seats 7 --votes 53,24,23 --after 5,0,0 | method dhondt¶seats 7¶end
share --method hamilton --seats 1 --votes 1,1,1 --after 0,0,0 | method hamilton¶seats 1¶0,0,1¶0,1,0¶1,0,0¶end
share --method hamilton --seats 1 --votes 1,1,1 --after 0,0,1 | method hamilton¶seats 1¶0,1,0¶1,0,0¶end
share --method hamilton --seats 1 --votes 1,1,1 --after 0,1,0 | method hamilton¶seats 1¶1,0,0¶end
share --method hamilton --seats 1 --votes 1,1,1 --after 0,1,1 | method hamilton¶seats 1¶1,0,0¶end
share --method hamilton --seats 1 --votes 1,1,1 --after 1,0,0 | method hamilton¶seats 1¶end
share --method adams --seats 2 --votes 5,3,3 --after 1,0,1 | method adams¶seats 2¶1,1,0¶end
share --method adams --seats 2 --votes 5,3,3 --after 1,0,2 | method adams¶seats 2¶1,1,0¶end
share --method adams --seats 2 --votes 5,3,3 --after 0,9,9 | method adams¶seats 2¶1,0,1¶1,1,0¶end
share --method adams --seats 2 --votes 5,3,3 --after 1,1,0 | method adams¶seats 2¶end
share --method saintelague --seats 5 --votes 5,3,3 --after 2,1,9 | method saintelague¶seats 5¶2,2,1¶3,1,1¶end
share --method saintelague --seats 5 --votes 5,3,3 --after 2,2,1 | method saintelague¶seats 5¶3,1,1¶end
share --method saintelague --seats 5 --votes 5,3,3 --after 3,0,9 | method saintelague¶seats 5¶3,1,1¶end
// Starts that do not fit.
elect --rule cc --size 2 --after 1 | committees: request: AfterMisfit
elect --rule cc --size 2 --after 1,2,3 | committees: request: AfterMisfit
elect --rule cc --size 2 --after 2,1 | committees: request: AfterMisfit
elect --rule cc --size 2 --after 1,1 | committees: request: AfterMisfit
elect --rule cc --size 2 --after 0,1 | committees: request: AfterMisfit
elect --rule cc --size 2 --after 1,4 | committees: request: AfterMisfit
elect --rule cc --size 2 --after 1,257 | committees: request: AfterMisfit
elect --rule seqpav --size 2 --after 1,18446744073709551615 | committees: request: AfterMisfit
elect --rule revseqpav --size 2 --after 3 | committees: request: AfterMisfit
elect --rule minimax --size 4 --after 1 | committees: request: SizeTooLarge
share --method dhondt --seats 7 --votes 53,24,23 --after 4,2 | committees: request: AfterMisfit
share --method dhondt --seats 7 --votes 53,24,23 --after 4,2,1,0 | committees: request: AfterMisfit
share --method dhondt --seats 7 --votes 53,24,23 --after 10001,0,0 | committees: request: AfterMisfit
share --method dhondt --seats 7 --votes 53,24,23 --after 4,65538,1 | committees: request: AfterMisfit
share --method dhondt --seats 7 --votes 0,0 --after 1 | committees: request: NoVotes
share --method dhondt --seats 7 --votes 4294967296,1 --after 10001 | committees: request: TooManyVotes
share --method dhondt --seats 7 --after 1 | committees: request: ManyApproved
share --method dean --seats 1 --votes [1..65] --after [1..65] | committees: request: TooManyParties
share --method dean --seats 1 --votes [1..64] --after [1..65] | committees: request: AfterMisfit
// Starts amid 91,390 allocations, 203,490 committees, and very many.
share --method dhondt --seats 4 --votes [5*40] --limit 1 --after [0*19],1,[0*20] | method dhondt¶seats 4¶[0*19],1,[0*17],1,1,1¶more
share --method adams --seats 20 --limit 1 --votes [1*40] | method adams¶seats 20¶[0*20],[1*20]¶more
share --method adams --seats 32 --limit 1 --votes [1*64] --after 1,[0*63] | method adams¶seats 32¶1,[0*32],[1*31]¶more
< # DATA TYPE: cat¶# NUMBER ALTERNATIVES: 21¶3: {[1..21]}¶
elect --rule av --size 8 --limit 2 --after [5..10],20,21 | rule av¶size 8¶score 24/1¶[5..9],11,12,13¶[5..9],11,12,14¶more";

#[test]
fn starts_and_limits(rt: HostRuntime) {
    super::assert_table(&rt, rt.alloc(), PAGES);
}
