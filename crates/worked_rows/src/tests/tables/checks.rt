//! Checks of committees. The reports are worked by hand from the properties: a group is large enough for a level if its
//! voters times the seats are no fewer than all voters times the level.

/// Committees that have a property, reports of violations, and lists that are not committees.
static CHECKS: &str = "\
// Two groups of voters with nothing in common.
< # DATA TYPE: cat¶# NUMBER ALTERNATIVES: 4¶3: {1,2}¶1: {3,4}¶
check --property jr --committee 3,4 | violated jr¶level 1¶candidates 1¶voters 3 of 4¶3: 1,2
check --property pjr --committee 3,4 | violated pjr¶level 1¶candidates 1¶within -¶voters 3 of 4¶3: 1,2
check --property ejr --committee 3,4 | violated ejr¶level 1¶candidates 1¶voters 3 of 4¶3: 1,2
check --property jr --committee 1,2 | holds
check --property pjr --committee 1,2 | holds
check --property ejr --committee 1,2 | holds
check --property ejr --committee 1,3 | holds
check --property ejrplus --committee 3,4 | violated ejrplus¶level 1¶candidates 1¶voters 3 of 4¶3: 1,2
check --property ejrplus --committee 1,2 | holds
check --property jr --committee 3 | holds
check --property ejr --committee 3 | holds
check --property jr --committee 1,3,4 | holds
check --property pjr --committee 1,3,4 | violated pjr¶level 2¶candidates 1,2¶within 1¶voters 3 of 4¶3: 1,2
check --property ejr --committee 1,3,4 | violated ejr¶level 2¶candidates 1,2¶voters 3 of 4¶3: 1,2
check --property jr --committee 1,2,3,4 | holds
check --property pjr --committee 1,2,3,4 | holds
check --property ejr --committee 1,2,3,4 | holds
check --property jr --committee 03,0004 | violated jr¶level 1¶candidates 1¶voters 3 of 4¶3: 1,2
// Two voters approve 1 and 2, and one voter approves 3.
< # DATA TYPE: cat¶# NUMBER ALTERNATIVES: 3¶# NUMBER CATEGORIES: 2¶2: {1,2},3¶1: 3,{1,2}¶
check --property jr --committee 1,3 | holds
check --property pjr --committee 1,3 | holds
check --property ejr --committee 1,3 | holds
check --property jr --committee 3 | holds
check --property jr --committee 1,2 --category 2 | violated jr¶level 1¶candidates 3¶voters 2 of 3¶2: 3
check --property ejr --committee 1,2,3 | holds
// Two voters with two candidates in common, each with another of their own.
< # DATA TYPE: cat¶# NUMBER ALTERNATIVES: 4¶1: {1,2,3}¶1: {1,2,4}¶
check --property jr --committee 3,4 | holds
check --property pjr --committee 3,4 | holds
check --property ejr --committee 3,4 | violated ejr¶level 2¶candidates 1,2¶voters 2 of 2¶1: 1,2,3¶1: 1,2,4
check --property ejrplus --committee 3,4 | violated ejrplus¶level 2¶candidates 1¶voters 2 of 2¶1: 1,2,3¶1: 1,2,4
check --property pjr --committee 1,3 | holds
check --property ejr --committee 1,3 | holds
check --property ejr --committee 1,2 | holds
check --property ejrplus --committee 1,2 | holds
// Two voters with one candidate in common, each with another of their own.
< # DATA TYPE: cat¶# NUMBER ALTERNATIVES: 3¶1: {1,2}¶1: {1,3}¶
check --property pjr --committee 2,3 | holds
check --property ejr --committee 2,3 | holds
check --property ejrplus --committee 2,3 | violated ejrplus¶level 2¶candidates 1¶voters 2 of 2¶1: 1,2¶1: 1,3
check --property ejrplus --committee 1,2 | holds
check --property ejrplus --committee 1,2,3 | holds
check --property ejrplus --committee 1 | holds
check --property ejrplus --committee 2 | holds
// All voters have four candidates in common.
< # DATA TYPE: cat¶# NUMBER ALTERNATIVES: 5¶2: {1,2,3,4}¶
check --property jr --committee 5 | violated jr¶level 1¶candidates 1¶voters 2 of 2¶2: 1,2,3,4
check --property pjr --committee 5 | violated pjr¶level 1¶candidates 1¶within -¶voters 2 of 2¶2: 1,2,3,4
check --property ejr --committee 5 | violated ejr¶level 1¶candidates 1¶voters 2 of 2¶2: 1,2,3,4
check --property jr --committee 4,5 | holds
check --property pjr --committee 4,5 | violated pjr¶level 2¶candidates 1,2¶within 4¶voters 2 of 2¶2: 1,2,3,4
check --property ejr --committee 4,5 | violated ejr¶level 2¶candidates 1,2¶voters 2 of 2¶2: 1,2,3,4
check --property jr --committee 3,4,5 | holds
check --property pjr --committee 3,4,5 | violated pjr¶level 3¶candidates 1,2,3¶within 3,4¶voters 2 of 2¶2: 1,2,3,4
check --property ejr --committee 3,4,5 | violated ejr¶level 3¶candidates 1,2,3¶voters 2 of 2¶2: 1,2,3,4
check --property pjr --committee 1,2,3 | holds
check --property ejr --committee 1,2,3 | holds
// Three candidates in common. Of the other three each voter approves two, and all voters together all three.
< # DATA TYPE: cat¶# NUMBER ALTERNATIVES: 6¶1: {1,2,3,4,5}¶1: {1,2,3,5,6}¶1: {1,2,3,4,6}¶
check --property jr --committee 4,5,6 | holds
check --property pjr --committee 4,5,6 | holds
check --property ejr --committee 4,5,6 | violated ejr¶level 3¶candidates 1,2,3¶voters 3 of 3¶1: 1,2,3,4,5¶1: 1,2,3,5,6¶1: 1,2,3,4,6
check --property ejr --committee 1,2,3 | holds
check --property ejr --committee 1,2,3,4,5,6 | holds
// Rankings: approvals come with the words.
< # DATA TYPE: soc¶# NUMBER ALTERNATIVES: 4¶3: 1,2,3,4¶1: 3,4,1,2¶
check --property jr --committee 3,4 --setsize 2 | violated jr¶level 1¶candidates 1¶voters 3 of 4¶3: 1,2
check --property pjr --committee 3,4 --setsize 2 | violated pjr¶level 1¶candidates 1¶within -¶voters 3 of 4¶3: 1,2
check --property jr --committee 3,4 | violated jr¶level 1¶candidates 1¶voters 3 of 4¶3: 1
check --property jr --committee 3,4 --setsize 3 | holds
check --property ejr --committee 3,4 --setsize 3 | holds
check --property ejr --committee 3,4 --classes 4 | holds
// Groups that are just large enough, or one voter too small.
< # DATA TYPE: cat¶# NUMBER ALTERNATIVES: 4¶2: {1,2,3}¶
check --property jr --committee 3,4 | holds
check --property pjr --committee 3,4 | violated pjr¶level 2¶candidates 1,2¶within 3¶voters 2 of 2¶2: 1,2,3
check --property ejr --committee 3,4 | violated ejr¶level 2¶candidates 1,2¶voters 2 of 2¶2: 1,2,3
< # DATA TYPE: cat¶# NUMBER ALTERNATIVES: 4¶2: {1,2,4}¶
check --property pjr --committee 3,4 | violated pjr¶level 2¶candidates 1,2¶within 4¶voters 2 of 2¶2: 1,2,4
< # DATA TYPE: cat¶# NUMBER ALTERNATIVES: 4¶1: {1}¶2: {2}¶1: {3}¶
check --property jr --committee 1,3 | violated jr¶level 1¶candidates 2¶voters 2 of 4¶2: 2
< # DATA TYPE: cat¶# NUMBER ALTERNATIVES: 3¶2: {1}¶1: {1,2}¶1: {3}¶
check --property jr --committee 2,3 | violated jr¶level 1¶candidates 1¶voters 2 of 4¶2: 1
< # DATA TYPE: cat¶# NUMBER ALTERNATIVES: 4¶1: {4,1}¶1: {2,1}¶2: {1}¶
check --property jr --committee 2,3 | violated jr¶level 1¶candidates 1¶voters 3 of 4¶1: 1,4¶2: 1
< # DATA TYPE: cat¶# NUMBER ALTERNATIVES: 6¶2: {1,2,4}¶2: {1,2,3}¶
check --property pjr --committee 3,4,5,6 | violated pjr¶level 2¶candidates 1,2¶within 3¶voters 2 of 4¶2: 1,2,3
check --property ejr --committee 3,4,5,6 | violated ejr¶level 2¶candidates 1,2¶voters 4 of 4¶2: 1,2,4¶2: 1,2,3
< # DATA TYPE: cat¶# NUMBER ALTERNATIVES: 3¶2: {1}¶1: {}¶1: {3}¶
check --property jr --committee 2,3 | violated jr¶level 1¶candidates 1¶voters 2 of 4¶2: 1
< # DATA TYPE: cat¶# NUMBER ALTERNATIVES: 3¶2: {1}¶2: {}¶1: {3}¶
check --property jr --committee 2,3 | holds
check --property pjr --committee 2,3 | holds
< # DATA TYPE: cat¶# NUMBER ALTERNATIVES: 3¶2: {1}¶2:¶1: {3}¶
check --property ejr --committee 2,3 | holds
< # DATA TYPE: cat¶# NUMBER ALTERNATIVES: 3¶5: {}¶
check --property jr --committee 2 | holds
check --property pjr --committee 2,3 | holds
check --property ejr --committee 1,3 | holds
< # DATA TYPE: cat¶# NUMBER ALTERNATIVES: 1¶1: {1}¶
check --property ejr --committee 1 | holds
< # DATA TYPE: cat¶# NUMBER ALTERNATIVES: 1¶1: {}¶
check --property pjr --committee 1 | holds
< # DATA TYPE: cat¶# NUMBER ALTERNATIVES: 2¶4294967296: {1}¶
check --property jr --committee 2 | violated jr¶level 1¶candidates 1¶voters 4294967296 of 4294967296¶4294967296: 1
check --property ejr --committee 1 | holds
< # DATA TYPE: cat¶# NUMBER ALTERNATIVES: 2¶4294967295: {1}¶1: {2}¶
check --property jr --committee 2 | holds
< # DATA TYPE: cat¶# NUMBER ALTERNATIVES: 3¶2147483648: {1}¶2147483648: {2}¶
check --property pjr --committee 2,3 | violated pjr¶level 1¶candidates 1¶within -¶voters 2147483648 of 4294967296¶2147483648: 1
< # DATA TYPE: cat¶# NUMBER ALTERNATIVES: 3¶2147483647: {1}¶2147483649: {2}¶
check --property pjr --committee 2,3 | holds
< # DATA TYPE: cat¶# NUMBER ALTERNATIVES: 4¶2: 1,2¶1: 2,1¶1: 3¶
check --property jr --committee 3,4 --kind soi --setsize 2 | violated jr¶level 1¶candidates 1¶voters 3 of 4¶3: 1,2
check --property ejr --committee 3,4 --kind soi | violated ejr¶level 1¶candidates 1¶voters 2 of 4¶2: 1
// The largest committees.
< # DATA TYPE: cat¶# NUMBER ALTERNATIVES: 40¶1: {40}¶
check --property jr --committee [1..40] | holds
check --property jr --committee [1..39] | violated jr¶level 1¶candidates 40¶voters 1 of 1¶1: 40
< # DATA TYPE: cat¶# NUMBER ALTERNATIVES: 64¶1: {41,64}¶
check --property jr --committee [1..40] | violated jr¶level 1¶candidates 41¶voters 1 of 1¶1: 41,64
check --property jr --committee 41,64 | holds
check --property pjr --committee 41,64 | holds
check --property ejr --committee 41,64 | holds
check --property ejrplus --committee 41,64 | holds
// Forty voters who approve one candidate each.
< # DATA TYPE: cat¶# NUMBER ALTERNATIVES: 40¶1: {1}¶1: {2}¶1: {3}¶1: {4}¶1: {5}¶1: {6}¶1: {7}¶1: {8}¶1: {9}¶1: {10}¶1: {11}¶1: {12}¶1: {13}¶1: {14}¶1: {15}¶1: {16}¶1: {17}¶1: {18}¶1: {19}¶1: {20}¶1: {21}¶1: {22}¶1: {23}¶1: {24}¶1: {25}¶1: {26}¶1: {27}¶1: {28}¶1: {29}¶1: {30}¶1: {31}¶1: {32}¶1: {33}¶1: {34}¶1: {35}¶1: {36}¶1: {37}¶1: {38}¶1: {39}¶1: {40}¶
check --property jr --committee [1..20] | holds
check --property pjr --committee [1..20] | holds
check --property ejr --committee [1..20] | holds
check --property ejrplus --committee [1..20] | holds
// Twenty voters who have 21 to 40 in common, each with a member of their own.
< # DATA TYPE: cat¶# NUMBER ALTERNATIVES: 40¶1: {1,[21..40]}¶1: {2,[21..40]}¶1: {3,[21..40]}¶1: {4,[21..40]}¶1: {5,[21..40]}¶1: {6,[21..40]}¶1: {7,[21..40]}¶1: {8,[21..40]}¶1: {9,[21..40]}¶1: {10,[21..40]}¶1: {11,[21..40]}¶1: {12,[21..40]}¶1: {13,[21..40]}¶1: {14,[21..40]}¶1: {15,[21..40]}¶1: {16,[21..40]}¶1: {17,[21..40]}¶1: {18,[21..40]}¶1: {19,[21..40]}¶1: {20,[21..40]}¶
check --property jr --committee [1..20] | holds
check --property pjr --committee [1..20] | holds
< # DATA TYPE: cat¶# NUMBER ALTERNATIVES: 40¶1: {[1..40]}¶
check --property jr --committee [1..8] | holds
check --property pjr --committee [1..8] | holds
check --property ejr --committee [1..8] | holds
check --property ejrplus --committee [1..8] | holds
// Lists that are no committee.
< # DATA TYPE: cat¶# NUMBER ALTERNATIVES: 4¶3: {1,2}¶1: {3,4}¶
check --property jr --committee 3,1 | committees: request: CommitteeMisfit
check --property pjr --committee 2,1 | committees: request: CommitteeMisfit
check --property ejr --committee 4,3,2,1 | committees: request: CommitteeMisfit
check --property ejrplus --committee 1,1 | committees: request: CommitteeMisfit
check --property jr --committee 1,2,2 | committees: request: CommitteeMisfit
check --property pjr --committee 0 | committees: request: CommitteeMisfit
check --property ejr --committee 0,1 | committees: request: CommitteeMisfit
check --property ejrplus --committee 5 | committees: request: CommitteeMisfit
check --property jr --committee 1,5 | committees: request: CommitteeMisfit
check --property pjr --committee 1,2,3,4,5 | committees: request: CommitteeMisfit
check --property ejr --committee 257 | committees: request: CommitteeMisfit
check --property ejrplus --committee 4294967297 | committees: request: CommitteeMisfit
check --property jr --committee 18446744073709551615 | committees: request: CommitteeMisfit
< # DATA TYPE: cat¶# NUMBER ALTERNATIVES: 3¶# NUMBER CATEGORIES: 2¶2: {1,2},3¶1: 3,{1,2}¶
check --property jr --committee 3,1 | committees: request: CommitteeMisfit
< # DATA TYPE: cat¶# NUMBER ALTERNATIVES: 40¶1: {1}¶
check --property jr --committee [1..41] | committees: request: CommitteeMisfit
< # DATA TYPE: cat¶# NUMBER ALTERNATIVES: 41¶1: {1}¶
check --property jr --committee [1..41] | committees: request: CommitteeMisfit
< # DATA TYPE: cat¶# NUMBER ALTERNATIVES: 64¶1: {1}¶
check --property jr --committee [1..41] | committees: request: CommitteeMisfit
// The input is tested before the committee.
<
check --property jr --committee 3,1 | committees: input: NoAlternatives
< # DATA TYPE: cat¶# NUMBER ALTERNATIVES: 4¶3: {1,2}¶1: {3,4}¶
check --property jr --committee 0 --setsize 2 | committees: input line 3: PickMisfit";

#[test]
fn properties_and_reports(rt: HostRuntime) {
    super::assert_table(&rt, rt.alloc(), CHECKS);
}
