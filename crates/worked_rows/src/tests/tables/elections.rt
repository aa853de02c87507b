//! Elections by every rule.

/// Winners and their scores.
static ELECTIONS: &str = "\
// Two voters approve 1 and 2, and one voter approves 3.
< # DATA TYPE: cat¶# NUMBER ALTERNATIVES: 3¶# NUMBER CATEGORIES: 2¶2: {1,2},3¶1: 3,{1,2}¶
elect --rule av --size 1 | rule av¶size 1¶score 2/1¶1¶2¶end
elect --rule av --size 2 | rule av¶size 2¶score 4/1¶1,2¶end
elect --rule pav --size 2 | rule pav¶size 2¶score 6/2¶1,2¶1,3¶2,3¶end
elect --rule cc --size 2 | rule cc¶size 2¶score 3/1¶1,3¶2,3¶end
elect --rule sav --size 1 | rule sav¶size 1¶score 6/6¶1¶2¶3¶end
elect --rule minimax --size 1 | rule minimax¶size 1¶distance 2¶1¶2¶end
elect --rule minimax --size 2 | rule minimax¶size 2¶distance 2¶1,3¶2,3¶end
elect --rule geom3 --size 2 | rule geom3¶size 2¶score 9/3¶1,3¶2,3¶end
elect --rule geom2 --size 2 | rule geom2¶size 2¶score 6/2¶1,2¶1,3¶2,3¶end
elect --rule geom4 --size 2 | rule geom4¶size 2¶score 12/4¶1,3¶2,3¶end
elect --rule av --size 3 | rule av¶size 3¶score 5/1¶1,2,3¶end
elect --rule pav --size 3 | rule pav¶size 3¶score 24/6¶1,2,3¶end
elect --rule seqpav --size 2 | rule seqpav¶size 2¶1,2¶1,3¶2,3¶end
elect --rule revseqpav --size 1 | rule revseqpav¶size 1¶1¶2¶end
elect --rule seqcc --size 1 | rule seqcc¶size 1¶1¶2¶end
// Two groups of voters with nothing in common.
< # DATA TYPE: cat¶# NUMBER ALTERNATIVES: 4¶3: {1,2}¶1: {3,4}¶
elect --rule pav --size 2 | rule pav¶size 2¶score 9/2¶1,2¶end
elect --rule cc --size 2 | rule cc¶size 2¶score 4/1¶1,3¶1,4¶2,3¶2,4¶end
elect --rule sav --size 2 | rule sav¶size 2¶score 36/12¶1,2¶end
elect --rule minimax --size 2 | rule minimax¶size 2¶distance 2¶1,3¶1,4¶2,3¶2,4¶end
elect --rule seqpav --size 2 | rule seqpav¶size 2¶1,2¶end
elect --rule seqcc --size 2 | rule seqcc¶size 2¶1,3¶1,4¶2,3¶2,4¶end
elect --rule revseqpav --size 3 | rule revseqpav¶size 3¶1,2,3¶1,2,4¶end
elect --rule revseqpav --size 4 | rule revseqpav¶size 4¶1,2,3,4¶end
// Ballots that overlap.
< # DATA TYPE: cat¶# NUMBER ALTERNATIVES: 3¶2: {1,2}¶2: {1,3}¶1: {2}¶1: {3}¶
elect --rule pav --size 2 | rule pav¶size 2¶score 12/2¶1,2¶1,3¶2,3¶end
elect --rule cc --size 2 | rule cc¶size 2¶score 6/1¶2,3¶end
elect --rule seqpav --size 2 | rule seqpav¶size 2¶1,2¶1,3¶end
elect --rule revseqpav --size 2 | rule revseqpav¶size 2¶1,2¶1,3¶2,3¶end
elect --rule seqcc --size 2 | rule seqcc¶size 2¶1,2¶1,3¶end
// The tie comes at the second step.
< # DATA TYPE: cat¶# NUMBER ALTERNATIVES: 4¶3: {1}¶1: {2}¶1: {3}¶
elect --rule seqpav --size 2 | rule seqpav¶size 2¶1,2¶1,3¶end
elect --rule seqcc --size 2 | rule seqcc¶size 2¶1,2¶1,3¶end
elect --rule seqcc --size 3 | rule seqcc¶size 3¶1,2,3¶end
elect --rule revseqpav --size 2 | rule revseqpav¶size 2¶1,2¶1,3¶end
// An empty class before the candidates.
< # DATA TYPE: toi¶# NUMBER ALTERNATIVES: 3¶5: {},2,1¶
elect --rule sav --size 1 --classes 1 | rule sav¶size 1¶score 0/6¶1¶2¶3¶end
elect --rule sav --size 1 | rule sav¶size 1¶score 30/6¶2¶end
elect --rule sav --size 1 --setsize 2 | rule sav¶size 1¶score 15/6¶1¶2¶end
// Each choice is tied: all 924 committees are reached.
< # NUMBER ALTERNATIVES: 12¶3: {[1..12]}¶
elect --rule seqpav --size 6 --kind cat --limit 2 | rule seqpav¶size 6¶[1..6]¶[1..5],7¶more
elect --rule seqpav --size 6 --kind cat --after 6,[8..12] | rule seqpav¶size 6¶[7..12]¶end
elect --rule revseqpav --size 6 --kind cat --limit 2 | rule revseqpav¶size 6¶[1..6]¶[1..5],7¶more
elect --rule revseqpav --size 6 --kind cat --after 6,[8..12] | rule revseqpav¶size 6¶[7..12]¶end
// The greatest values over 40 candidates: all voters that there can be approve all.
< # DATA TYPE: cat¶# NUMBER ALTERNATIVES: 40¶4294967296: {[1..40]}¶
elect --rule av --size 2 --limit 2 | rule av¶size 2¶score 8589934592/1¶1,2¶1,3¶more
elect --rule pav --size 2 --limit 2 | rule pav¶size 2¶score 12884901888/2¶1,2¶1,3¶more
elect --rule cc --size 2 --limit 2 | rule cc¶size 2¶score 4294967296/1¶1,2¶1,3¶more
elect --rule geom2 --size 2 --limit 2 | rule geom2¶size 2¶score 12884901888/2¶1,2¶1,3¶more
elect --rule geom3 --size 2 --limit 2 | rule geom3¶size 2¶score 17179869184/3¶1,2¶1,3¶more
elect --rule geom4 --size 2 --limit 2 | rule geom4¶size 2¶score 21474836480/4¶1,2¶1,3¶more
elect --rule sav --size 2 --limit 2 | rule sav¶size 2¶score 1147385793642803610255360/5342931457063200¶1,2¶1,3¶more
elect --rule minimax --size 2 --limit 2 | rule minimax¶size 2¶distance 38¶1,2¶1,3¶more
elect --rule av --size 40 | rule av¶size 40¶score 171798691840/1¶[1..40]¶end
elect --rule geom4 --size 40 | rule geom4¶size 40¶score 1730765619511609209510164011417600/302231454903657293676544¶[1..40]¶end
< # DATA TYPE: cat¶# NUMBER ALTERNATIVES: 40¶4294967296: {[1..40]}¶1: 1¶
elect --rule av --size 40 | committees: input line 4: TooManyVoters
// Of 64 candidates, three voters approve 1 and 64, two approve 63 and 64, and one approves 2.
< # DATA TYPE: cat¶# NUMBER ALTERNATIVES: 64¶3: {1,64}¶2: {63,64}¶1: {2}¶
elect --rule av --size 2 | rule av¶size 2¶score 8/1¶1,64¶end
elect --rule pav --size 2 | rule pav¶size 2¶score 13/2¶1,64¶end
elect --rule cc --size 2 | rule cc¶size 2¶score 6/1¶2,64¶end
elect --rule geom2 --size 2 | rule geom2¶size 2¶score 13/2¶1,64¶end
elect --rule geom3 --size 2 | rule geom3¶size 2¶score 18/3¶1,64¶2,64¶end
elect --rule geom4 --size 2 | rule geom4¶size 2¶score 24/4¶2,64¶end
elect --rule sav --size 2 | rule sav¶size 2¶score 4729067536411289070045446400/1182266884102822267511361600¶1,64¶end
elect --rule minimax --size 2 | rule minimax¶size 2¶distance 2¶2,64¶end
elect --rule seqpav --size 2 | rule seqpav¶size 2¶1,64¶end
elect --rule seqcc --size 2 | rule seqcc¶size 2¶2,64¶end
// One candidate less in turn: each is approved by more voters than the next.
< # DATA TYPE: cat¶# NUMBER ALTERNATIVES: 64¶64: {1}¶63: {2}¶62: {3}¶61: {4}¶60: {5}¶59: {6}¶58: {7}¶57: {8}¶56: {9}¶55: {10}¶54: {11}¶53: {12}¶52: {13}¶51: {14}¶50: {15}¶49: {16}¶48: {17}¶47: {18}¶46: {19}¶45: {20}¶44: {21}¶43: {22}¶42: {23}¶41: {24}¶40: {25}¶39: {26}¶38: {27}¶37: {28}¶36: {29}¶35: {30}¶34: {31}¶33: {32}¶32: {33}¶31: {34}¶30: {35}¶29: {36}¶28: {37}¶27: {38}¶26: {39}¶25: {40}¶24: {41}¶23: {42}¶22: {43}¶21: {44}¶20: {45}¶19: {46}¶18: {47}¶17: {48}¶16: {49}¶15: {50}¶14: {51}¶13: {52}¶12: {53}¶11: {54}¶10: {55}¶9: {56}¶8: {57}¶7: {58}¶6: {59}¶5: {60}¶4: {61}¶3: {62}¶2: {63}¶1: {64}¶
elect --rule revseqpav --size 1 | rule revseqpav¶size 1¶1¶end
elect --rule revseqpav --size 3 | rule revseqpav¶size 3¶1,2,3¶end
// The greatest denominator of satisfaction approval voting.
< # DATA TYPE: cat¶# NUMBER ALTERNATIVES: 64¶4294967296: {1}¶
elect --rule sav --size 1 | rule sav¶size 1¶score 5077797602365443940261861380430233600/1182266884102822267511361600¶1¶end
// All committees of 64 candidates tie.
< # DATA TYPE: cat¶# NUMBER ALTERNATIVES: 64¶1: {[1..64]}¶
elect --rule sav --size 1 --limit 1 | rule sav¶size 1¶score 18472920064106597929865025/1182266884102822267511361600¶1¶more
elect --rule av --size 40 --limit 1 | rule av¶size 40¶score 40/1¶[1..40]¶more
elect --rule av --size 4 --limit 1 --after 1,2,3,64 | rule av¶size 4¶score 4/1¶1,2,4,5¶more
// A walk over all 137,846,528,820 committees would not end.
< # DATA TYPE: cat¶# NUMBER ALTERNATIVES: 40¶1: {[1..20]}¶
elect --rule av --size 20 | rule av¶size 20¶score 20/1¶[1..20]¶end
// A grid: voters approve a row or a column. Each row and each column has three or four members, and nothing is better.
// A search that does not count this at once takes a minute.
< # DATA TYPE: cat¶# NUMBER ALTERNATIVES: 42¶1: {[1..7]}¶1: {[8..14]}¶1: {[15..21]}¶1: {[22..28]}¶1: {[29..35]}¶1: {[36..42]}¶1: {1,8,15,22,29,36}¶1: {2,9,16,23,30,37}¶1: {3,10,17,24,31,38}¶1: {4,11,18,25,32,39}¶1: {5,12,19,26,33,40}¶1: {6,13,20,27,34,41}¶1: {7,14,21,28,35,42}¶
elect --rule pav --size 23 --limit 1 | rule pav¶size 23¶score 136979022180/5354228880¶1,2,3,4,8,9,10,11,15,16,17,18,22,26,27,28,30,33,34,35,40,41,42¶more";

#[test]
fn winners_and_scores(rt: HostRuntime) {
    super::assert_table(&rt, rt.alloc(), ELECTIONS);
}
