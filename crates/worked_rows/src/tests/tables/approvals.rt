//! The candidates that count as approved, by the type of the file and the way in the words.

/// One ballot each, and who wins one seat by it.
static APPROVALS: &str = "\
< # DATA TYPE: soc¶# NUMBER ALTERNATIVES: 3¶4: {2,3},1¶
elect --rule av --size 1 --kind toc --setsize 1 | rule av¶size 1¶score 4/1¶2¶3¶end
< # DATA TYPE: soc¶# NUMBER ALTERNATIVES: 3¶4: {2,3},1¶
elect --rule av --size 1 --kind toc --setsize 2 | rule av¶size 1¶score 4/1¶2¶3¶end
< # DATA TYPE: soc¶# NUMBER ALTERNATIVES: 3¶4: {2,3},1¶
elect --rule av --size 1 --kind toc --setsize 3 | rule av¶size 1¶score 4/1¶1¶2¶3¶end
< # DATA TYPE: soc¶# NUMBER ALTERNATIVES: 3¶4: {2,3},1¶
elect --rule av --size 1 --kind toc --setsize 1000000 | rule av¶size 1¶score 4/1¶1¶2¶3¶end
< # DATA TYPE: soc¶# NUMBER ALTERNATIVES: 3¶4: {},{},{1,3},2¶
elect --rule av --size 1 --kind toc | rule av¶size 1¶score 4/1¶1¶3¶end
< # DATA TYPE: soc¶# NUMBER ALTERNATIVES: 3¶4: {},{},{1,3},2¶
elect --rule av --size 1 --kind toc --classes 2 | rule av¶size 1¶score 0/1¶1¶2¶3¶end
< # DATA TYPE: soc¶# NUMBER ALTERNATIVES: 3¶4: {},{},{1,3},2¶
elect --rule av --size 1 --kind toc --classes 3 | rule av¶size 1¶score 4/1¶1¶3¶end
< # DATA TYPE: soc¶# NUMBER ALTERNATIVES: 3¶4: 3,1,2¶
elect --rule av --size 1 | rule av¶size 1¶score 4/1¶3¶end
< # DATA TYPE: soc¶# NUMBER ALTERNATIVES: 3¶4: 3,{1},2¶
elect --rule av --size 1 --kind soc --setsize 2 | rule av¶size 1¶score 4/1¶1¶3¶end
< # DATA TYPE: soc¶# NUMBER ALTERNATIVES: 3¶4: 3,{1},2¶
elect --rule av --size 1 --kind soc --classes 2 | rule av¶size 1¶score 4/1¶1¶3¶end
< # DATA TYPE: soc¶# NUMBER ALTERNATIVES: 3¶4: 3,{1},2¶
elect --rule av --size 1 --kind soc --classes 1000000 | rule av¶size 1¶score 4/1¶1¶2¶3¶end
< # DATA TYPE: soc¶# NUMBER ALTERNATIVES: 3¶4: 2¶
elect --rule av --size 1 --kind soi | rule av¶size 1¶score 4/1¶2¶end
< # DATA TYPE: soc¶# NUMBER ALTERNATIVES: 3¶4: ¶
elect --rule av --size 1 --kind soi | rule av¶size 1¶score 0/1¶1¶2¶3¶end
< # DATA TYPE: soc¶# NUMBER ALTERNATIVES: 3¶4: ¶
elect --rule av --size 1 --kind soi --setsize 2 | rule av¶size 1¶score 0/1¶1¶2¶3¶end
< # DATA TYPE: soc¶# NUMBER ALTERNATIVES: 3¶4: 2,1¶
elect --rule av --size 1 --kind soi --setsize 3 | rule av¶size 1¶score 4/1¶1¶2¶end
< # DATA TYPE: soc¶# NUMBER ALTERNATIVES: 3¶4: 2,1¶
elect --rule av --size 1 --kind soi --classes 1 | rule av¶size 1¶score 4/1¶2¶end
< # DATA TYPE: soc¶# NUMBER ALTERNATIVES: 3¶4: {},2,1¶
elect --rule av --size 1 --kind toi | rule av¶size 1¶score 4/1¶2¶end
< # DATA TYPE: soc¶# NUMBER ALTERNATIVES: 3¶4: {},2,1¶
elect --rule av --size 1 --kind toi --setsize 1 | rule av¶size 1¶score 4/1¶2¶end
< # DATA TYPE: soc¶# NUMBER ALTERNATIVES: 3¶4: {},2,1¶
elect --rule av --size 1 --kind toi --classes 1 | rule av¶size 1¶score 0/1¶1¶2¶3¶end
< # DATA TYPE: soc¶# NUMBER ALTERNATIVES: 3¶4: {},2,1¶
elect --rule av --size 1 --kind toi --classes 2 | rule av¶size 1¶score 4/1¶2¶end
< # DATA TYPE: soc¶# NUMBER ALTERNATIVES: 3¶4: 2,{1,3}¶
elect --rule av --size 1 --kind toi --setsize 2 | rule av¶size 1¶score 4/1¶1¶2¶3¶end
< # DATA TYPE: soc¶# NUMBER ALTERNATIVES: 3¶4: {2,1},3¶
elect --rule av --size 1 --kind cat | rule av¶size 1¶score 4/1¶1¶2¶end
< # DATA TYPE: soc¶# NUMBER ALTERNATIVES: 3¶4: {},2,1¶
elect --rule av --size 1 --kind cat | rule av¶size 1¶score 0/1¶1¶2¶3¶end
< # DATA TYPE: soc¶# NUMBER ALTERNATIVES: 3¶4: 3,{1,2}¶
elect --rule av --size 1 --kind cat --category 1 | rule av¶size 1¶score 4/1¶3¶end
< # DATA TYPE: soc¶# NUMBER ALTERNATIVES: 3¶4: 3,{1,2}¶
elect --rule av --size 1 --kind cat --category 2 | rule av¶size 1¶score 4/1¶1¶2¶end
< # DATA TYPE: soc¶# NUMBER ALTERNATIVES: 3¶4: 3,{1,2}¶
elect --rule av --size 1 --kind cat --category 3 | rule av¶size 1¶score 0/1¶1¶2¶3¶end
< # DATA TYPE: soc¶# NUMBER ALTERNATIVES: 3¶4: 3,{1,2}¶
elect --rule av --size 1 --kind cat --category 1000000 | rule av¶size 1¶score 0/1¶1¶2¶3¶end
// Ballots with the same approvals.
< # NUMBER ALTERNATIVES: 3¶2: 1,2¶5:¶3: 3¶1: {2,1},3¶7: {}¶1: 2,{},1¶
elect --rule av --size 1 --kind toi --setsize 2 | rule av¶size 1¶score 4/1¶1¶2¶end
check --property jr --committee 3 --kind toi --setsize 2 | holds
< # NUMBER ALTERNATIVES: 3¶5: {},2,1¶
elect --rule av --size 1 --kind toi | rule av¶size 1¶score 5/1¶2¶end
elect --rule av --size 1 --kind toi --setsize 2 | rule av¶size 1¶score 5/1¶1¶2¶end
elect --rule av --size 1 --kind toi --classes 1 | rule av¶size 1¶score 0/1¶1¶2¶3¶end
< # DATA TYPE: soc¶# NUMBER ALTERNATIVES: 3¶4: {2,3},1¶
elect --rule av --size 2 --kind toc --setsize 1 | rule av¶size 2¶score 8/1¶2,3¶end
elect --rule av --size 1 --kind toc --setsize 3 | rule av¶size 1¶score 4/1¶1¶2¶3¶end
// A file of each type, where the last two of 64 candidates stand first.
< # NUMBER ALTERNATIVES: 64¶2: {63,64}¶
elect --rule av --size 1 --kind cat --category 1 | rule av¶size 1¶score 2/1¶63¶64¶end
< # NUMBER ALTERNATIVES: 64¶2: [64..1]¶
elect --rule av --size 1 --kind soc --classes 1 | rule av¶size 1¶score 2/1¶64¶end
< # NUMBER ALTERNATIVES: 64¶2: 64,63¶
elect --rule av --size 1 --kind soi --classes 1 | rule av¶size 1¶score 2/1¶64¶end
< # NUMBER ALTERNATIVES: 64¶2: {63,64},[62..1]¶
elect --rule av --size 1 --kind toc --classes 1 | rule av¶size 1¶score 2/1¶63¶64¶end
< # NUMBER ALTERNATIVES: 64¶2: {63,64},1¶
elect --rule av --size 1 --kind toi --classes 1 | rule av¶size 1¶score 2/1¶63¶64¶end
// What the type is by the name of the file.
< # NUMBER ALTERNATIVES: 3¶1: {},{1,2}¶
elect --rule av --size 1 votes | committees: input line 2: NoKind
elect --rule av --size 1 cat | committees: input line 2: NoKind
elect --rule av --size 1 votes. | committees: input line 2: NoKind
elect --rule av --size 1 votes.cat.txt | committees: input line 2: NoKind
elect --rule av --size 1 votes.cat. | committees: input line 2: NoKind
elect --rule av --size 1 votes.cats | committees: input line 2: NoKind
elect --rule av --size 1 votes.cat/a | committees: input line 2: NoKind
elect --rule av --size 1 votes.cat/ | committees: input line 2: NoKind
elect --rule av --size 1 votes.soc | committees: input line 2: NotStrict
elect --rule av --size 1 votes.soi | committees: input line 2: NotStrict
elect --rule av --size 1 votes.toc | committees: input line 2: Incomplete
elect --rule av --size 1 --kind toc votes.cat | committees: input line 2: Incomplete
elect --rule av --size 1 votes.cat | rule av¶size 1¶score 0/1¶1¶2¶3¶end
elect --rule av --size 1 .CAT | rule av¶size 1¶score 0/1¶1¶2¶3¶end
elect --rule av --size 1 a.toi/b.Cat | rule av¶size 1¶score 0/1¶1¶2¶3¶end
elect --rule av --size 1 votes.toi | rule av¶size 1¶score 1/1¶1¶2¶end
elect --rule av --size 1 a.cat.tOI | rule av¶size 1¶score 1/1¶1¶2¶end
elect --rule av --size 1 /a.b/.toi | rule av¶size 1¶score 1/1¶1¶2¶end
elect --rule av --size 1 --kind toi votes.soc | rule av¶size 1¶score 1/1¶1¶2¶end";

#[test]
fn ways_and_types(rt: HostRuntime) {
    super::assert_table(&rt, rt.alloc(), APPROVALS);
}
