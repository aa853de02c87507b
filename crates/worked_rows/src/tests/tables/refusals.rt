//! Inputs that are refused, each with the line and the name of its fault.

/// Files with a fault.
static REFUSALS: &str = "\
// no number of alternatives
< # DATA TYPE: cat¶# NUMBER ALTERNATIVES: ¶# NUMBER CATEGORIES: 2¶1: 1¶
elect --rule av --size 1 | committees: input line 2: BadNumber
// no alternative
< # DATA TYPE: cat¶# NUMBER ALTERNATIVES: 0¶# NUMBER CATEGORIES: 2¶1: 1¶
elect --rule av --size 1 | committees: input line 2: BadNumber
// a signed number
< # DATA TYPE: cat¶# NUMBER ALTERNATIVES: +3¶# NUMBER CATEGORIES: 2¶1: 1¶
elect --rule av --size 1 | committees: input line 2: BadNumber
// two numbers
< # DATA TYPE: cat¶# NUMBER ALTERNATIVES: 3 3¶# NUMBER CATEGORIES: 2¶1: 1¶
elect --rule av --size 1 | committees: input line 2: BadNumber
// a second colon
< # DATA TYPE: cat¶# NUMBER ALTERNATIVES: 3: 3¶# NUMBER CATEGORIES: 2¶1: 1¶
elect --rule av --size 1 | committees: input line 2: BadNumber
// a return before the end
< # DATA TYPE: cat¶# NUMBER ALTERNATIVES: 3\r\r¶# NUMBER CATEGORIES: 2¶1: 1¶
elect --rule av --size 1 | committees: input line 2: BadNumber
// 65 alternatives
< # DATA TYPE: cat¶# NUMBER ALTERNATIVES: 65¶# NUMBER CATEGORIES: 2¶1: 1¶
elect --rule av --size 1 | committees: input line 2: TooManyCandidates
// 256 and 3 alternatives
< # DATA TYPE: cat¶# NUMBER ALTERNATIVES: 259¶# NUMBER CATEGORIES: 2¶1: 1¶
elect --rule av --size 1 | committees: input line 2: TooManyCandidates
// 2^64 and 3 alternatives
< # DATA TYPE: cat¶# NUMBER ALTERNATIVES: 18446744073709551619¶# NUMBER CATEGORIES: 2¶1: 1¶
elect --rule av --size 1 | committees: input line 2: TooManyCandidates
// other alternatives
< # DATA TYPE: cat¶# NUMBER ALTERNATIVES: 3¶# NUMBER ALTERNATIVES: 4¶# NUMBER CATEGORIES: 2¶1: 1¶
elect --rule av --size 1 | committees: input line 3: ConflictingKey
// other and bad alternatives
< # DATA TYPE: cat¶# NUMBER ALTERNATIVES: 3¶# NUMBER ALTERNATIVES: 0¶# NUMBER CATEGORIES: 2¶1: 1¶
elect --rule av --size 1 | committees: input line 3: BadNumber
// other and many alternatives
< # DATA TYPE: cat¶# NUMBER ALTERNATIVES: 3¶# NUMBER ALTERNATIVES: 65¶# NUMBER CATEGORIES: 2¶1: 1¶
elect --rule av --size 1 | committees: input line 3: TooManyCandidates
// no number of categories
< # DATA TYPE: cat¶# NUMBER ALTERNATIVES: 3¶# NUMBER CATEGORIES: ¶1: 1¶
elect --rule av --size 1 | committees: input line 3: BadNumber
// no category
< # DATA TYPE: cat¶# NUMBER ALTERNATIVES: 3¶# NUMBER CATEGORIES: 00¶1: 1¶
elect --rule av --size 1 | committees: input line 3: BadNumber
// a letter
< # DATA TYPE: cat¶# NUMBER ALTERNATIVES: 3¶# NUMBER CATEGORIES: 2x¶1: 1¶
elect --rule av --size 1 | committees: input line 3: BadNumber
// more than 2^32 categories
< # DATA TYPE: cat¶# NUMBER ALTERNATIVES: 3¶# NUMBER CATEGORIES: 4294967297¶1: 1¶
elect --rule av --size 1 | committees: input line 3: BadNumber
// 2^64 and 2 categories
< # DATA TYPE: cat¶# NUMBER ALTERNATIVES: 3¶# NUMBER CATEGORIES: 18446744073709551618¶1: 1¶
elect --rule av --size 1 | committees: input line 3: BadNumber
// other categories
< # DATA TYPE: cat¶# NUMBER ALTERNATIVES: 3¶# NUMBER CATEGORIES: 2¶#number categories:3¶1: 1¶
elect --rule av --size 1 | committees: input line 4: ConflictingKey
// other and many categories
< # DATA TYPE: cat¶# NUMBER ALTERNATIVES: 3¶# NUMBER CATEGORIES: 2¶#number categories:4294967297¶1: 1¶
elect --rule av --size 1 | committees: input line 4: BadNumber
< # DATA TYPE: cat¶# NUMBER ALTERNATIVES: 3¶
elect --rule av --size 1 | committees: input: NoVoters
// nothing
<
elect --rule av --size 1 | committees: input: NoAlternatives
// a mark alone
< \u{feff}
elect --rule av --size 1 | committees: input: NoAlternatives
// a blank line
< ¶
elect --rule av --size 1 --kind cat | committees: input: NoAlternatives
// the type alone
< # DATA TYPE: x¶
elect --rule av --size 1 | committees: input: NoAlternatives
// no ballot and no type
< # NUMBER ALTERNATIVES: 3
elect --rule av --size 1 | committees: input: NoVoters
// alternatives after a ballot
< 1: 1¶# NUMBER ALTERNATIVES: 1¶
elect --rule av --size 1 --kind cat | committees: input: NoAlternatives
// neither alternatives nor a type
< ¶¶x¶
elect --rule av --size 1 | committees: input: NoAlternatives
// two marks
< \u{feff}\u{feff}# NUMBER ALTERNATIVES: 1¶1: 1¶
elect --rule av --size 1 --kind cat | committees: input: NoAlternatives
// a mark after a blank
<  \u{feff}# NUMBER ALTERNATIVES: 1¶1: 1¶
elect --rule av --size 1 --kind cat | committees: input: NoAlternatives
// a line of returns
< \r\r¶# NUMBER ALTERNATIVES: 1¶1: 1¶
elect --rule av --size 1 --kind cat | committees: input: NoAlternatives
// no type
< # NUMBER ALTERNATIVES: 1¶1: 1¶
elect --rule av --size 1 | committees: input line 2: NoKind
// no type and no ballot's shape
< # NUMBER ALTERNATIVES: 1¶x¶
elect --rule av --size 1 --category 1 | committees: input line 2: NoKind
// another type
< # NUMBER ALTERNATIVES: 1¶# DATA TYPE: tog¶x¶
elect --rule av --size 1 --category 1 | committees: input line 3: BadKind
// an empty type after a good one
< # NUMBER ALTERNATIVES: 1¶# DATA TYPE: cat¶# DATA TYPE:¶1: 1¶
elect --rule av --size 1 | committees: input line 4: BadKind
// another type, and a name that tells one
< # NUMBER ALTERNATIVES: 1¶# DATA TYPE: cats¶1: 1¶
elect --rule av --size 1 a.cat | committees: input line 3: BadKind
// Lines that have not the shape of a ballot.
< # DATA TYPE: cat¶# NUMBER ALTERNATIVES: 3¶# NUMBER CATEGORIES: 2¶x
elect --rule av --size 1 | committees: input line 4: BadBallot
< # DATA TYPE: cat¶# NUMBER ALTERNATIVES: 3¶# NUMBER CATEGORIES: 2¶1
elect --rule av --size 1 | committees: input line 4: BadBallot
< # DATA TYPE: cat¶# NUMBER ALTERNATIVES: 3¶# NUMBER CATEGORIES: 2¶1 1
elect --rule av --size 1 | committees: input line 4: BadBallot
< # DATA TYPE: cat¶# NUMBER ALTERNATIVES: 3¶# NUMBER CATEGORIES: 2¶: 1
elect --rule av --size 1 | committees: input line 4: BadBallot
< # DATA TYPE: cat¶# NUMBER ALTERNATIVES: 3¶# NUMBER CATEGORIES: 2¶+1: 1
elect --rule av --size 1 | committees: input line 4: BadBallot
< # DATA TYPE: cat¶# NUMBER ALTERNATIVES: 3¶# NUMBER CATEGORIES: 2¶-1: 1
elect --rule av --size 1 | committees: input line 4: BadBallot
< # DATA TYPE: cat¶# NUMBER ALTERNATIVES: 3¶# NUMBER CATEGORIES: 2¶1.0: 1
elect --rule av --size 1 | committees: input line 4: BadBallot
< # DATA TYPE: cat¶# NUMBER ALTERNATIVES: 3¶# NUMBER CATEGORIES: 2¶1 1: 1
elect --rule av --size 1 | committees: input line 4: BadBallot
< # DATA TYPE: cat¶# NUMBER ALTERNATIVES: 3¶# NUMBER CATEGORIES: 2¶{1}: 1
elect --rule av --size 1 | committees: input line 4: BadBallot
< # DATA TYPE: cat¶# NUMBER ALTERNATIVES: 3¶# NUMBER CATEGORIES: 2¶1: 1: 2
elect --rule av --size 1 | committees: input line 4: BadBallot
< # DATA TYPE: cat¶# NUMBER ALTERNATIVES: 3¶# NUMBER CATEGORIES: 2¶1: a
elect --rule av --size 1 | committees: input line 4: BadBallot
< # DATA TYPE: cat¶# NUMBER ALTERNATIVES: 3¶# NUMBER CATEGORIES: 2¶1: 1 # 2
elect --rule av --size 1 | committees: input line 4: BadBallot
< # DATA TYPE: cat¶# NUMBER ALTERNATIVES: 3¶# NUMBER CATEGORIES: 2¶1: 1\u{b}
elect --rule av --size 1 | committees: input line 4: BadBallot
< # DATA TYPE: cat¶# NUMBER ALTERNATIVES: 3¶# NUMBER CATEGORIES: 2¶1: 1\r\r
elect --rule av --size 1 | committees: input line 4: BadBallot
< # DATA TYPE: cat¶# NUMBER ALTERNATIVES: 3¶# NUMBER CATEGORIES: 2¶1: \u{a0}1
elect --rule av --size 1 | committees: input line 4: BadBallot
< # DATA TYPE: cat¶# NUMBER ALTERNATIVES: 3¶# NUMBER CATEGORIES: 2¶1: 1 2
elect --rule av --size 1 | committees: input line 4: BadBallot
< # DATA TYPE: cat¶# NUMBER ALTERNATIVES: 3¶# NUMBER CATEGORIES: 2¶1: 1,
elect --rule av --size 1 | committees: input line 4: BadBallot
< # DATA TYPE: cat¶# NUMBER ALTERNATIVES: 3¶# NUMBER CATEGORIES: 2¶1: ,
elect --rule av --size 1 | committees: input line 4: BadBallot
< # DATA TYPE: cat¶# NUMBER ALTERNATIVES: 3¶# NUMBER CATEGORIES: 2¶1: ,1
elect --rule av --size 1 | committees: input line 4: BadBallot
< # DATA TYPE: cat¶# NUMBER ALTERNATIVES: 3¶# NUMBER CATEGORIES: 2¶1: 1,,2
elect --rule av --size 1 | committees: input line 4: BadBallot
< # DATA TYPE: cat¶# NUMBER ALTERNATIVES: 3¶# NUMBER CATEGORIES: 2¶1: {1
elect --rule av --size 1 | committees: input line 4: BadBallot
< # DATA TYPE: cat¶# NUMBER ALTERNATIVES: 3¶# NUMBER CATEGORIES: 2¶1: {
elect --rule av --size 1 | committees: input line 4: BadBallot
< # DATA TYPE: cat¶# NUMBER ALTERNATIVES: 3¶# NUMBER CATEGORIES: 2¶1: 1}
elect --rule av --size 1 | committees: input line 4: BadBallot
< # DATA TYPE: cat¶# NUMBER ALTERNATIVES: 3¶# NUMBER CATEGORIES: 2¶1: }
elect --rule av --size 1 | committees: input line 4: BadBallot
< # DATA TYPE: cat¶# NUMBER ALTERNATIVES: 3¶# NUMBER CATEGORIES: 2¶1: {1}2
elect --rule av --size 1 | committees: input line 4: BadBallot
< # DATA TYPE: cat¶# NUMBER ALTERNATIVES: 3¶# NUMBER CATEGORIES: 2¶1: {1}{2}
elect --rule av --size 1 | committees: input line 4: BadBallot
< # DATA TYPE: cat¶# NUMBER ALTERNATIVES: 3¶# NUMBER CATEGORIES: 2¶1: {{1}}
elect --rule av --size 1 | committees: input line 4: BadBallot
< # DATA TYPE: cat¶# NUMBER ALTERNATIVES: 3¶# NUMBER CATEGORIES: 2¶1: {1 2}
elect --rule av --size 1 | committees: input line 4: BadBallot
< # DATA TYPE: cat¶# NUMBER ALTERNATIVES: 3¶# NUMBER CATEGORIES: 2¶1: {1,}
elect --rule av --size 1 | committees: input line 4: BadBallot
< # DATA TYPE: cat¶# NUMBER ALTERNATIVES: 3¶# NUMBER CATEGORIES: 2¶1: {,1}
elect --rule av --size 1 | committees: input line 4: BadBallot
< # DATA TYPE: cat¶# NUMBER ALTERNATIVES: 3¶# NUMBER CATEGORIES: 2¶1: {1,,2}
elect --rule av --size 1 | committees: input line 4: BadBallot
< # DATA TYPE: cat¶# NUMBER ALTERNATIVES: 3¶# NUMBER CATEGORIES: 2¶1: {1:2}
elect --rule av --size 1 | committees: input line 4: BadBallot
< # DATA TYPE: cat¶# NUMBER ALTERNATIVES: 3¶# NUMBER CATEGORIES: 2¶0: 9,{1,1},
elect --rule av --size 1 | committees: input line 4: BadBallot
// Ballots.
< # DATA TYPE: cat¶# NUMBER ALTERNATIVES: 3¶# NUMBER CATEGORIES: 2¶0: 1
elect --rule av --size 1 | committees: input line 4: BadCount
< # DATA TYPE: cat¶# NUMBER ALTERNATIVES: 3¶# NUMBER CATEGORIES: 2¶00: 1,4,1,2,3
elect --rule av --size 1 | committees: input line 4: BadCount
< # DATA TYPE: cat¶# NUMBER ALTERNATIVES: 3¶# NUMBER CATEGORIES: 2¶4294967297: 1
elect --rule av --size 1 | committees: input line 4: BadCount
< # DATA TYPE: cat¶# NUMBER ALTERNATIVES: 3¶# NUMBER CATEGORIES: 2¶18446744073709551617: 1
elect --rule av --size 1 | committees: input line 4: BadCount
< # DATA TYPE: cat¶# NUMBER ALTERNATIVES: 3¶# NUMBER CATEGORIES: 2¶1: 0
elect --rule av --size 1 | committees: input line 4: NoSuchCandidate
< # DATA TYPE: cat¶# NUMBER ALTERNATIVES: 3¶# NUMBER CATEGORIES: 2¶1: 4
elect --rule av --size 1 | committees: input line 4: NoSuchCandidate
< # DATA TYPE: cat¶# NUMBER ALTERNATIVES: 3¶# NUMBER CATEGORIES: 2¶1: {1,4}
elect --rule av --size 1 | committees: input line 4: NoSuchCandidate
< # DATA TYPE: cat¶# NUMBER ALTERNATIVES: 3¶# NUMBER CATEGORIES: 2¶1: {1,4},1
elect --rule av --size 1 | committees: input line 4: NoSuchCandidate
< # DATA TYPE: cat¶# NUMBER ALTERNATIVES: 3¶# NUMBER CATEGORIES: 2¶1: 257
elect --rule av --size 1 | committees: input line 4: NoSuchCandidate
< # DATA TYPE: cat¶# NUMBER ALTERNATIVES: 3¶# NUMBER CATEGORIES: 2¶1: 18446744073709551617
elect --rule av --size 1 | committees: input line 4: NoSuchCandidate
< # DATA TYPE: cat¶# NUMBER ALTERNATIVES: 3¶# NUMBER CATEGORIES: 2¶1: 2,0,2,{}
elect --rule av --size 1 | committees: input line 4: NoSuchCandidate
< # DATA TYPE: cat¶# NUMBER ALTERNATIVES: 3¶# NUMBER CATEGORIES: 2¶1: {1,1}
elect --rule av --size 1 | committees: input line 4: RepeatedCandidate
< # DATA TYPE: cat¶# NUMBER ALTERNATIVES: 3¶# NUMBER CATEGORIES: 2¶1: 1,{2,01}
elect --rule av --size 1 | committees: input line 4: RepeatedCandidate
< # DATA TYPE: cat¶# NUMBER ALTERNATIVES: 3¶# NUMBER CATEGORIES: 2¶1: 1,1,4
elect --rule av --size 1 | committees: input line 4: RepeatedCandidate
< # DATA TYPE: cat¶# NUMBER ALTERNATIVES: 3¶# NUMBER CATEGORIES: 2¶1: 1,2,3
elect --rule av --size 1 | committees: input line 4: TooManyClasses
< # DATA TYPE: cat¶# NUMBER ALTERNATIVES: 3¶# NUMBER CATEGORIES: 2¶1: 1,{},{}
elect --rule av --size 1 | committees: input line 4: TooManyClasses
< # DATA TYPE: cat¶# NUMBER ALTERNATIVES: 3¶# NUMBER CATEGORIES: 2¶1: 1¶¶# x: y¶1: 4
elect --rule av --size 1 | committees: input line 7: NoSuchCandidate
< # DATA TYPE: cat¶# NUMBER ALTERNATIVES: 3¶# NUMBER CATEGORIES: 2¶1: 1,2,3¶x
elect --rule av --size 1 | committees: input line 4: TooManyClasses
< # DATA TYPE: cat¶# NUMBER ALTERNATIVES: 3¶# NUMBER CATEGORIES: 2¶4294967296: 1¶1: 2
elect --rule av --size 1 | committees: input line 5: TooManyVoters
< # DATA TYPE: cat¶# NUMBER ALTERNATIVES: 3¶# NUMBER CATEGORIES: 2¶4294967296: 1¶1: 1
elect --rule av --size 1 | committees: input line 5: TooManyVoters
< # DATA TYPE: cat¶# NUMBER ALTERNATIVES: 3¶# NUMBER CATEGORIES: 2¶4294967295: 1¶1: 2¶1: 3
elect --rule av --size 1 | committees: input line 6: TooManyVoters
< # DATA TYPE: cat¶# NUMBER ALTERNATIVES: 3¶# NUMBER CATEGORIES: 2¶4294967296: 1¶4294967296:
elect --rule av --size 1 | committees: input line 5: TooManyVoters
< # DATA TYPE: cat¶# NUMBER ALTERNATIVES: 3¶# NUMBER CATEGORIES: 2¶4294967296: 1¶1: 1,2,3
elect --rule av --size 1 | committees: input line 5: TooManyClasses
// Rankings, and ways that do not fit.
< # NUMBER ALTERNATIVES: 3¶0: 9¶
elect --rule av --size 1 | committees: input line 2: NoKind
< # NUMBER ALTERNATIVES: 3¶0: 9¶
elect --rule av --size 1 --kind soc | committees: input line 2: BadCount
< # NUMBER ALTERNATIVES: 3¶0: 9¶
elect --rule av --size 1 --kind soc --category 1 | committees: input line 2: PickMisfit
< # NUMBER ALTERNATIVES: 3¶1: 4¶
elect --rule av --size 1 --kind soc | committees: input line 2: NoSuchCandidate
< # NUMBER ALTERNATIVES: 3¶1: {1,2}¶
elect --rule av --size 1 --kind soc | committees: input line 2: NotStrict
< # NUMBER ALTERNATIVES: 3¶4: 1,2¶
elect --rule av --size 1 --kind soc | committees: input line 2: Incomplete
< # NUMBER ALTERNATIVES: 3¶4: 1,{2,3}¶
elect --rule av --size 1 --kind soc | committees: input line 2: NotStrict
< # NUMBER ALTERNATIVES: 3¶1:¶
elect --rule av --size 1 --kind soc | committees: input line 2: Incomplete
< # NUMBER ALTERNATIVES: 3¶1: 1,{},2,3¶
elect --rule av --size 1 --kind soc | committees: input line 2: NotStrict
< # NUMBER ALTERNATIVES: 3¶1: {1,2},1¶
elect --rule av --size 1 --kind soc | committees: input line 2: RepeatedCandidate
< # NUMBER ALTERNATIVES: 3¶1: {}¶
elect --rule av --size 1 --kind soi | committees: input line 2: NotStrict
< # NUMBER ALTERNATIVES: 3¶1: 3,{1,2}¶
elect --rule av --size 1 --kind soi | committees: input line 2: NotStrict
< # NUMBER ALTERNATIVES: 3¶1:¶
elect --rule av --size 1 --kind toc | committees: input line 2: Incomplete
< # NUMBER ALTERNATIVES: 3¶1: {},{1,3}¶
elect --rule av --size 1 --kind toc | committees: input line 2: Incomplete
< # NUMBER ALTERNATIVES: 3¶1: 3,2¶
elect --rule av --size 1 --kind toc --setsize 1 | committees: input line 2: Incomplete
< # NUMBER ALTERNATIVES: 3¶1: 3,2,{1,2}¶
elect --rule av --size 1 --kind toi | committees: input line 2: RepeatedCandidate
< # NUMBER ALTERNATIVES: 3¶x¶
elect --rule av --size 1 --kind soi --category 1000000 | committees: input line 2: PickMisfit
< # NUMBER ALTERNATIVES: 3¶1: 1¶
elect --rule av --size 1 --kind toc --category 1 | committees: input line 2: PickMisfit
< # NUMBER ALTERNATIVES: 3¶1: 1¶
elect --rule av --size 1 --kind toi --category 1 | committees: input line 2: PickMisfit
< # NUMBER ALTERNATIVES: 3¶1: 1¶
elect --rule av --size 1 --kind cat --setsize 1 | committees: input line 2: PickMisfit
< # NUMBER ALTERNATIVES: 3¶x¶
elect --rule av --size 1 --kind cat --classes 1 | committees: input line 2: PickMisfit
< # DATA TYPE: cat¶# NUMBER ALTERNATIVES: 3¶# NUMBER CATEGORIES: 2¶2: {1,2},3¶1: 3,{1,2}¶
elect --rule av --size 1 --category 3 | committees: input line 4: PickMisfit
// Changes of one file.
< # DATA TYPE: cat¶# NUMBER ALTERNATIVES: 3¶# NUMBER CATEGORIES: 2¶2: {1,2},3¶1: {1,2¶
elect --rule av --size 1 | committees: input line 5: BadBallot
< # DATA TYPE: cat¶# NUMBER ALTERNATIVES: 3¶# NUMBER CATEGORIES: 2¶2: {1,2},3¶0: 1¶
elect --rule av --size 1 | committees: input line 5: BadCount
< # DATA TYPE: cat¶# NUMBER ALTERNATIVES: 3¶# NUMBER CATEGORIES: 2¶2: {1,2},3¶1: {1,4},1¶
elect --rule av --size 1 | committees: input line 5: NoSuchCandidate
< # DATA TYPE: cat¶# NUMBER ALTERNATIVES: 3¶# NUMBER CATEGORIES: 2¶2: {1,2},3¶1: {1,1}¶
elect --rule av --size 1 | committees: input line 5: RepeatedCandidate
< # DATA TYPE: cat¶# NUMBER ALTERNATIVES: 3¶# NUMBER CATEGORIES: 2¶2: {1,2},3¶1: 1,2,3¶
elect --rule av --size 1 | committees: input line 5: TooManyClasses
< # DATA TYPE: cat¶# NUMBER ALTERNATIVES: 3¶# NUMBER CATEGORIES: 2¶2: {1,2},3¶99999999999999999999: 1¶
elect --rule av --size 1 | committees: input line 5: BadCount
<
elect --rule av --size 1 | committees: input: NoAlternatives
< # DATA TYPE: cat¶# NUMBER ALTERNATIVES: 3¶# NUMBER CATEGORIES: 2¶2: {1,2},3¶1: 3,{1,2}¶
elect --rule av --size 4 | committees: request: SizeTooLarge";

#[test]
fn files_with_a_fault(rt: HostRuntime) {
    super::assert_table(&rt, rt.alloc(), REFUSALS);
}
