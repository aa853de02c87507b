//! Files, and what they hold.
use super::support::{assert_holds, reading_as};
use std::alloc::Global;
use std::process::Abort;

/// The words that say how a file is read, the file, and what it holds: the number of candidates, their names and the
/// ballots, or the fault and its line. `¶` ends a line.
static FILES: &str = "\
--kind soc --category 1 | # NUMBER ALTERNATIVES: 3¶# NUMBER CATEGORIES: 2¶1: 1¶ | line 3: PickMisfit
 | # NUMBER ALTERNATIVES:¶ | line 1: BadNumber
 | # NUMBER ALTERNATIVES: x¶ | line 1: BadNumber
 | # NUMBER ALTERNATIVES: 3 4¶ | line 1: BadNumber
 | # NUMBER ALTERNATIVES: +3¶ | line 1: BadNumber
 | ¶# NUMBER ALTERNATIVES: -3¶ | line 2: BadNumber
 | ¶¶# NUMBER ALTERNATIVES: 0¶ | line 3: BadNumber
 | # NUMBER ALTERNATIVES: 000¶ | line 1: BadNumber
 | # NUMBER ALTERNATIVES: 3¶# NUMBER CATEGORIES: 0¶ | line 2: BadNumber
 | # NUMBER CATEGORIES: two¶ | line 1: BadNumber
 | # NUMBER CATEGORIES: 4294967297¶ | line 1: BadNumber
 | # NUMBER CATEGORIES: 18446744073709551617¶ | line 1: BadNumber
 | # NUMBER ALTERNATIVES: 65¶ | line 1: TooManyCandidates
 | # NUMBER ALTERNATIVES: 18446744073709551617¶ | line 1: TooManyCandidates
 | # NUMBER ALTERNATIVES: 3¶# NUMBER ALTERNATIVES: 4¶ | line 2: ConflictingKey
 | # NUMBER ALTERNATIVES: 4¶# NUMBER ALTERNATIVES: 3¶ | line 2: ConflictingKey
 | # NUMBER CATEGORIES: 1¶¶# NUMBER CATEGORIES: 2¶ | line 3: ConflictingKey
 | # NUMBER CATEGORIES: 2¶# NUMBER CATEGORIES: 4294967296¶ | line 2: ConflictingKey
 | # NUMBER ALTERNATIVES: 3¶1: 1¶ | line 2: NoKind
 | # NUMBER ALTERNATIVES: 3¶# DATA TYPE: wmd¶1: 1¶ | line 3: BadKind
 | # NUMBER ALTERNATIVES: 3¶# DATA TYPE:¶1: 1¶ | line 3: BadKind
 | # NUMBER ALTERNATIVES: 3¶# DATA TYPE: soc soi¶1: 1¶ | line 3: BadKind
 | # NUMBER ALTERNATIVES: 3¶# DATA TYPE: toi¶# DATA TYPE: tog¶1: 1¶ | line 4: BadKind
 | # NUMBER ALTERNATIVES: 3¶# DATA TYPE: .toi¶1: 1¶ | line 3: BadKind
 | # NUMBER ALTERNATIVES: 3¶# DATA TYPE: toi¶1: 1;2¶ | line 3: BadBallot
 | # NUMBER ALTERNATIVES: 3¶# DATA TYPE: toi¶1: 1¶¶2: 3¶1¶ | line 6: BadBallot
 | # NUMBER ALTERNATIVES: 3¶# DATA TYPE: toi¶1: 1 # 2¶ | line 3: BadBallot
 | # NUMBER ALTERNATIVES: 3¶# DATA TYPE: toi¶0: 1¶ | line 3: BadCount
 | # NUMBER ALTERNATIVES: 3¶# DATA TYPE: toi¶4294967297: 1¶ | line 3: BadCount
 | # NUMBER ALTERNATIVES: 3¶# DATA TYPE: toi¶99999999999999999999: 1¶ | line 3: BadCount
 | # NUMBER ALTERNATIVES: 3¶# DATA TYPE: toi¶1: 4¶ | line 3: NoSuchCandidate
 | # NUMBER ALTERNATIVES: 3¶# DATA TYPE: toi¶1: 0¶ | line 3: NoSuchCandidate
 | # NUMBER ALTERNATIVES: 3¶# DATA TYPE: toi¶1: 18446744073709551617¶ | line 3: NoSuchCandidate
 | # NUMBER ALTERNATIVES: 3¶# DATA TYPE: toi¶1: {1,2},1¶ | line 3: RepeatedCandidate
 | # NUMBER ALTERNATIVES: 3¶# DATA TYPE: soi¶1: {1,2}¶ | line 3: NotStrict
 | # NUMBER ALTERNATIVES: 3¶# DATA TYPE: soc¶1: 1,{},2,3¶ | line 3: NotStrict
 | # NUMBER ALTERNATIVES: 3¶# DATA TYPE: toc¶1: {1,3}¶ | line 3: Incomplete
 | # NUMBER ALTERNATIVES: 3¶# DATA TYPE: soc¶1:¶ | line 3: Incomplete
 | # NUMBER ALTERNATIVES: 3¶# DATA TYPE: cat¶# NUMBER CATEGORIES: 2¶1: 1,2,{}¶ | line 4: TooManyClasses
 | # NUMBER ALTERNATIVES: 3¶# DATA TYPE: toi¶4294967295: 1¶1: 1¶1: 1¶ | line 5: TooManyVoters
 | # DATA TYPE: toi¶ | NoAlternatives
 | # NUMBER ALTERNATIVES 3¶ | NoAlternatives
 | # NUMBER ALTERNATIVES: 3¶ | NoVoters
 | # NUMBER ALTERNATIVES: 3¶# DATA TYPE: toy¶ \t¶ | NoVoters
 | # DATA TYPE: toi¶1: 1¶# NUMBER ALTERNATIVES: 3¶ | NoAlternatives
--kind soi --category 1 | # NUMBER ALTERNATIVES: 3¶# NUMBER CATEGORIES: 2¶1: 1¶ | line 3: PickMisfit
--kind toc --category 2 | # NUMBER ALTERNATIVES: 3¶# NUMBER CATEGORIES: 2¶1: 1¶ | line 3: PickMisfit
--kind toi --category 3 | # NUMBER ALTERNATIVES: 3¶# NUMBER CATEGORIES: 2¶1: 1¶ | line 3: PickMisfit
--kind cat --setsize 1 | # NUMBER ALTERNATIVES: 3¶# NUMBER CATEGORIES: 2¶1: 1¶ | line 3: PickMisfit
--kind cat --classes 1 | # NUMBER ALTERNATIVES: 3¶# NUMBER CATEGORIES: 2¶1: 1¶ | line 3: PickMisfit
--kind cat --category 3 | # NUMBER ALTERNATIVES: 3¶# NUMBER CATEGORIES: 2¶1: 1¶ | line 3: PickMisfit
 | # NUMBER ALTERNATIVES: 65x¶ | line 1: BadNumber
 | # NUMBER ALTERNATIVES: 3¶# NUMBER ALTERNATIVES: 0¶ | line 2: BadNumber
 | # NUMBER ALTERNATIVES: 3¶# NUMBER ALTERNATIVES: 4.¶ | line 2: BadNumber
 | # NUMBER ALTERNATIVES: 3¶# NUMBER ALTERNATIVES: 65¶ | line 2: TooManyCandidates
 | # NUMBER CATEGORIES: 3¶# NUMBER CATEGORIES: 00¶ | line 2: BadNumber
 | # NUMBER CATEGORIES: 3¶# NUMBER CATEGORIES: 4294967297¶ | line 2: BadNumber
 | # NUMBER CATEGORIES: 3¶# NUMBER CATEGORIES: 4294967296¶ | line 2: ConflictingKey
 | 1: 1¶ | NoAlternatives
 | # DATA TYPE: x¶1: 1¶ | NoAlternatives
 | # DATA TYPE: toi¶1 1¶ | NoAlternatives
 | # NUMBER ALTERNATIVES: 3¶1 1¶ | line 2: NoKind
 | # NUMBER ALTERNATIVES: 3¶0: 9¶ | line 2: NoKind
 | # NUMBER ALTERNATIVES: 3¶# DATA TYPE: x¶1 1¶ | line 3: BadKind
--category 2 | 1: 1¶ | NoAlternatives
--category 2 | # NUMBER ALTERNATIVES: 3¶1: 1¶ | line 2: NoKind
--category 2 | # NUMBER ALTERNATIVES: 3¶# DATA TYPE: x¶1: 1¶ | line 3: BadKind
--category 2 | # NUMBER ALTERNATIVES: 3¶# DATA TYPE: soc¶1 1¶ | line 3: PickMisfit
--category 2 | # NUMBER ALTERNATIVES: 3¶# DATA TYPE: soc¶0: 9¶ | line 3: PickMisfit
--category 2 | # NUMBER ALTERNATIVES: 3¶# NUMBER CATEGORIES: 1¶# DATA TYPE: cat¶1: 1,2,3¶ | line 4: PickMisfit
--category 2 | # NUMBER ALTERNATIVES: 3¶# NUMBER CATEGORIES: 2¶# DATA TYPE: cat¶1: 1,2,3¶ | line 4: TooManyClasses
--category 2 | # NUMBER ALTERNATIVES: 3¶# DATA TYPE: soc¶ | NoVoters
--kind soc | # NUMBER ALTERNATIVES: 3¶0: 9,¶ | line 2: BadBallot
--kind soc | # NUMBER ALTERNATIVES: 3¶0: 9¶ | line 2: BadCount
--kind soc | # NUMBER ALTERNATIVES: 3¶0: 1,1¶ | line 2: BadCount
--kind soc | # NUMBER ALTERNATIVES: 3¶1: 4,1,1¶ | line 2: NoSuchCandidate
--kind soc | # NUMBER ALTERNATIVES: 3¶1: 4,4¶ | line 2: NoSuchCandidate
--kind soc | # NUMBER ALTERNATIVES: 3¶1: 1,1,4¶ | line 2: RepeatedCandidate
--kind soc | # NUMBER ALTERNATIVES: 3¶1: {1,0}¶ | line 2: NoSuchCandidate
--kind soc | # NUMBER ALTERNATIVES: 3¶1: {1,1}¶ | line 2: RepeatedCandidate
--kind soc | # NUMBER ALTERNATIVES: 3¶1: {1,2}¶ | line 2: NotStrict
--kind soc | # NUMBER ALTERNATIVES: 3¶1: 1,2¶ | line 2: Incomplete
--kind soc | # NUMBER ALTERNATIVES: 3¶4294967296: 1,2,3¶1: {1,2},3¶ | line 3: NotStrict
--kind soc | # NUMBER ALTERNATIVES: 3¶4294967296: 1,2,3¶1: 1,2¶ | line 3: Incomplete
--kind soc | # NUMBER ALTERNATIVES: 3¶4294967296: 1,2,3¶4294967297: 1,2,3¶ | line 3: BadCount
--kind cat | # NUMBER ALTERNATIVES: 3¶# NUMBER CATEGORIES: 1¶1: 1,4¶ | line 3: NoSuchCandidate
--kind cat | # NUMBER ALTERNATIVES: 3¶# NUMBER CATEGORIES: 1¶1: 1,1¶ | line 3: RepeatedCandidate
--kind cat | # NUMBER ALTERNATIVES: 3¶# NUMBER CATEGORIES: 1¶4294967296: 1¶1: 1,2¶ | line 4: TooManyClasses
--kind cat | # NUMBER ALTERNATIVES: 3¶# NUMBER CATEGORIES: 1¶4294967296: 1¶1: 1¶ | line 4: TooManyVoters
--kind soc | # NUMBER CATEGORIES: 0¶# NUMBER ALTERNATIVES: 65¶ | line 1: BadNumber
--kind soc | # NUMBER ALTERNATIVES: 65¶# NUMBER CATEGORIES: 0¶ | line 1: TooManyCandidates
--kind soc | # NUMBER CATEGORIES: 1¶# NUMBER CATEGORIES: 2¶1: 1¶ | line 2: ConflictingKey
--kind soc | 1: 1¶# NUMBER ALTERNATIVES: 0¶ | NoAlternatives
--kind soc | # NUMBER ALTERNATIVES: 3¶1: 1¶2: 1;¶ | line 2: Incomplete
--kind soc | # NUMBER ALTERNATIVES: 3¶1: {1,2},3¶0: 1¶ | line 2: NotStrict
--kind soc | # NUMBER ALTERNATIVES: 3¶1: 1,2,3¶0: 1¶2: 1;¶ | line 3: BadCount
--kind soc | # NUMBER ALTERNATIVES: 3¶4294967296: 3,2,1¶1: 1,2,3¶2: 1;¶ | line 3: TooManyVoters
 | # NUMBER ALTERNATIVES: 3¶# DATA TYPE: toi¶2: {1,3}¶ | 3¶2: 1,3
 | # NUMBER ALTERNATIVES: 3¶# DATA TYPE: toi¶2: {1,3} | 3¶2: 1,3
 | # NUMBER ALTERNATIVES: 3\r¶# DATA TYPE: toi\r¶2: {1,3}\r¶ | 3¶2: 1,3
 | # NUMBER ALTERNATIVES: 3\r¶# DATA TYPE: toi¶2: {1,3}\r | 3¶2: 1,3
 | \u{feff}# NUMBER ALTERNATIVES: 3¶# DATA TYPE: toi¶2: {1,3}¶ | 3¶2: 1,3
 | \u{feff}\r¶# NUMBER ALTERNATIVES: 3¶# DATA TYPE: toi¶2: {1,3}¶ | 3¶2: 1,3
 | ¶¶ \t ¶# NUMBER ALTERNATIVES: 3¶\t¶# DATA TYPE: toi¶\r¶2: {1,3}¶ ¶¶\t\r | 3¶2: 1,3
 |  \t# NUMBER ALTERNATIVES: 3¶\t #DATA TYPE: toi¶ \t2\t: \t{ 1\t,3 } \t¶ | 3¶2: 1,3
 | # a¶#¶# b c¶# NUMBER ALTERNATIVES: 3¶# DATA TYPE: toi¶## d: 1¶#: e¶2: {1,3}¶# f¶ | 3¶2: 1,3
 | # NUMBER ALTERNATIVES: 3¶# DATA TYPE: toi¶2: {1,3}¶# NUMBER ALTERNATIVES: 65¶ | 3¶2: 1,3
 | # NUMBER ALTERNATIVES: 3¶# DATA TYPE: toi¶2: {1,3}¶# DATA TYPE: cat¶# NUMBER CATEGORIES: x¶ | 3¶2: 1,3
 | # NUMBER ALTERNATIVES: 03¶# NUMBER ALTERNATIVES: 3¶# DATA TYPE: toi¶0002: {01,0003}¶ | 3¶2: 1,3
--kind toi | # NUMBER ALTERNATIVES: 3¶1: 1\r2: 1¶ | line 2: BadBallot
--kind toi | # NUMBER ALTERNATIVES: 3¶1: 1\r\r¶ | line 2: BadBallot
--kind toi | # NUMBER ALTERNATIVES: 3¶1: 1¶\r\r | line 3: BadBallot
--kind toi | # NUMBER ALTERNATIVES: 3\r# DATA TYPE: toi¶1: 1¶ | line 1: BadNumber
--kind toi | # NUMBER ALTERNATIVES: 3¶1: 1\x0B¶ | line 2: BadBallot
--kind toi | # NUMBER ALTERNATIVES: 3¶1: 1\0¶ | line 2: BadBallot
--kind toi | # NUMBER ALTERNATIVES: 3¶1: 1¶¶\u{feff}1: 1¶ | line 4: BadBallot
--kind toi | \u{feff}# NUMBER ALTERNATIVES: 3¶\u{feff}¶ | line 2: BadBallot
--kind toi | # NUMBER ALTERNATIVES: 3\r¶\r¶1: 1\r¶\r¶1 1\r¶ | line 5: BadBallot
--kind toi | \u{feff}\u{feff}# NUMBER ALTERNATIVES: 3¶1: 1¶ | NoAlternatives
--kind toi |  \u{feff}# NUMBER ALTERNATIVES: 3¶1: 1¶ | NoAlternatives
--kind toi | # NUMBER ALTERNATIVES: 3¶1: 1¶ | 3¶1: 1
--kind toi | # ALTERNATIVE NAME 3: C¶# NUMBER ALTERNATIVES: 3¶# ALTERNATIVE NAME 1: A¶1: 1¶ | 3¶1 A¶3 C¶1: 1
--kind toi | # NUMBER ALTERNATIVES: 3¶# ALTERNATIVE NAME 2: B¶# ALTERNATIVE NAME 2: D¶1: 1¶ | 3¶2 D¶1: 1
--kind toi | # ALTERNATIVE NAME 2: B¶# NUMBER ALTERNATIVES: 3¶# ALTERNATIVE NAME 2: \t¶1: 1¶ | 3¶1: 1
--kind toi | # NUMBER ALTERNATIVES: 3¶# ALTERNATIVE NAME 2:¶# ALTERNATIVE NAME 2: B¶1: 1¶ | 3¶2 B¶1: 1
--kind toi | # NUMBER ALTERNATIVES: 3¶#alternative\tName  003:\t A: a b,\tc:\t ¶1: 1¶ | 3¶3 A: a b,\tc:¶1: 1
--kind toi | # NUMBER ALTERNATIVES: 3¶# ALTERNATIVE NAME 1: A¶1: 1¶# ALTERNATIVE NAME 1: D¶# ALTERNATIVE NAME 2: B¶ | 3¶1 A¶1: 1
--kind toi | # ALTERNATIVE NAME 4: D¶# NUMBER ALTERNATIVES: 3¶# ALTERNATIVE NAME 64: X¶# ALTERNATIVE NAME 65: Y¶1: 1¶ | 3¶1: 1
--kind toi | # ALTERNATIVE NAME 0: Z¶# NUMBER ALTERNATIVES: 3¶# ALTERNATIVE NAME 000: Z¶1: 1¶ | 3¶1: 1
--kind toi | # NUMBER ALTERNATIVES: 3¶# ALTERNATIVE NAME 257: X¶# ALTERNATIVE NAME 18446744073709551617: Y¶1: 1¶ | 3¶1: 1
--kind toi | # NUMBER ALTERNATIVES: 3¶# ALTERNATIVE NAME: X¶# ALTERNATIVE NAME one: Y¶# ALTERNATIVE NAME +1: Z¶1: 1¶ | 3¶1: 1
--kind toi | # NUMBER ALTERNATIVES: 3¶# ALTERNATIVE NAME 1 : A¶# ALTERNATIVE NAME 1 2: X¶# ALTERNATIVE NAME1: Y¶# THE ALTERNATIVE NAME 1: Z¶1: 1¶ | 3¶1 A¶1: 1
--kind toi | # NUMBER ALTERNATIVES: 3¶# CATEGORY NAME 1: Yes¶# ALTERNATIVE NAME 2 B¶1: 1¶ | 3¶1: 1
--kind soi | # ALTERNATIVE NAME 64: Z¶# NUMBER ALTERNATIVES: 64¶1: 64¶ | 64¶64 Z¶1: 64
 | # DATA TYPE: cat¶# NUMBER ALTERNATIVES: 3¶# NUMBER CATEGORIES: 2¶1: {1,2}¶ | 3¶1: 1,2
 | # data type: CAT¶# number alternatives: 3¶# number categories: 2¶1: {1,2}¶ | 3¶1: 1,2
 | #Data\tType:Cat¶#Number \t Alternatives:3¶#Number  Categories:2¶1: {1,2}¶ | 3¶1: 1,2
 | \t# DATA  TYPE \t:\tcaT \t¶ \t# NUMBER ALTERNATIVES :\t3 \t¶# \t NUMBER CATEGORIES : 2¶1: {1,2}¶ | 3¶1: 1,2
 | # DATA TYPE: soc¶# NUMBER ALTERNATIVES: 3¶# DATA TYPE: toi¶# DATA TYPE: cat¶1: {1,2}¶ | 3¶1: 1,2
 | # DATA TYPE: cat¶# DATATYPE: soc¶# DATA TYPES: soc¶# DATA TYPE OF: soc¶# NUMBER ALTERNATIVES: 3¶# NUMBER VOTERS: 9¶1: {1,2}¶ | 3¶1: 1,2
--kind cat --category 2 | # NUMBER CATEGORIES: 4294967296¶# NUMBER ALTERNATIVES: 3¶# NUMBER CATEGORIES: 04294967296¶1: {},{1,2},3¶ | 3¶1: 1,2
 | # FILE NAME: 00042-00000001.soc¶# TITLE: A vote¶# DESCRIPTION: Obtained from: a count¶# DATA TYPE: soc¶# MODIFICATION TYPE: original¶# RELATES TO: 00042-00000002.toc¶# RELATED FILES: 00042-00000001.dat, 00042-00000001.txt¶# PUBLICATION DATE: 2013-08-17¶# MODIFICATION DATE: 2022-09-16¶# NUMBER ALTERNATIVES: 3¶# NUMBER VOTERS: 7¶# NUMBER UNIQUE ORDERS: 2¶# ALTERNATIVE NAME 1: Ann¶# ALTERNATIVE NAME 2: Bob: B¶# ALTERNATIVE NAME 3: Cem¶4: 2,1,3¶3: 3,2,1¶ | 3¶1 Ann¶2 Bob: B¶3 Cem¶4: 2¶3: 3
 | # FILE NAME: 00042-00000001.soi¶# TITLE: A vote¶# DESCRIPTION: Obtained from: a count¶# DATA TYPE: soi¶# MODIFICATION TYPE: original¶# RELATES TO: 00042-00000002.toc¶# RELATED FILES: 00042-00000001.dat, 00042-00000001.txt¶# PUBLICATION DATE: 2013-08-17¶# MODIFICATION DATE: 2022-09-16¶# NUMBER ALTERNATIVES: 3¶# NUMBER VOTERS: 7¶# NUMBER UNIQUE ORDERS: 3¶# ALTERNATIVE NAME 1: Ann¶# ALTERNATIVE NAME 2: Bob: B¶# ALTERNATIVE NAME 3: Cem¶4: 2¶2: 3,2¶1: 2,3¶ | 3¶1 Ann¶2 Bob: B¶3 Cem¶5: 2¶2: 3
 | # FILE NAME: 00042-00000001.toc¶# TITLE: A vote¶# DESCRIPTION: Obtained from: a count¶# DATA TYPE: toc¶# MODIFICATION TYPE: original¶# RELATES TO: 00042-00000002.toc¶# RELATED FILES: 00042-00000001.dat, 00042-00000001.txt¶# PUBLICATION DATE: 2013-08-17¶# MODIFICATION DATE: 2022-09-16¶# NUMBER ALTERNATIVES: 3¶# NUMBER VOTERS: 7¶# NUMBER UNIQUE ORDERS: 2¶# ALTERNATIVE NAME 1: Ann¶# ALTERNATIVE NAME 2: Bob: B¶# ALTERNATIVE NAME 3: Cem¶4: {1,3},2¶3: 2,{1,3}¶ | 3¶1 Ann¶2 Bob: B¶3 Cem¶4: 1,3¶3: 2
 | # FILE NAME: 00042-00000001.toi¶# TITLE: A vote¶# DESCRIPTION: Obtained from: a count¶# DATA TYPE: toi¶# MODIFICATION TYPE: original¶# RELATES TO: 00042-00000002.toc¶# RELATED FILES: 00042-00000001.dat, 00042-00000001.txt¶# PUBLICATION DATE: 2013-08-17¶# MODIFICATION DATE: 2022-09-16¶# NUMBER ALTERNATIVES: 3¶# NUMBER VOTERS: 7¶# NUMBER UNIQUE ORDERS: 2¶# ALTERNATIVE NAME 1: Ann¶# ALTERNATIVE NAME 2: Bob: B¶# ALTERNATIVE NAME 3: Cem¶4: {1,3}¶3: 2,{1,3}¶ | 3¶1 Ann¶2 Bob: B¶3 Cem¶4: 1,3¶3: 2
 | # FILE NAME: 00042-00000001.cat¶# TITLE: A vote¶# DESCRIPTION: Obtained from: a count¶# DATA TYPE: cat¶# MODIFICATION TYPE: original¶# RELATES TO: 00042-00000002.toc¶# RELATED FILES: 00042-00000001.dat, 00042-00000001.txt¶# PUBLICATION DATE: 2013-08-17¶# MODIFICATION DATE: 2022-09-16¶# NUMBER ALTERNATIVES: 3¶# NUMBER VOTERS: 7¶# NUMBER UNIQUE ORDERS: 3¶# NUMBER CATEGORIES: 2¶# CATEGORY NAME 1: Yes¶# CATEGORY NAME 2: No¶# ALTERNATIVE NAME 1: Ann¶# ALTERNATIVE NAME 2: Bob: B¶# ALTERNATIVE NAME 3: Cem¶4: {1,3},2¶2: {},{1,2,3}¶1: 1,{2,3}¶ | 3¶1 Ann¶2 Bob: B¶3 Cem¶4: 1,3¶2: ¶1: 1
--kind soc | # NUMBER ALTERNATIVES: 4¶2: 1,2,3,4¶1: 2,1,4,3¶3: 1,4,2,3¶ | 4¶5: 1¶1: 2
--kind soi | # NUMBER ALTERNATIVES: 4¶2: 1,2,3,4¶1: 2,1,4,3¶3: 1,4,2,3¶ | 4¶5: 1¶1: 2
--kind toc | # NUMBER ALTERNATIVES: 4¶2: 1,2,3,4¶1: 2,1,4,3¶3: 1,4,2,3¶ | 4¶5: 1¶1: 2
--kind toi | # NUMBER ALTERNATIVES: 4¶2: 1,2,3,4¶1: 2,1,4,3¶3: 1,4,2,3¶ | 4¶5: 1¶1: 2
--kind soc --setsize 1 | # NUMBER ALTERNATIVES: 4¶2: 1,2,3,4¶1: 2,1,4,3¶3: 1,4,2,3¶ | 4¶5: 1¶1: 2
--kind soi --setsize 1 | # NUMBER ALTERNATIVES: 4¶2: 1,2,3,4¶1: 2,1,4,3¶3: 1,4,2,3¶ | 4¶5: 1¶1: 2
--kind toc --setsize 1 | # NUMBER ALTERNATIVES: 4¶2: 1,2,3,4¶1: 2,1,4,3¶3: 1,4,2,3¶ | 4¶5: 1¶1: 2
--kind toi --setsize 1 | # NUMBER ALTERNATIVES: 4¶2: 1,2,3,4¶1: 2,1,4,3¶3: 1,4,2,3¶ | 4¶5: 1¶1: 2
--kind soc --setsize 2 | # NUMBER ALTERNATIVES: 4¶2: 1,2,3,4¶1: 2,1,4,3¶3: 1,4,2,3¶ | 4¶3: 1,2¶3: 1,4
--kind soi --setsize 2 | # NUMBER ALTERNATIVES: 4¶2: 1,2,3,4¶1: 2,1,4,3¶3: 1,4,2,3¶ | 4¶3: 1,2¶3: 1,4
--kind toc --setsize 2 | # NUMBER ALTERNATIVES: 4¶2: 1,2,3,4¶1: 2,1,4,3¶3: 1,4,2,3¶ | 4¶3: 1,2¶3: 1,4
--kind toi --setsize 2 | # NUMBER ALTERNATIVES: 4¶2: 1,2,3,4¶1: 2,1,4,3¶3: 1,4,2,3¶ | 4¶3: 1,2¶3: 1,4
--kind soc --classes 2 | # NUMBER ALTERNATIVES: 4¶2: 1,2,3,4¶1: 2,1,4,3¶3: 1,4,2,3¶ | 4¶3: 1,2¶3: 1,4
--kind soi --classes 2 | # NUMBER ALTERNATIVES: 4¶2: 1,2,3,4¶1: 2,1,4,3¶3: 1,4,2,3¶ | 4¶3: 1,2¶3: 1,4
--kind toc --classes 2 | # NUMBER ALTERNATIVES: 4¶2: 1,2,3,4¶1: 2,1,4,3¶3: 1,4,2,3¶ | 4¶3: 1,2¶3: 1,4
--kind toi --classes 2 | # NUMBER ALTERNATIVES: 4¶2: 1,2,3,4¶1: 2,1,4,3¶3: 1,4,2,3¶ | 4¶3: 1,2¶3: 1,4
--kind soc --classes 9 | # NUMBER ALTERNATIVES: 4¶2: 1,2,3,4¶1: 2,1,4,3¶3: 1,4,2,3¶ | 4¶6: 1,2,3,4
--kind soi --classes 9 | # NUMBER ALTERNATIVES: 4¶2: 1,2,3,4¶1: 2,1,4,3¶3: 1,4,2,3¶ | 4¶6: 1,2,3,4
--kind toc --classes 9 | # NUMBER ALTERNATIVES: 4¶2: 1,2,3,4¶1: 2,1,4,3¶3: 1,4,2,3¶ | 4¶6: 1,2,3,4
--kind toi --classes 9 | # NUMBER ALTERNATIVES: 4¶2: 1,2,3,4¶1: 2,1,4,3¶3: 1,4,2,3¶ | 4¶6: 1,2,3,4
--kind soc --setsize 1000000 | # NUMBER ALTERNATIVES: 4¶2: 1,2,3,4¶1: 2,1,4,3¶3: 1,4,2,3¶ | 4¶6: 1,2,3,4
--kind soi --setsize 1000000 | # NUMBER ALTERNATIVES: 4¶2: 1,2,3,4¶1: 2,1,4,3¶3: 1,4,2,3¶ | 4¶6: 1,2,3,4
--kind toc --setsize 1000000 | # NUMBER ALTERNATIVES: 4¶2: 1,2,3,4¶1: 2,1,4,3¶3: 1,4,2,3¶ | 4¶6: 1,2,3,4
--kind toi --setsize 1000000 | # NUMBER ALTERNATIVES: 4¶2: 1,2,3,4¶1: 2,1,4,3¶3: 1,4,2,3¶ | 4¶6: 1,2,3,4
--kind toc | # NUMBER ALTERNATIVES: 4¶2: {},{1,2},{3,4}¶1: 2,{1,3,4}¶3: {},{1,2},3,4¶ | 4¶5: 1,2¶1: 2
--kind toi | # NUMBER ALTERNATIVES: 4¶2: {},{1,2},{3,4}¶1: 2,{1,3,4}¶3: {},{1,2},3,4¶ | 4¶5: 1,2¶1: 2
--kind toc --setsize 2 | # NUMBER ALTERNATIVES: 4¶2: {},{1,2},{3,4}¶1: 2,{1,3,4}¶3: {},{1,2},3,4¶ | 4¶5: 1,2¶1: 1,2,3,4
--kind toi --setsize 2 | # NUMBER ALTERNATIVES: 4¶2: {},{1,2},{3,4}¶1: 2,{1,3,4}¶3: {},{1,2},3,4¶ | 4¶5: 1,2¶1: 1,2,3,4
--kind toc --setsize 3 | # NUMBER ALTERNATIVES: 4¶2: {},{1,2},{3,4}¶1: 2,{1,3,4}¶3: {},{1,2},3,4¶ | 4¶3: 1,2,3,4¶3: 1,2,3
--kind toi --setsize 3 | # NUMBER ALTERNATIVES: 4¶2: {},{1,2},{3,4}¶1: 2,{1,3,4}¶3: {},{1,2},3,4¶ | 4¶3: 1,2,3,4¶3: 1,2,3
--kind toc --classes 1 | # NUMBER ALTERNATIVES: 4¶2: {},{1,2},{3,4}¶1: 2,{1,3,4}¶3: {},{1,2},3,4¶ | 4¶5: ¶1: 2
--kind toi --classes 1 | # NUMBER ALTERNATIVES: 4¶2: {},{1,2},{3,4}¶1: 2,{1,3,4}¶3: {},{1,2},3,4¶ | 4¶5: ¶1: 2
--kind toc --classes 3 | # NUMBER ALTERNATIVES: 4¶2: {},{1,2},{3,4}¶1: 2,{1,3,4}¶3: {},{1,2},3,4¶ | 4¶3: 1,2,3,4¶3: 1,2,3
--kind toi --classes 3 | # NUMBER ALTERNATIVES: 4¶2: {},{1,2},{3,4}¶1: 2,{1,3,4}¶3: {},{1,2},3,4¶ | 4¶3: 1,2,3,4¶3: 1,2,3
--kind cat | # NUMBER ALTERNATIVES: 4¶# NUMBER CATEGORIES: 3¶2: {1,2},3,4¶1: 3¶3: {2,1},{},{3,4}¶ | 4¶5: 1,2¶1: 3
--kind cat --category 1 | # NUMBER ALTERNATIVES: 4¶# NUMBER CATEGORIES: 3¶2: {1,2},3,4¶1: 3¶3: {2,1},{},{3,4}¶ | 4¶5: 1,2¶1: 3
--kind cat --category 2 | # NUMBER ALTERNATIVES: 4¶# NUMBER CATEGORIES: 3¶2: {1,2},3,4¶1: 3¶3: {2,1},{},{3,4}¶ | 4¶2: 3¶4: 
--kind cat --category 3 | # NUMBER ALTERNATIVES: 4¶# NUMBER CATEGORIES: 3¶2: {1,2},3,4¶1: 3¶3: {2,1},{},{3,4}¶ | 4¶2: 4¶1: ¶3: 3,4
--kind cat --category 1000 | # NUMBER ALTERNATIVES: 2¶1: 1,2,{},{}¶ | 2¶1: 
--kind toi | # NUMBER ALTERNATIVES: 2¶3:¶1: 2¶4: {}¶ | 2¶7: ¶1: 2
--kind cat | # NUMBER ALTERNATIVES: 2¶3:¶1: 2¶4: {}¶ | 2¶7: ¶1: 2
--kind soi | # NUMBER ALTERNATIVES: 2¶4294967296: \t¶ | 2¶4294967296: 
 | # NUMBER ALTERNATIVES: 2¶# DATA TYPE: toi¶1: {},1,2¶ | 2¶1: 1
a.cat | # NUMBER ALTERNATIVES: 2¶# DATA TYPE: toi¶1: {},1,2¶ | 2¶1: 1
--kind cat | # NUMBER ALTERNATIVES: 2¶# DATA TYPE: toi¶1: {},1,2¶ | 2¶1: 
--kind cat a.toc | # NUMBER ALTERNATIVES: 2¶# DATA TYPE: toi¶1: {},1,2¶ | 2¶1: 
a.toi | # NUMBER ALTERNATIVES: 2¶1: {},1,2¶ | 2¶1: 1
a.cat | # NUMBER ALTERNATIVES: 2¶1: {},1,2¶ | 2¶1: 
--kind cat a.toi | # NUMBER ALTERNATIVES: 2¶1: {},1,2¶ | 2¶1: 
a.toi | # NUMBER ALTERNATIVES: 2¶# DATA TYPE: toy¶1: {},1,2¶ | line 3: BadKind
--kind toi | # NUMBER ALTERNATIVES: 2¶# DATA TYPE: toy¶1: {},1,2¶ | 2¶1: 1
--kind soc | # NUMBER ALTERNATIVES: 64¶3: 64,63,62,61,60,59,58,57,56,55,54,53,52,51,50,49,48,47,46,45,44,43,42,41,40,39,38,37,36,35,34,33,32,31,30,29,28,27,26,25,24,23,22,21,20,19,18,17,16,15,14,13,12,11,10,9,8,7,6,5,4,3,2,1¶ | 64¶3: 64
--kind soi | # NUMBER ALTERNATIVES: 64¶3: 64,63,62,61,60,59,58,57,56,55,54,53,52,51,50,49,48,47,46,45,44,43,42,41,40,39,38,37,36,35,34,33,32,31,30,29,28,27,26,25,24,23,22,21,20,19,18,17,16,15,14,13,12,11,10,9,8,7,6,5,4,3,2,1¶ | 64¶3: 64
--kind toc | # NUMBER ALTERNATIVES: 64¶3: {64,1},{2,3,4,5,6,7,8,9,10,11,12,13,14,15,16,17,18,19,20,21,22,23,24,25,26,27,28,29,30,31,32,33,34,35,36,37,38,39,40,41,42,43,44,45,46,47,48,49,50,51,52,53,54,55,56,57,58,59,60,61,62,63}¶ | 64¶3: 1,64
--kind toi | # NUMBER ALTERNATIVES: 64¶3: {64,1},{2,3,4,5,6,7,8,9,10,11,12,13,14,15,16,17,18,19,20,21,22,23,24,25,26,27,28,29,30,31,32,33,34,35,36,37,38,39,40,41,42,43,44,45,46,47,48,49,50,51,52,53,54,55,56,57,58,59,60,61,62,63}¶ | 64¶3: 1,64
--kind cat | # NUMBER ALTERNATIVES: 64¶3: {64,1},{2,3,4,5,6,7,8,9,10,11,12,13,14,15,16,17,18,19,20,21,22,23,24,25,26,27,28,29,30,31,32,33,34,35,36,37,38,39,40,41,42,43,44,45,46,47,48,49,50,51,52,53,54,55,56,57,58,59,60,61,62,63}¶ | 64¶3: 1,64
--kind soi | # NUMBER ALTERNATIVES: 64¶3: 64,1¶ | 64¶3: 64
--kind toi | # NUMBER ALTERNATIVES: 64¶3: {64,1},2¶ | 64¶3: 1,64
--kind cat | # NUMBER ALTERNATIVES: 64¶3: {},{64,1},2¶ | 64¶3: 
--kind soc | # NUMBER ALTERNATIVES: 65¶1: 1¶ | line 1: TooManyCandidates
--kind soc | # NUMBER ALTERNATIVES: 64¶1: 65¶ | line 2: NoSuchCandidate
--kind soi | # NUMBER ALTERNATIVES: 65¶1: 1¶ | line 1: TooManyCandidates
--kind soi | # NUMBER ALTERNATIVES: 64¶1: 65¶ | line 2: NoSuchCandidate
--kind toc | # NUMBER ALTERNATIVES: 65¶1: 1¶ | line 1: TooManyCandidates
--kind toc | # NUMBER ALTERNATIVES: 64¶1: 65¶ | line 2: NoSuchCandidate
--kind toi | # NUMBER ALTERNATIVES: 65¶1: 1¶ | line 1: TooManyCandidates
--kind toi | # NUMBER ALTERNATIVES: 64¶1: 65¶ | line 2: NoSuchCandidate
--kind cat | # NUMBER ALTERNATIVES: 65¶1: 1¶ | line 1: TooManyCandidates
--kind cat | # NUMBER ALTERNATIVES: 64¶1: 65¶ | line 2: NoSuchCandidate
--kind cat --category 1 | # NUMBER ALTERNATIVES: 4¶# NUMBER CATEGORIES: 4¶2: {1,2},3 | 4¶2: 1,2
--kind cat --category 3 | # NUMBER ALTERNATIVES: 4¶# NUMBER CATEGORIES: 4¶2: {1,2},3 | 4¶2: 
--kind toi --setsize 2 | # NUMBER ALTERNATIVES: 4¶# NUMBER CATEGORIES: 4¶0001:\t4 , { 2 ,3 }\t,1 | 4¶1: 2,3,4
--kind toi --classes 2 | # NUMBER ALTERNATIVES: 4¶# NUMBER CATEGORIES: 4¶7:{},{4},{},1 | 4¶7: 4
--kind toi --setsize 1 | # NUMBER ALTERNATIVES: 4¶# NUMBER CATEGORIES: 4¶7:{},{4},{},1 | 4¶7: 4
--kind soc --setsize 3 | # NUMBER ALTERNATIVES: 4¶# NUMBER CATEGORIES: 4¶4294967296:{3},1,2,4 | 4¶4294967296: 1,2,3
--kind soi --setsize 1 | # NUMBER ALTERNATIVES: 4¶# NUMBER CATEGORIES: 4¶5: | 4¶5: 
--kind cat --category 1 | # NUMBER ALTERNATIVES: 4¶# NUMBER CATEGORIES: 4¶ 5 : \t | 4¶5: 
--kind toi | # NUMBER ALTERNATIVES: 4¶# NUMBER CATEGORIES: 2¶3 | line 3: BadBallot
--kind toi | # NUMBER ALTERNATIVES: 4¶# NUMBER CATEGORIES: 2¶: 1 | line 3: BadBallot
--kind toi | # NUMBER ALTERNATIVES: 4¶# NUMBER CATEGORIES: 2¶1 2: 1 | line 3: BadBallot
--kind toi | # NUMBER ALTERNATIVES: 4¶# NUMBER CATEGORIES: 2¶3: 1 2 | line 3: BadBallot
--kind toi | # NUMBER ALTERNATIVES: 4¶# NUMBER CATEGORIES: 2¶3: 1, | line 3: BadBallot
--kind toi | # NUMBER ALTERNATIVES: 4¶# NUMBER CATEGORIES: 2¶3: ,1 | line 3: BadBallot
--kind toi | # NUMBER ALTERNATIVES: 4¶# NUMBER CATEGORIES: 2¶3: {1,} | line 3: BadBallot
--kind toi | # NUMBER ALTERNATIVES: 4¶# NUMBER CATEGORIES: 2¶3: {,} | line 3: BadBallot
--kind toi | # NUMBER ALTERNATIVES: 4¶# NUMBER CATEGORIES: 2¶3: {1 | line 3: BadBallot
--kind toi | # NUMBER ALTERNATIVES: 4¶# NUMBER CATEGORIES: 2¶3: 1} | line 3: BadBallot
--kind toi | # NUMBER ALTERNATIVES: 4¶# NUMBER CATEGORIES: 2¶3: {{1}} | line 3: BadBallot
--kind toi | # NUMBER ALTERNATIVES: 4¶# NUMBER CATEGORIES: 2¶0: 9,x | line 3: BadBallot
--kind toi | # NUMBER ALTERNATIVES: 4¶# NUMBER CATEGORIES: 2¶0: 9 | line 3: BadCount
--kind toi | # NUMBER ALTERNATIVES: 4¶# NUMBER CATEGORIES: 2¶4294967297: 9 | line 3: BadCount
--kind toi | # NUMBER ALTERNATIVES: 4¶# NUMBER CATEGORIES: 2¶18446744073709551617: 9 | line 3: BadCount
--kind soc | # NUMBER ALTERNATIVES: 4¶# NUMBER CATEGORIES: 2¶1: 1,5,1 | line 3: NoSuchCandidate
--kind soc | # NUMBER ALTERNATIVES: 4¶# NUMBER CATEGORIES: 2¶1: 1,{1},5 | line 3: RepeatedCandidate
--kind toi | # NUMBER ALTERNATIVES: 4¶# NUMBER CATEGORIES: 2¶1: 18446744073709551617 | line 3: NoSuchCandidate
--kind soc | # NUMBER ALTERNATIVES: 4¶# NUMBER CATEGORIES: 2¶1: {1,2} | line 3: NotStrict
--kind soc | # NUMBER ALTERNATIVES: 4¶# NUMBER CATEGORIES: 2¶1: 1,2,3 | line 3: Incomplete
--kind cat | # NUMBER ALTERNATIVES: 4¶# NUMBER CATEGORIES: 2¶1: 1,2,3 | line 3: TooManyClasses
--kind toi | # NUMBER ALTERNATIVES: 4¶# NUMBER CATEGORIES: 2¶ | NoVoters
 |  | NoAlternatives
 | \u{feff} | NoAlternatives
 | ¶ \t¶ | NoAlternatives
 | # a comment¶# DATA TYPE: soc | NoAlternatives
 | \u{feff}# DATA TYPE: cat\r¶# NUMBER ALTERNATIVES: 3¶# NUMBER CATEGORIES: 2\r¶2: {1,2},3¶1: 3\r | 3¶2: 1,2¶1: 3
 | # DATA TYPE: soc¶# ALTERNATIVE NAME 2: B\r¶# NUMBER ALTERNATIVES: 2¶\r¶3: 2,1\r¶4: 1,2\r¶ | 2¶2 B¶3: 2¶4: 1
 | \u{feff}¶# NUMBER ALTERNATIVES: 3¶ \t¶# DATA TYPE: soi¶1: 3¶5:¶6: 3 , 1 | 3¶7: 3¶5: 
 | \r¶# DATA TYPE: x\r¶# NUMBER ALTERNATIVES: 03\r¶#DATA TYPE:toc\r¶02:{1,3},2\r¶# y\r¶1: 2,1,3\r¶ | 3¶2: 1,3¶1: 2
 | \u{feff}# DATA TYPE: toi¶# NUMBER ALTERNATIVES: 3¶2: {1,3}\r¶1: 2¶\r¶3: 2,1\r | 3¶2: 1,3¶4: 2";

/// Asserts what the file of a row holds, as a whole and in pieces.
fn assert_row(rt: &impl Abort, alloc: Global, row: &str) {
    let text = row.replace(alloc, '¶', "\n").expect(rt, row);
    let (words, rest) = text.as_str().split_once(" | ").expect(rt, row);
    let (file, wanted) = rest.split_once(" | ").expect(rt, row);
    let pick = reading_as(rt, alloc, words);
    assert_holds(rt, alloc, pick, file.as_bytes(), wanted);
}

#[test]
fn profiles_and_faults(rt: HostRuntime) {
    for row in FILES.lines() {
        assert_row(&rt, rt.alloc(), row);
    }
}
