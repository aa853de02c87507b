//! Inputs at the edges of the format.

/// Files that are read.
static INPUTS: &str = "\
// 40 alternatives
< # DATA TYPE: cat¶# NUMBER ALTERNATIVES: 40¶# NUMBER CATEGORIES: 1¶1: 40¶
elect --rule av --size 1 | rule av¶size 1¶score 1/1¶40¶end
// 41 alternatives
< # DATA TYPE: cat¶# NUMBER ALTERNATIVES: 41¶# NUMBER CATEGORIES: 1¶1: 41¶
elect --rule av --size 1 | rule av¶size 1¶score 1/1¶41¶end
// 64 alternatives
< # DATA TYPE: cat¶# NUMBER ALTERNATIVES: 64¶# NUMBER CATEGORIES: 1¶1: 64¶
elect --rule av --size 1 | rule av¶size 1¶score 1/1¶64¶end
// one alternative
< # DATA TYPE: cat¶# NUMBER ALTERNATIVES: 1¶# NUMBER CATEGORIES: 1¶1: 1¶
elect --rule av --size 1 | rule av¶size 1¶score 1/1¶1¶end
// zeros ahead
< # DATA TYPE: cat¶# NUMBER ALTERNATIVES: 0000000000000000000000002¶# NUMBER CATEGORIES: 001¶003: 02¶
elect --rule av --size 1 | rule av¶size 1¶score 3/1¶2¶end
// blanks around
< # DATA TYPE: cat¶# NUMBER ALTERNATIVES: \t 2 ¶# NUMBER CATEGORIES:  1\t¶1: 2¶
elect --rule av --size 1 | rule av¶size 1¶score 1/1¶2¶end
// 2^32 categories
< # DATA TYPE: cat¶# NUMBER ALTERNATIVES: 2¶# NUMBER CATEGORIES: 4294967296¶1: 2¶
elect --rule av --size 1 | rule av¶size 1¶score 1/1¶2¶end
// 2^32 voters with one ballot
< # DATA TYPE: cat¶# NUMBER ALTERNATIVES: 2¶# NUMBER CATEGORIES: 1¶4294967296: 1¶
elect --rule av --size 1 | rule av¶size 1¶score 4294967296/1¶1¶end
// 2^32 voters with two ballots
< # DATA TYPE: cat¶# NUMBER ALTERNATIVES: 2¶# NUMBER CATEGORIES: 1¶4294967295: 1¶1: 2¶
elect --rule av --size 1 | rule av¶size 1¶score 4294967295/1¶1¶end
// 2^32 voters on two lines
< # DATA TYPE: cat¶# NUMBER ALTERNATIVES: 2¶# NUMBER CATEGORIES: 1¶4294967295: 1¶1: 1¶
elect --rule av --size 1 | rule av¶size 1¶score 4294967296/1¶1¶end
// the same numbers again
< # DATA TYPE: cat¶# NUMBER ALTERNATIVES: 2¶#NUMBER ALTERNATIVES:02¶# NUMBER CATEGORIES: 1¶#NUMBER CATEGORIES:01¶1: 2¶
elect --rule av --size 1 | rule av¶size 1¶score 1/1¶2¶end
// an empty first class
< # DATA TYPE: cat¶# NUMBER ALTERNATIVES: 3¶# NUMBER CATEGORIES: 3¶3: {},1¶
elect --rule av --size 1 | rule av¶size 1¶score 0/1¶1¶2¶3¶end
// an empty class alone
< # DATA TYPE: cat¶# NUMBER ALTERNATIVES: 3¶# NUMBER CATEGORIES: 3¶3: {}¶
elect --rule av --size 1 | rule av¶size 1¶score 0/1¶1¶2¶3¶end
// blanks between braces
< # DATA TYPE: cat¶# NUMBER ALTERNATIVES: 3¶# NUMBER CATEGORIES: 3¶3: {\t }¶
elect --rule av --size 1 | rule av¶size 1¶score 0/1¶1¶2¶3¶end
// no class
< # DATA TYPE: cat¶# NUMBER ALTERNATIVES: 3¶# NUMBER CATEGORIES: 3¶3:¶
elect --rule av --size 1 | rule av¶size 1¶score 0/1¶1¶2¶3¶end
// blanks and no class
< # DATA TYPE: cat¶# NUMBER ALTERNATIVES: 3¶# NUMBER CATEGORIES: 3¶3: \t¶
elect --rule av --size 1 | rule av¶size 1¶score 0/1¶1¶2¶3¶end
// one number in braces
< # DATA TYPE: cat¶# NUMBER ALTERNATIVES: 3¶# NUMBER CATEGORIES: 3¶1: {2}¶
elect --rule av --size 1 | rule av¶size 1¶score 1/1¶2¶end
// numbers that go down
< # DATA TYPE: cat¶# NUMBER ALTERNATIVES: 3¶# NUMBER CATEGORIES: 3¶1: {3,1}¶
elect --rule av --size 1 | rule av¶size 1¶score 1/1¶1¶3¶end
// as many classes as categories
< # DATA TYPE: cat¶# NUMBER ALTERNATIVES: 3¶# NUMBER CATEGORIES: 3¶1: 3,{},{1,2}¶
elect --rule av --size 1 | rule av¶size 1¶score 1/1¶3¶end
// candidates in no class
< # DATA TYPE: cat¶# NUMBER ALTERNATIVES: 3¶# NUMBER CATEGORIES: 3¶1: 2¶
elect --rule av --size 1 | rule av¶size 1¶score 1/1¶2¶end
// a ballot on two lines
< # DATA TYPE: cat¶# NUMBER ALTERNATIVES: 3¶# NUMBER CATEGORIES: 3¶2: 1¶3: 2¶2: 1¶
elect --rule av --size 1 | rule av¶size 1¶score 4/1¶1¶end
// no blank
< # DATA TYPE: cat¶# NUMBER ALTERNATIVES: 3¶# NUMBER CATEGORIES: 3¶2:{1,2},3¶
elect --rule av --size 1 | rule av¶size 1¶score 2/1¶1¶2¶end
// blanks everywhere
< # DATA TYPE: cat¶# NUMBER ALTERNATIVES: 3¶# NUMBER CATEGORIES: 3¶\t2 : \t{ 1\t, 2 } ,\t3 ¶
elect --rule av --size 1 | rule av¶size 1¶score 2/1¶1¶2¶end
// no end of the last line
< # DATA TYPE: cat¶# NUMBER ALTERNATIVES: 3¶# NUMBER CATEGORIES: 3¶1: 1
elect --rule av --size 1 | rule av¶size 1¶score 1/1¶1¶end
// a return at the end of the input
< # DATA TYPE: cat¶# NUMBER ALTERNATIVES: 3¶# NUMBER CATEGORIES: 3¶1: 1\r
elect --rule av --size 1 | rule av¶size 1¶score 1/1¶1¶end
// returns
< # DATA TYPE: cat¶# NUMBER ALTERNATIVES: 3¶# NUMBER CATEGORIES: 3¶1: 1\r¶1: 2\r¶1: 2\r¶
elect --rule av --size 1 | rule av¶size 1¶score 2/1¶2¶end
// blank lines
< # DATA TYPE: cat¶# NUMBER ALTERNATIVES: 3¶# NUMBER CATEGORIES: 3¶¶ \t¶\r¶1: 1¶¶\t\r¶1: 1¶¶ \t
elect --rule av --size 1 | rule av¶size 1¶score 2/1¶1¶end
// metadata after a ballot
< # DATA TYPE: cat¶# NUMBER ALTERNATIVES: 3¶# NUMBER CATEGORIES: 3¶1: 1¶# NUMBER ALTERNATIVES: x¶ #DATA TYPE: x¶#¶1: 1¶
elect --rule av --size 1 | rule av¶size 1¶score 2/1¶1¶end
// no categories
< # DATA TYPE: cat¶# NUMBER ALTERNATIVES: 2¶1: 2,{},{},1¶
elect --rule av --size 1 | rule av¶size 1¶score 1/1¶2¶end
// another order
< # NUMBER ALTERNATIVES: 1¶# DATA TYPE: cat¶1: 1¶
elect --rule av --size 1 | rule av¶size 1¶score 1/1¶1¶end
// letters of any case
< #number ALTERNATIVES:2¶#dAtA tYpE:CaT¶1: 2¶
elect --rule av --size 1 | rule av¶size 1¶score 1/1¶2¶end
// blanks
<  \t#\tNUMBER \t ALTERNATIVES \t: \t 2 \t¶# DATA\tTYPE :cat¶1: 2¶
elect --rule av --size 1 | rule av¶size 1¶score 1/1¶2¶end
// a mark and returns
< \u{feff}# DATA TYPE: cat\r¶# NUMBER ALTERNATIVES: 1\r¶1: 1\r¶
elect --rule av --size 1 | rule av¶size 1¶score 1/1¶1¶end
// headers of no use
< # TITLE: x: y¶# NUMBER ALTERNATIVES¶#¶#:¶#::¶# NUMBER VOTERS: 9¶# CATEGORY NAME 1: yes¶# DATA TYPE: cat¶# NUMBER ALTERNATIVES: 1¶1: 1¶
elect --rule av --size 1 | rule av¶size 1¶score 1/1¶1¶end
// headers with a word more or less
< # NUMBER ALTERNATIVES X: 9¶# A NUMBER ALTERNATIVES: 8¶# NUMBERALTERNATIVES: 7¶# ALTERNATIVES: 6¶# NUMBER: 5¶# DATA TYPE: cat¶# NUMBER ALTERNATIVES: 1¶1: 1¶
elect --rule av --size 1 | rule av¶size 1¶score 1/1¶1¶end
// the last type
< # DATA TYPE: soc¶# DATA TYPE:¶# DATA TYPE: cat¶# NUMBER ALTERNATIVES: 2¶1: 2¶
elect --rule av --size 1 | rule av¶size 1¶score 1/1¶2¶end
// the type of the words
< # DATA TYPE: soc¶# NUMBER ALTERNATIVES: 3¶1: {},{1,2}¶
elect --rule av --size 1 --kind toi | rule av¶size 1¶score 1/1¶1¶2¶end
// the type of the words beside a bad one
< # DATA TYPE: x¶# NUMBER ALTERNATIVES: 2¶1: 2¶
elect --rule av --size 1 --kind cat | rule av¶size 1¶score 1/1¶2¶end
// the type of the file beside its name
< # DATA TYPE: toi¶# NUMBER ALTERNATIVES: 3¶1: {1,2}¶
elect --rule av --size 1 a.soc | rule av¶size 1¶score 1/1¶1¶2¶end
// a mark, returns, blanks and no end of the last line
< \u{feff}#data type:CAT\r¶ # number alternatives : 03 \r¶\r¶ 02 : { 1 , 2 } , 3\r¶1:{03},{1,2}
elect --rule av --size 1 | rule av¶size 1¶score 2/1¶1¶2¶end";

#[test]
fn files_that_are_read(rt: HostRuntime) {
    super::assert_table(&rt, rt.alloc(), INPUTS);
}
