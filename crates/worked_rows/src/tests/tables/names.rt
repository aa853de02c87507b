//! Names beside numbers.

/// Names in answers and reports, and which names a file gives.
static NAMES: &str = "\
// Three candidates, of whom the second has no name.
< # DATA TYPE: soi¶# NUMBER ALTERNATIVES: 3¶# ALTERNATIVE NAME 1: Red¶# ALTERNATIVE NAME 3: Blue¶5: 1,2¶3: 3¶2:¶
share --method dhondt --seats 2 --names | method dhondt¶seats 2¶1,0,1\tRed; Blue¶end
elect --rule av --size 3 --names | rule av¶size 3¶score 8/1¶1,2,3\tRed; 2; Blue¶end
elect --rule seqpav --size 1 --names --limit 1 | rule seqpav¶size 1¶1\tRed¶end
share --method dhondt --seats 7 --votes 53,24,23 --names | method dhondt¶seats 7¶4,2,1\t1; 2; 3¶end
share --method dhondt --seats 1 --votes 1,5 --names | method dhondt¶seats 1¶0,1\t2¶end
check --property jr --committee 2,3 --names | violated jr¶level 1¶candidates 1\tRed¶voters 5 of 10¶5: 1\tRed
check --property pjr --committee 2,3 --names | violated pjr¶level 1¶candidates 1\tRed¶within -¶voters 5 of 10¶5: 1\tRed
// Two voters who approve three of four candidates; the third has a name.
< # DATA TYPE: cat¶# NUMBER ALTERNATIVES: 4¶# ALTERNATIVE NAME 3: C; D¶2: {1,2,3}¶
check --property jr --committee 1 --names | holds
check --property pjr --committee 3,4 --names | violated pjr¶level 2¶candidates 1,2\t1; 2¶within 3\tC; D¶voters 2 of 2¶2: 1,2,3\t1; 2; C; D
check --property ejrplus --committee 4 --names | violated ejrplus¶level 1¶candidates 1\t1¶voters 2 of 2¶2: 1,2,3\t1; 2; C; D
// no name
< # NUMBER ALTERNATIVES: 3¶1: 1¶
elect --rule av --size 3 --kind cat --names | rule av¶size 3¶score 1/1¶1,2,3\t1; 2; 3¶end
// before and after the number
< # ALTERNATIVE NAME 3: Red¶# ALTERNATIVE NAME 1: Blue¶# NUMBER ALTERNATIVES: 3¶# ALTERNATIVE NAME 2: Green¶# ALTERNATIVE NAME 1: Navy¶1: 1¶
elect --rule av --size 3 --kind cat --names | rule av¶size 3¶score 1/1¶1,2,3\tNavy; Green; Red¶end
// of candidates that there are not
< # ALTERNATIVE NAME 4: a¶# ALTERNATIVE NAME 64: b¶# NUMBER ALTERNATIVES: 3¶# ALTERNATIVE NAME 4: c¶# ALTERNATIVE NAME 0: d¶# ALTERNATIVE NAME 65: e¶# ALTERNATIVE NAME 257: f¶# ALTERNATIVE NAME 18446744073709551617: g¶1: 1¶
elect --rule av --size 3 --kind cat --names | rule av¶size 3¶score 1/1¶1,2,3\t1; 2; 3¶end
// an empty name
< # ALTERNATIVE NAME 1: Red¶# ALTERNATIVE NAME 1: \t¶# ALTERNATIVE NAME 2:¶# NUMBER ALTERNATIVES: 3¶1: 1¶
elect --rule av --size 3 --kind cat --names | rule av¶size 3¶score 1/1¶1,2,3\t1; 2; 3¶end
// blanks and colons
< # NUMBER ALTERNATIVES: 3¶#alternative\tName 002 : \t a: b \t c:  ¶1: 1¶
elect --rule av --size 3 --kind cat --names | rule av¶size 3¶score 1/1¶1,2,3\t1; a: b \t c:; 3¶end
// returns
< # NUMBER ALTERNATIVES: 3\r¶# ALTERNATIVE NAME 3: a\rb\r\r¶1: 1¶
elect --rule av --size 3 --kind cat --names | rule av¶size 3¶score 1/1¶1,2,3\t1; 2; a\rb\r¶end
// a number after a sign
< # NUMBER ALTERNATIVES: 3¶# ALTERNATIVE NAME +1: a¶1: 1¶
elect --rule av --size 3 --kind cat --names | rule av¶size 3¶score 1/1¶1,2,3\t1; 2; 3¶end
// two numbers
< # NUMBER ALTERNATIVES: 3¶# ALTERNATIVE NAME 1 2: a¶1: 1¶
elect --rule av --size 3 --kind cat --names | rule av¶size 3¶score 1/1¶1,2,3\t1; 2; 3¶end
// no number
< # NUMBER ALTERNATIVES: 3¶# ALTERNATIVE NAME: a¶1: 1¶
elect --rule av --size 3 --kind cat --names | rule av¶size 3¶score 1/1¶1,2,3\t1; 2; 3¶end
// no colon
< # NUMBER ALTERNATIVES: 3¶# ALTERNATIVE NAME 1 a¶1: 1¶
elect --rule av --size 3 --kind cat --names | rule av¶size 3¶score 1/1¶1,2,3\t1; 2; 3¶end
// a number at the word
< # NUMBER ALTERNATIVES: 3¶# ALTERNATIVE NAME1: a¶1: 1¶
elect --rule av --size 3 --kind cat --names | rule av¶size 3¶score 1/1¶1,2,3\t1; 2; 3¶end
// after a ballot
< # NUMBER ALTERNATIVES: 3¶# ALTERNATIVE NAME 1: a¶1: 1¶# ALTERNATIVE NAME 1: b¶# ALTERNATIVE NAME 2: c¶1: 1¶
elect --rule av --size 3 --kind cat --names | rule av¶size 3¶score 2/1¶1,2,3\ta; 2; 3¶end";

#[test]
fn names_of_candidates(rt: HostRuntime) {
    super::assert_table(&rt, rt.alloc(), NAMES);
}
