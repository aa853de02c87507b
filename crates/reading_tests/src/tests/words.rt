//! Words of the command line, and what is made of them: a request, or a refusal.
use super::support::read_line;
use request_words::{LineFault, read_request};
use std::alloc::Global;
use std::process::Abort;

/// Words after the program's name, and parts of the report on them: the request or the fault, and the line on it.
/// `·` in a word is a blank, and `''` is a word of no bytes.
static LINES: &str = "\
// Elections.
elect --rule av --size 007 | Elect(Electing { rule: Scored(Thiele(Av)), size: 7, page: Page | file: None
elect a.cat --size=40 --rule=av | Elect(Electing { rule: Scored(Thiele(Av)), size: 40, page: Page | file: Some(\"a.cat\")
elect --size 3 --rule seqpav | Elect(Electing { rule: Sequential(SeqPav), size: 3, page: Page
// Checks.
check --property jr --committee 3,1 | Check(Jr, [3, 1]) | file: None
check --property pjr --committee=007 | Check(Pjr, [7])
check --property ejr --committee 0,0 a.soc | Check(Ejr, [0, 0]) | file: Some(\"a.soc\")
check --property ejr --committee 18446744073709551615 | Check(Ejr, [18446744073709551615])
// Shares of seats.
share --method hamilton --seats 1 | OfBallots(Share(Sharing { method: Hamilton, seats: 1, page: Page | file: None
share --method dhondt --seats 10000 --votes 53,24,23 | OfVotes([53, 24, 23], Sharing { method: Dhondt, seats: 10000, | file: None
share --method saintelague --seats=02 | OfBallots(Share(Sharing { method: SainteLague, seats: 2, page: Page | file: None
share --method huntington --seats 3 | OfBallots(Share(Sharing { method: Huntington, seats: 3, page: Page | file: None
share --method adams --votes=0 --seats 4 | OfVotes([0], Sharing { method: Adams, seats: 4, | file: None
share --method dean --seats 5 a.soi | OfBallots(Share(Sharing { method: Dean, seats: 5, page: Page | file: Some(\"a.soi\")
// How a file is read.
elect --rule av --size 1 | kind: None, ending: None, way: Usual }
elect --rule av --size 1 a.soc | kind: None, ending: Some(Soc), way: Usual }
elect --rule av --size 1 --kind cat | kind: Some(Cat), ending: None, way: Usual }
elect --rule av --size 1 --kind soc | kind: Some(Soc), ending: None, way: Usual }
elect --rule av --size 1 --kind soi | kind: Some(Soi), ending: None, way: Usual }
elect --rule av --size 1 --kind toc | kind: Some(Toc), ending: None, way: Usual }
elect --rule av --size 1 --kind=toi a.cat | kind: Some(Toi), ending: Some(Cat), way: Usual }
elect --rule av --size 1 --category 1 | kind: None, ending: None, way: Category(1) }
elect --rule av --size 1 --category=1000000 | kind: None, ending: None, way: Category(1000000) }
elect --rule av --size 1 a.soi --setsize 02 | kind: None, ending: Some(Soi), way: SetSize(2) }
elect --rule av --size 1 --classes 3 --kind toc | kind: Some(Toc), ending: None, way: Classes(3) }
// Ends of file names.
elect --rule av --size 1 a.cat | ending: Some(Cat) | file: Some(\"a.cat\")
elect --rule av --size 1 a/b/c.SOC | ending: Some(Soc) | file: Some(\"a/b/c.SOC\")
elect --rule av --size 1 a.soc.toi | ending: Some(Toi) | file: Some(\"a.soc.toi\")
elect --rule av --size 1 a.toc/b.Soi | ending: Some(Soi) | file: Some(\"a.toc/b.Soi\")
elect --rule av --size 1 .toc | ending: Some(Toc) | file: Some(\".toc\")
elect --rule av --size 1 a.toc/b | ending: None | file: Some(\"a.toc/b\")
elect --rule av --size 1 a.toc/ | ending: None | file: Some(\"a.toc/\")
elect --rule av --size 1 a.soc.txt | ending: None | file: Some(\"a.soc.txt\")
elect --rule av --size 1 a.soc. | ending: None | file: Some(\"a.soc.\")
elect --rule av --size 1 soc | ending: None | file: Some(\"soc\")
elect --rule av --size 1 / | ending: None | file: Some(\"/\")
elect --rule av --size 1 a·b.soc | ending: Some(Soc) | file: Some(\"a b.soc\")
share --method=dean --seats=1 --kind=cat '' | kind: Some(Cat), ending: None | file: Some(\"\")
// Starts and limits.
elect --rule seqcc --size 2 | Page { after: None, limit: None }
share --method dean --seats 2 | Page { after: None, limit: None }
elect --rule seqcc --size 2 --after 3,1 | Page { after: Some([3, 1]), limit: None }
share --method dean --seats 2 --after 3,1 | Page { after: Some([3, 1]), limit: None }
elect --rule seqcc --size 2 --limit 1 | Page { after: None, limit: Some(1) }
share --method dean --seats 2 --limit 1 | Page { after: None, limit: Some(1) }
elect --rule seqcc --size 2 --limit=4294967295 --names | Page { after: None, limit: Some(4294967295) }
share --method dean --seats 2 --limit=4294967295 --names | Page { after: None, limit: Some(4294967295) }
elect --rule seqcc --size 2 --after=0 --limit 02 | Page { after: Some([0]), limit: Some(2) }
share --method dean --seats 2 --after=0 --limit 02 | Page { after: Some([0]), limit: Some(2) }
elect --rule seqcc --size 2 --after 18446744073709551615 | Page { after: Some([18446744073709551615]), limit: None }
share --method dean --seats 2 --after 18446744073709551615 | Page { after: Some([18446744073709551615]), limit: None }
// Whether names are wanted.
elect --rule av --size 1 | names: false
elect --rule av --size 1 --names | names: true
check --property jr --committee 1 | names: false
check --property jr --committee 1 --names | names: true
share --method dean --seats 1 | names: false
share --method dean --seats 1 --names | names: true
share --method dean --seats 1 --votes 1 | names: false
share --method dean --seats 1 --votes 1 --names | names: true
// Lists of numbers.
check --property jr --committee=0 | Check(Jr, [0])
share --method dean --seats=7 --votes=0 | OfVotes([0], Sharing { method: Dean, seats: 7,
elect --rule av --size=2 --after=0 | after: Some([0])
check --property jr --committee=53,24,23 | Check(Jr, [53, 24, 23])
share --method dean --seats=7 --votes=53,24,23 | OfVotes([53, 24, 23], Sharing { method: Dean, seats: 7,
elect --rule av --size=2 --after=53,24,23 | after: Some([53, 24, 23])
check --property jr --committee=3,1,1,0 | Check(Jr, [3, 1, 1, 0])
share --method dean --seats=7 --votes=3,1,1,0 | OfVotes([3, 1, 1, 0], Sharing { method: Dean, seats: 7,
elect --rule av --size=2 --after=3,1,1,0 | after: Some([3, 1, 1, 0])
check --property jr --committee=007,0000,00000000000000000000000001 | Check(Jr, [7, 0, 1])
share --method dean --seats=7 --votes=007,0000,00000000000000000000000001 | OfVotes([7, 0, 1], Sharing { method: Dean, seats: 7,
elect --rule av --size=2 --after=007,0000,00000000000000000000000001 | after: Some([7, 0, 1])
check --property jr --committee=18446744073709551615 | Check(Jr, [18446744073709551615])
share --method dean --seats=7 --votes=18446744073709551615 | OfVotes([18446744073709551615], Sharing { method: Dean, seats: 7,
elect --rule av --size=2 --after=18446744073709551615 | after: Some([18446744073709551615])
check --property jr --committee=1,0018446744073709551615 | Check(Jr, [1, 18446744073709551615])
share --method dean --seats=7 --votes=1,0018446744073709551615 | OfVotes([1, 18446744073709551615], Sharing { method: Dean, seats: 7,
elect --rule av --size=2 --after=1,0018446744073709551615 | after: Some([1, 18446744073709551615])
// Of several faults the first is told, in the order of the lists, the ways, and votes beside an input.
check --property jr --committee 1, | 'committees: words: BadList --committee'
check --property jr --committee 1, --category 1 --setsize 1 | 'committees: words: BadList --committee'
check --category 1 --classes 1 --committee 1,,2 --property ejr a.soc | 'committees: words: BadList --committee'
share --method dhondt --seats 1 --votes 1, | 'committees: words: BadList --votes'
share --method dhondt --seats 1 --votes 1, --category 1 --setsize 1 | 'committees: words: BadList --votes'
share --method dhondt --seats 1 --votes 1, a.cat | 'committees: words: BadList --votes'
share --method dhondt --seats 1 --kind cat --votes x | 'committees: words: BadList --votes'
share a.cat --votes ,1 --setsize 1 --classes 1 --method dhondt --seats 1 | 'committees: words: BadList --votes'
check --property jr --committee 1 --category 1 --setsize 1 | 'committees: words: TwoPicks'
check --property pjr --committee 1 --category 1 --classes 1 a.cat | 'committees: words: TwoPicks'
share --method dhondt --seats 1 --setsize 1 --classes 1 | 'committees: words: TwoPicks'
share --method dhondt --seats 1 --votes 1 --category 1 --setsize 1 | 'committees: words: TwoPicks'
share --method dhondt --seats 1 --votes 1 --category 1 --classes 1 | 'committees: words: TwoPicks'
share --method dhondt --seats 1 --votes 1 --setsize 1 --classes 1 a.cat | 'committees: words: TwoPicks'
share --classes 1 --kind cat --votes 1,2 --category 1 --setsize 1 --seats 1 --method dean | 'committees: words: TwoPicks'
share --method dhondt --seats 1 --votes 1,2 --kind cat | 'committees: words: VotesAndInput'
share --method dhondt --seats 1 --votes 1,2 a.cat | 'committees: words: VotesAndInput'
share a --method hamilton --seats 1 --votes 1 | 'committees: words: VotesAndInput'
share --method saintelague --seats 1 --votes 1 --category 1 | 'committees: words: VotesAndInput'
share --method huntington --seats 1 --setsize 1000000 --votes 1 | 'committees: words: VotesAndInput'
share --method adams --seats 1 --votes 1 --classes 2 | 'committees: words: VotesAndInput'
share --method dean --seats 1 --votes 1 --kind toi --setsize 2 a.toi | 'committees: words: VotesAndInput'
share --method dean --seats 1 --votes 0,0 --kind soc | 'committees: words: VotesAndInput'
// A file with an empty name is a file.
share --method=dean --seats=1 --votes=1 '' | 'committees: words: VotesAndInput'
share --method=dean --seats=1 --votes=1, '' | 'committees: words: BadList --votes'
// Words that clap refuses.
check | Usage(\"error:
check --property jr | Usage(\"error:
check --committee 1 | Usage(\"error:
check --property JR --committee 1 | Usage(\"error:
check --property av --committee 1 | Usage(\"error:
check --property jr --committee | Usage(\"error:
check --property jr --committee 1 --committee 2 | Usage(\"error:
check --property jr --committee 1 --size 1 | Usage(\"error:
check --property jr --committee 1 --votes 1 | Usage(\"error:
check --property jr --committee 1, --setsize 0 | Usage(\"error:
check --property jr --committee 1 a b | Usage(\"error:
share | Usage(\"error:
share --method dhondt | Usage(\"error:
share --seats 1 | Usage(\"error:
share --method d'hondt --seats 1 | Usage(\"error:
share --method dhondt --seats 0 | Usage(\"error:
share --method dhondt --seats 10001 | Usage(\"error:
share --method dhondt --seats 65537 | Usage(\"error:
share --method dhondt --seats 1 --seats 1 | Usage(\"error:
share --method dhondt --seats x --votes 1, | Usage(\"error:
share --method dhondt --seats 1 --votes | Usage(\"error:
share --method dhondt --seats 1 --votes 1 --votes 1 | Usage(\"error:
share --method dhondt --seats 1 --committee 1 | Usage(\"error:
share --method dhondt --seats 1 --votes 1 --kind x | Usage(\"error:
elect --rule av --size 1 --votes 1 | Usage(\"error:
elect --rule av --size 1 --committee 1 | Usage(\"error:
elect --method dhondt --seats 1 | Usage(\"error:
// Ways.
elect --rule av --size 1 --kind soi --setsize 1 --classes 1 | 'committees: words: TwoPicks'
elect --rule av --size 1 --category 1 --setsize 1 | 'committees: words: TwoPicks'
elect --rule av --size 1 --classes 2 --category 1 | 'committees: words: TwoPicks'
elect --rule av --size 1 --classes 1 --setsize 2 --category 3 | 'committees: words: TwoPicks'
elect --rule av --size 1 --kind CAT | Usage(\"error:
elect --rule av --size 1 --kind tog | Usage(\"error:
elect --rule av --size 1 --kind | Usage(\"error:
elect --rule av --size 1 --kind cat --kind cat | Usage(\"error:
elect --rule av --size 1 --category 0 | Usage(\"error:
elect --rule av --size 1 --setsize 0 | Usage(\"error:
elect --rule av --size 1 --classes 0 | Usage(\"error:
elect --rule av --size 1 --category 1000001 | Usage(\"error:
elect --rule av --size 1 --setsize 1000001 | Usage(\"error:
elect --rule av --size 1 --classes 1000001 | Usage(\"error:
elect --rule av --size 1 --classes 4294967297 | Usage(\"error:
elect --rule av --size 1 --category x | Usage(\"error:
elect --rule av --size 1 --category 1 --category 1 | Usage(\"error:
elect --rule av --size 1 --setsize 1 --classes 0 | Usage(\"error:
elect --rule av --size 1 --names=true | Usage(\"error:
elect --rule av --size 1 --category 1 --classes 1 | 'committees: words: TwoPicks'
elect --setsize 2 --rule av --size 1 --classes 2 a.soc | 'committees: words: TwoPicks'
elect --rule av --size 1 --category 1 --setsize 1 --classes 1 | 'committees: words: TwoPicks'
share --method dean --seats 1 --category 1 --setsize 1 | 'committees: words: TwoPicks'
share --method dean --seats 1 --votes 1 --category 1 --setsize 1 | 'committees: words: TwoPicks'
share --method dean --seats 1 --votes 1 a.soi | 'committees: words: VotesAndInput'
share --method dean --seats 1 --votes 1 --kind soi | 'committees: words: VotesAndInput'
share --method dean --seats 1 --votes 1 --category 1 | 'committees: words: VotesAndInput'
share --method dean --seats 1 --votes 1 --setsize 1 | 'committees: words: VotesAndInput'
share --classes 1 --method dean --seats 1 --votes 1 | 'committees: words: VotesAndInput'
check --property jr --committee 1, --category 1 --classes 1 a.cat | 'committees: words: BadList --committee'
share --method dean --seats 1 --votes 1, --category 1 --classes 1 a.cat | 'committees: words: BadList --votes'
share --method dean --seats 1 --after 1, --votes 1, | 'committees: words: BadList --votes'
elect --rule cc --size 2 --after 1,,2 | 'committees: words: BadList --after'
elect --rule av --size 1 --after 1, --category 1 --classes 1 | 'committees: words: BadList --after'
share --method dean --seats 1 --votes 1 --after 1,,2 a.cat | 'committees: words: BadList --after'
 | Usage(\"error:
elect --size 1 | Usage(\"error:
elect --rule av --size 0 | Usage(\"error:
elect --rule av --size 41 | Usage(\"error:
elect --rule phragmen --size 1 | Usage(\"error:
elect --rule av --size 1 --limit 0 | Usage(\"error:
elect --rule av --size 1 --limit 4294967296 | Usage(\"error:
elect --rule av --size 1 --limit 1 --limit 1 | Usage(\"error:
elect --rule av --size 1 --after 1 --after 1 | Usage(\"error:
elect --rule av --size 1 --names --names | Usage(\"error:
elect --rule av --size 1 --kind SOC | Usage(\"error:
elect --rule av --size 1 --kind other | Usage(\"error:
elect --rule av --size 1 --classes many | Usage(\"error:
elect --rule av --size 1 --classes 1 --classes 1 | Usage(\"error:
elect --rule av --size 0 --category 1 --classes 1 | Usage(\"error:
share --rule av --size 1 | Usage(\"error:
check --property ejr+ --committee 1 | Usage(\"error:
share --method dean --seats 0 | Usage(\"error:
share --method dean --seats 10001 | Usage(\"error:
share --method jefferson --seats 1 | Usage(\"error:
check --property jr --committee 1 --after 1 | Usage(\"error:
check --property jr --committee 1 --limit 1 | Usage(\"error:
share --method dean --seats 1 --votes 1 --votes 1 | Usage(\"error:
share --method dean --seats 1 --committee 1 | Usage(\"error:
--version | Usage(\"error:
// Help.
--help | Help( | Usage: committees <COMMAND>\\n
elect -h | Help( | Usage: committees elect [OPTIONS] --rule <RULE> --size <SIZE> [FILE]\\n
check -h | Help( | Usage: committees check [OPTIONS] --property <NAME> --committee <LIST> [FILE]\\n
check --help | Help( | Usage: committees check [OPTIONS] --property <NAME> --committee <LIST> [FILE]\\n
share --help | Help( | Usage: committees share [OPTIONS] --method <METHOD> --seats <SEATS> [FILE]\\n
share --votes 1, -h | Help( | Usage: committees share [OPTIONS] --method <METHOD> --seats <SEATS> [FILE]\\n
// Words that are no lists of numbers.
check --property jr --committee= | 'committees: words: BadList --committee'
share --method dean --seats=7 --votes= | 'committees: words: BadList --votes'
elect --rule av --size=2 --after= | 'committees: words: BadList --after'
check --property jr --committee=, | 'committees: words: BadList --committee'
share --method dean --seats=7 --votes=, | 'committees: words: BadList --votes'
elect --rule av --size=2 --after=, | 'committees: words: BadList --after'
check --property jr --committee=1, | 'committees: words: BadList --committee'
share --method dean --seats=7 --votes=1, | 'committees: words: BadList --votes'
elect --rule av --size=2 --after=1, | 'committees: words: BadList --after'
check --property jr --committee=,1 | 'committees: words: BadList --committee'
share --method dean --seats=7 --votes=,1 | 'committees: words: BadList --votes'
elect --rule av --size=2 --after=,1 | 'committees: words: BadList --after'
check --property jr --committee=1,,2 | 'committees: words: BadList --committee'
share --method dean --seats=7 --votes=1,,2 | 'committees: words: BadList --votes'
elect --rule av --size=2 --after=1,,2 | 'committees: words: BadList --after'
check --property jr --committee=,, | 'committees: words: BadList --committee'
share --method dean --seats=7 --votes=,, | 'committees: words: BadList --votes'
elect --rule av --size=2 --after=,, | 'committees: words: BadList --after'
check --property jr --committee=· | 'committees: words: BadList --committee'
share --method dean --seats=7 --votes=· | 'committees: words: BadList --votes'
elect --rule av --size=2 --after=· | 'committees: words: BadList --after'
check --property jr --committee=1· | 'committees: words: BadList --committee'
share --method dean --seats=7 --votes=1· | 'committees: words: BadList --votes'
elect --rule av --size=2 --after=1· | 'committees: words: BadList --after'
check --property jr --committee=·1 | 'committees: words: BadList --committee'
share --method dean --seats=7 --votes=·1 | 'committees: words: BadList --votes'
elect --rule av --size=2 --after=·1 | 'committees: words: BadList --after'
check --property jr --committee=1,·2 | 'committees: words: BadList --committee'
share --method dean --seats=7 --votes=1,·2 | 'committees: words: BadList --votes'
elect --rule av --size=2 --after=1,·2 | 'committees: words: BadList --after'
check --property jr --committee=1·,2 | 'committees: words: BadList --committee'
share --method dean --seats=7 --votes=1·,2 | 'committees: words: BadList --votes'
elect --rule av --size=2 --after=1·,2 | 'committees: words: BadList --after'
check --property jr --committee=\t1 | 'committees: words: BadList --committee'
share --method dean --seats=7 --votes=\t1 | 'committees: words: BadList --votes'
elect --rule av --size=2 --after=\t1 | 'committees: words: BadList --after'
check --property jr --committee=+1 | 'committees: words: BadList --committee'
share --method dean --seats=7 --votes=+1 | 'committees: words: BadList --votes'
elect --rule av --size=2 --after=+1 | 'committees: words: BadList --after'
check --property jr --committee=1,+2 | 'committees: words: BadList --committee'
share --method dean --seats=7 --votes=1,+2 | 'committees: words: BadList --votes'
elect --rule av --size=2 --after=1,+2 | 'committees: words: BadList --after'
check --property jr --committee=-1 | 'committees: words: BadList --committee'
share --method dean --seats=7 --votes=-1 | 'committees: words: BadList --votes'
elect --rule av --size=2 --after=-1 | 'committees: words: BadList --after'
check --property jr --committee=-0 | 'committees: words: BadList --committee'
share --method dean --seats=7 --votes=-0 | 'committees: words: BadList --votes'
elect --rule av --size=2 --after=-0 | 'committees: words: BadList --after'
check --property jr --committee=1;2 | 'committees: words: BadList --committee'
share --method dean --seats=7 --votes=1;2 | 'committees: words: BadList --votes'
elect --rule av --size=2 --after=1;2 | 'committees: words: BadList --after'
check --property jr --committee=1.0 | 'committees: words: BadList --committee'
share --method dean --seats=7 --votes=1.0 | 'committees: words: BadList --votes'
elect --rule av --size=2 --after=1.0 | 'committees: words: BadList --after'
check --property jr --committee=0x1 | 'committees: words: BadList --committee'
share --method dean --seats=7 --votes=0x1 | 'committees: words: BadList --votes'
elect --rule av --size=2 --after=0x1 | 'committees: words: BadList --after'
check --property jr --committee=a | 'committees: words: BadList --committee'
share --method dean --seats=7 --votes=a | 'committees: words: BadList --votes'
elect --rule av --size=2 --after=a | 'committees: words: BadList --after'
check --property jr --committee=1a | 'committees: words: BadList --committee'
share --method dean --seats=7 --votes=1a | 'committees: words: BadList --votes'
elect --rule av --size=2 --after=1a | 'committees: words: BadList --after'
check --property jr --committee=1_0 | 'committees: words: BadList --committee'
share --method dean --seats=7 --votes=1_0 | 'committees: words: BadList --votes'
elect --rule av --size=2 --after=1_0 | 'committees: words: BadList --after'
check --property jr --committee=\u{661} | 'committees: words: BadList --committee'
share --method dean --seats=7 --votes=\u{661} | 'committees: words: BadList --votes'
elect --rule av --size=2 --after=\u{661} | 'committees: words: BadList --after'
check --property jr --committee=1\u{a0} | 'committees: words: BadList --committee'
share --method dean --seats=7 --votes=1\u{a0} | 'committees: words: BadList --votes'
elect --rule av --size=2 --after=1\u{a0} | 'committees: words: BadList --after'
check --property jr --committee=18446744073709551616 | 'committees: words: BadList --committee'
share --method dean --seats=7 --votes=18446744073709551616 | 'committees: words: BadList --votes'
elect --rule av --size=2 --after=18446744073709551616 | 'committees: words: BadList --after'
check --property jr --committee=1,18446744073709551616 | 'committees: words: BadList --committee'
share --method dean --seats=7 --votes=1,18446744073709551616 | 'committees: words: BadList --votes'
elect --rule av --size=2 --after=1,18446744073709551616 | 'committees: words: BadList --after'
check --property jr --committee=36893488147419103233 | 'committees: words: BadList --committee'
share --method dean --seats=7 --votes=36893488147419103233 | 'committees: words: BadList --votes'
elect --rule av --size=2 --after=36893488147419103233 | 'committees: words: BadList --after'
check --property jr --committee=99999999999999999999999999 | 'committees: words: BadList --committee'
share --method dean --seats=7 --votes=99999999999999999999999999 | 'committees: words: BadList --votes'
elect --rule av --size=2 --after=99999999999999999999999999 | 'committees: words: BadList --after'";

/// The report on these words: the request or the fault, and the line on it if there is one.
fn told_of(rt: &impl Abort, alloc: Global, words: &str) -> String {
    let read = read_line(rt, alloc, words);
    let line = match &read {
        Ok(_) => None,
        Err(fault) => fault.line(),
    };
    format!(in alloc; "{read:?} '{}'", line.unwrap_or("")).expect(rt, words)
}

/// Asserts that each part of a row stands in the report on its words.
fn assert_row(rt: &impl Abort, alloc: Global, row: &str) {
    let (words, parts) = row.split_once(" | ").expect(rt, row);
    let told = told_of(rt, alloc, words);
    for part in parts.split(" | ") {
        assert!(rt; told.as_str().contains(part), "{words}: {told}");
    }
}

#[test]
fn requests_and_faults(rt: HostRuntime) {
    for row in LINES.lines() {
        if !row.starts_with("//") {
            assert_row(&rt, rt.alloc(), row);
        }
    }
}

#[test]
fn no_words(rt: HostRuntime) {
    let read = read_request(rt.alloc(), &[]);
    assert!(rt; matches!(&read, Err(LineFault::Usage(_))));
}
