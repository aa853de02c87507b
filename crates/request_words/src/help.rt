//! The help of the commands. Lines have at most 79 columns.

/// The help of a command.
#[derive(Clone, Copy)]
pub(crate) struct CommandHelp {
    /// What the command does.
    pub(crate) about: &'static str,
    /// The end of the long text: what each value means, the statuses of the program, and examples.
    pub(crate) end: &'static str,
}

/// `committees --help`
pub(crate) const PROGRAM: CommandHelp = CommandHelp {
    about: "Elect committees from PrefLib ballot files, check them, and share out seats",
    end: "\
PrefLib ballot files, by type:
  cat  categories: each voter sorts the candidates, as into yes and no
  soc  strict orders, complete: each voter ranks all candidates
  soi  strict orders, incomplete: each voter ranks some candidates
  toc  orders with ties, complete
  toi  orders with ties, incomplete
A voter approves the first category of a cat file, and only the first class of
a ranking, unless --category, --classes or --setsize says otherwise.

Exit status:
  0  the answer was printed; for check, the property holds
  1  only check: the property does not hold, and a group of voters was printed
  2  the command line was refused
  3  the ballots were refused: their first faulty line and its fault are named
  4  the request does not fit the ballots
  5  out of memory; nothing was printed
  6  an open, a read or a write failed

Examples:
  committees elect --rule pav --size 3 examples/board.cat
  committees check --property ejr --committee 1,4,6 examples/board.cat
  committees share --method dhondt --seats 10 --votes 53,24,23

README.md takes a newcomer through the commands, docs/MESSAGES.md explains each
message.",
};

/// `committees elect --help`
pub(crate) const ELECT: CommandHelp = CommandHelp {
    about: "Print every winning committee, ties included",
    end: "\
Rules. Each voter adds the amount below to a committee's score; x is the number
of its members that the voter approves. The highest score wins.
  av         approval voting: x
  pav        proportional approval voting: 1 + 1/2 + .. + 1/x
  cc         Chamberlin-Courant: 1 if x is at least 1
  geom2      geometric: 1 + 1/2 + 1/4 + .., x terms
  geom3      geometric: 1 + 1/3 + 1/9 + .., x terms
  geom4      geometric: 1 + 1/4 + 1/16 + .., x terms
  sav        satisfaction approval voting: x / number of candidates approved
Other rules:
  minimax    minimax approval voting: the committee with the smallest maximum
             distance wins; a voter's distance is the number of candidates in
             exactly one of ballot and committee
  seqpav     sequential pav: adds the candidate who raises the score of pav
             most, again and again
  seqcc      sequential cc: like seqpav, with the score of cc
  revseqpav  reverse sequential pav: removes the candidate whose removal lowers
             the score of pav least, again and again

Every tied committee is printed, in lexicographic order. The last line is end,
or more if --limit left some out. A ranking counts for its first class only,
unless --classes or --setsize says otherwise; this is not STV.

Exit status: 0 answered, 2 command line refused, 3 ballots refused, 4 request
refused, 5 out of memory, 6 an open, a read or a write failed.

Example:
  committees elect --rule pav --size 3 --names examples/board.cat",
};

/// `committees check --help`
pub(crate) const CHECK: CommandHelp = CommandHelp {
    about: "Check whether a committee represents the voters",
    end: "\
Properties. A group of voters deserves L of the SIZE seats if it makes up at
least L/SIZE of all voters and all of them approve the same L candidates. SIZE
is the size of the committee. For each such group:
  jr       justified representation, for L = 1: some voter in the group
           approves a member
  pjr      proportional justified representation: at least L members are each
           approved by some voter in the group
  ejr      extended justified representation: some voter in the group approves
           at least L members
  ejrplus  EJR+: like ejr, but for each group of this size whose voters all
           approve one candidate outside the committee

The answer is holds, or a group of voters that the committee leaves out.

Exit status: 0 the property holds, 1 it does not, 2 command line refused,
3 ballots refused, 4 request refused, 5 out of memory, 6 an open, a read or a
write failed.

Example:
  committees check --property ejr --committee 1,4,6 examples/board.cat",
};

/// `committees share --help`
pub(crate) const SHARE: CommandHelp = CommandHelp {
    about: "Print every way to share out seats among parties",
    end: "\
Methods. The next seat goes to the party with the highest claim; v is the
party's votes, s the seats that it has so far.
  dhondt       D'Hondt, Jefferson: v / (s + 1)
  saintelague  Sainte-Lague, Webster: v / (2s + 1)
  huntington   Huntington-Hill: v / the square root of s(s + 1)
  adams        Adams: v / s
  dean         Dean: v / (2s(s + 1) / (2s + 1))
  hamilton     largest remainders: the whole part of each party's quota, then
               one seat each to the largest remainders

Every tied allocation is printed, in ascending order. The last line is end, or
more if --limit left some out. Without --votes each candidate of the ballots is
a party, and each ballot counts for the one candidate that it approves.

Exit status: 0 answered, 2 command line refused, 3 ballots refused, 4 request
refused, 5 out of memory, 6 an open, a read or a write failed.

Example:
  committees share --method dhondt --seats 10 --votes 53,24,23",
};
