//! Reads one ballot line, token by token: a count, a colon and an order. Each token has to fit its place in the order
//! (`OrderPlace`).
//!
//! Most numbers of a ballot have one or two digits, and a comma or a brace right beside them. `OrderPlace::read_on` and
//! `listed_number` read such a number and its neighbour together. `IsReadOn` says that the outcome is that of the
//! single tokens.
ghost use Rattle.std.specs.Prelude.{◌≡◌, ℕ, ◌+◌, ◌-◌, ◌*◌, ◌^◌, ◌<◌, ◌≤◌, true, length, List, [], ◌∷◌};
ghost use Rattle.std.specs.Prelude.{Some, None, MatchOption, IfOk, IfErr, IfSome, if◌then◌else◌};
ghost use Rattle.std.specs.Char.{is_ascii_digit};
ghost use Rattle.std.specs.Option.{option_map, option_and_then};
ghost use Rattle.ballot_base.specs.Limits.{most_candidates, most_voters};
ghost use Rattle.ballot_base.specs.Lists.{IsIncreasing};
ghost use Rattle.preflib_text.specs.Ballot.{IsBallotLine};
ghost use Rattle.preflib_text.specs.Approvals.{HasNumber};
ghost use Rattle.preflib_text.specs.Steps.Tokens.{token_of, tokens_after, tokens_of, capped, IsFirstToken};
ghost use Rattle.preflib_text.specs.Steps.Tokens.{next_place, is_end, order_at, ballot_of};
ghost use Rattle.preflib_text.specs.Steps.Marks.{no_marks, takes, is_past, with_classes, with_read, HasRoom, IsReadOn};
ghost use Rattle.preflib_text.specs.Steps.Answers.{HasMarks, IsGoodBallot, IsBallotFault};

use crate::approvals::{Header, Marks, Taking, Terms};
use crate::fault::FaultName;
use crate::limits::ABOVE;
use crate::lines::trim_start;
use crate::pick::Way;
use ballot_base::CandSet;

/// A token of a ballot line.
#[derive(Clone, Copy)]
enum Token {
    Number(u64),
    Colon,
    Comma,
    Open,
    Close,
    Other,
}

/// A place in an order, by what may come next.
#[derive(Clone, Copy)]
enum OrderPlace {
    /// After the colon.
    Order,
    /// After a comma between classes.
    Class,
    /// After a class.
    Between,
    /// After an opening brace.
    Opened,
    /// After a comma between braces.
    Inner,
    /// After a number between braces.
    Listed,
}

/// How far an order was read: the place reached, and the rest of the text.
#[derive(Clone, Copy)]
struct Position<'a> {
    place: OrderPlace,
    rest: &'a [u8],
}

impl OrderPlace {
    /// The place after a token, if the token may come here. Notes its number, or the end of its class, in the marks.
    fn after(self, token: Token, marks: &mut Marks, terms: Terms) -> Option<OrderPlace>
        requires { HasRoom marks.old 0 }
        ensures place { result ≡ next_place self token }
        ensures marks { marks.new ≡ with_read terms.m terms.taking self token marks.old }
    {
        match token {
            Token::Number(n) => self.after_number(n, marks, terms),
            Token::Open => match self {
                OrderPlace::Order | OrderPlace::Class => Some(OrderPlace::Opened),
                _ => None,
            },
            Token::Close => match self {
                OrderPlace::Opened | OrderPlace::Listed => {
                    marks.end_class();
                    Some(OrderPlace::Between)
                }
                _ => None,
            },
            Token::Comma => self.after_comma(),
            Token::Colon | Token::Other => None,
        }
    }

    /// Like `after`, for a number.
    #[inline(always)]
    fn after_number(self, n: u64, marks: &mut Marks, terms: Terms) -> Option<OrderPlace>
        requires { HasRoom marks.old 0 }
        ensures place { result ≡ next_place self (Token.Number n) }
        ensures marks { marks.new ≡ with_read terms.m terms.taking self (Token.Number n) marks.old }
    {
        match self {
            OrderPlace::Order | OrderPlace::Class => {
                marks.add_number(terms, n);
                marks.end_class();
                Some(OrderPlace::Between)
            }
            OrderPlace::Opened | OrderPlace::Inner => {
                marks.add_number(terms, n);
                Some(OrderPlace::Listed)
            }
            OrderPlace::Between | OrderPlace::Listed => None,
        }
    }

    /// Like `after`, for a number and a comma.
    fn after_listed(self, n: u64, marks: &mut Marks, terms: Terms) -> Option<OrderPlace>
        requires { HasRoom marks.old 0 }
        ensures place { result ≡ option_and_then (λ place. next_place place Token.Comma)
            (next_place self (Token.Number n)) }
        ensures marks { marks.new ≡ with_read terms.m terms.taking self (Token.Number n) marks.old }
    {
        self.after_number(n, marks, terms)?.after_comma()
    }

    fn after_comma(self) -> Option<OrderPlace>
        ensures { result ≡ next_place self Token.Comma }
    {
        match self {
            OrderPlace::Between => Some(OrderPlace::Class),
            OrderPlace::Listed => Some(OrderPlace::Inner),
            _ => None,
        }
    }

    /// Reads the numbers of a common form that come at this place. Returns the position after them.
    fn read_on<'a>(self, text: &'a [u8], marks: &mut Marks, terms: Terms) -> Position<'a>
        requires { HasRoom marks.old (length text.now) }
        ensures { IsReadOn terms.m terms.taking self text.now marks.old result.place result.rest.now marks.new }
    {
        let inside = match self {
            OrderPlace::Opened | OrderPlace::Inner => self.read_braces(text, marks, terms),
            _ => Position {
                place: self,
                rest: text,
            },
        };
        match inside.place {
            OrderPlace::Class => read_classes(inside.rest, marks, terms),
            _ => inside,
        }
    }

    /// Like `read_members`, but on its own copy of the marks, which the compiler keeps in registers.
    #[inline(never)]
    fn read_braces<'a>(self, text: &'a [u8], marks: &mut Marks, terms: Terms) -> Position<'a>
        requires room { HasRoom marks.old (length text.now) }
        requires inside { next_place self (Token.Number 0) ≡ Some OrderPlace.Listed }
        ensures { IsReadOn terms.m terms.taking self text.now marks.old result.place result.rest.now marks.new }
    {
        let mut read = *marks;
        let taken = read.takes(terms.taking);
        let end = self.read_members(text, &mut read, terms.m, taken);
        *marks = read;
        end
    }

    /// Reads numbers between braces, taken or not, each with a comma or the closing brace right after it, until
    /// something is wrong. A comma right after the closing brace is read, too. Returns the position after them.
    #[inline(always)]
    fn read_members<'a>(self, text: &'a [u8], marks: &mut Marks, m: u8, taken: bool) -> Position<'a>
        requires candidates { m ≤ most_candidates }
        requires room { HasRoom marks.old (length text.now) }
        requires inside { next_place self (Token.Number 0) ≡ Some OrderPlace.Listed }
        ensures read { (taking : Taking) → taken ≡ takes taking marks.old.classes marks.old.before
            → IsReadOn m taking self text.now marks.old result.place result.rest.now marks.new }
        ensures classes { marks.old.classes ≤ marks.new.classes }
        ensures before { marks.old.before ≤ marks.new.before }
    {
        let mut place = self;
        let mut rest = text;
        while let Some((n, after)) = short_number(rest) {
            let Some((is_last, after)) = past_delimiter(after) else {
                break;
            };
            if marks.wrong_with(m, n).is_some() {
                break;
            }
            marks.add_new(n, taken);
            if is_last {
                marks.end_class();
                return after_class(after);
            }
            place = OrderPlace::Inner;
            rest = after;
        }
        Position { place, rest }
    }

    fn is_end(self) -> bool
        ensures { result ≡ is_end self }
    {
        matches!(self, OrderPlace::Order | OrderPlace::Between)
    }
}

/// A ballot: the number of voters who cast it, and the candidates that it approves.
#[derive(Clone, Copy)]
pub(crate) struct Ballot {
    pub(crate) count: u64,
    pub(crate) approved: CandSet,
}

/// The number that begins with digit `first` and goes on with the digits at the front of the text, and the rest of the
/// text. A number above `MOST_VOTERS` becomes `ABOVE`.
#[tactic(auto, unfolding(crate::specs::Steps::Tokens::tokens_after))]
fn digits(first: u64, text: &[u8]) -> (u64, &[u8])
    requires { first ≤ 9 }
    ensures number { (n : ℕ) × (result.0 ≡ capped n)
        × (tokens_after (Some first) text.now ≡ Token.Number n ∷ tokens_of result.1.now) }
    ensures shorter { length result.1.now ≤ length text.now }
{
    let mut value = first;
    let mut rest = text;
    while let [digit @ b'0'..=b'9', after @ ..] = rest {
        value = (10 * value + u64::from(*digit - b'0')).min(ABOVE);
        rest = after;
    }
    (value, rest)
}

/// The token of a byte that is neither a blank nor a digit.
fn mark(byte: u8) -> Token
    ensures { result ≡ token_of byte }
{
    match byte {
        b':' => Token::Colon,
        b',' => Token::Comma,
        b'{' => Token::Open,
        b'}' => Token::Close,
        _ => Token::Other,
    }
}

/// The first token, and the text after it. A number above `MOST_VOTERS` becomes `ABOVE`.
#[tactic(auto, unfolding(crate::specs::Steps::Tokens::tokens_after))]
fn next_token(text: &[u8]) -> Option<(Token, &[u8])>
    ensures { MatchOption result (tokens_of text.now ≡ []) (λ x. IsFirstToken text.now x.0 x.1.now) }
{
    let mut rest = text;
    while let [byte, after @ ..] = rest {
        match byte {
            b' ' | b'\t' => rest = after,
            b'0'..=b'9' => {
                let (n, after) = digits(u64::from(*byte - b'0'), after);
                return Some((Token::Number(n), after));
            }
            _ => return Some((mark(*byte), after)),
        }
    }
    None
}

fn two_digits(tens: u8, ones: u8) -> u64
    requires tens { is_ascii_digit tens ≡ true }
    requires ones { is_ascii_digit ones ≡ true }
    ensures { result ≡ 10 * (tens - 48) + (ones - 48) }
{
    u64::from(10 * (tens - b'0') + (ones - b'0'))
}

/// The one or two digits at the front of a text, as a number, and the text after them.
#[tactic(auto, unfolding(crate::specs::Steps::Tokens::tokens_after))]
fn short_number(text: &[u8]) -> Option<(u64, &[u8])>
    ensures tokens { IfSome result (λ x. tokens_of text.now ≡ tokens_after (Some x.0) x.1.now) }
    ensures small { IfSome result (λ x. x.0 ≤ 99) }
    ensures shorter { IfSome result (λ x. length x.1.now < length text.now) }
{
    match text {
        [tens @ b'0'..=b'9', ones @ b'0'..=b'9', rest @ ..] => {
            Some((two_digits(*tens, *ones), rest))
        }
        [ones @ b'0'..=b'9', rest @ ..] => Some((u64::from(*ones - b'0'), rest)),
        _ => None,
    }
}

/// The number of one or two digits at the front of a text with a comma right after it, and the text after the comma.
/// Most numbers of a ballot have this form.
#[tactic(auto, unfolding(crate::specs::Steps::Tokens::tokens_after))]
fn listed_number(text: &[u8]) -> Option<(u64, &[u8])>
    ensures tokens { IfSome result (λ x. tokens_of text.now ≡ tokens_after (Some x.0) (44 ∷ x.1.now)) }
    ensures small { IfSome result (λ x. x.0 ≤ 99) }
    ensures shorter { IfSome result (λ x. length (44 ∷ x.1.now) < length text.now) }
{
    match text {
        [tens @ b'0'..=b'9', ones @ b'0'..=b'9', b',', rest @ ..] => {
            Some((two_digits(*tens, *ones), rest))
        }
        [ones @ b'0'..=b'9', b',', rest @ ..] => Some((u64::from(*ones - b'0'), rest)),
        _ => None,
    }
}

fn after_byte(text: &[u8], byte: u8) -> Option<&[u8]>
    ensures { IfSome result (λ rest. text.now ≡ byte ∷ rest.now) }
{
    match text {
        [first, rest @ ..] if *first == byte => Some(rest),
        _ => None,
    }
}

/// Whether the delimiter at the front of a text is a closing brace and not a comma, and the text after it.
fn past_delimiter(text: &[u8]) -> Option<(bool, &[u8])>
    ensures { IfSome result (λ x. text.now ≡ (if x.0 then 125 else 44) ∷ x.1.now) }
{
    match text {
        [b',', rest @ ..] => Some((false, rest)),
        [b'}', rest @ ..] => Some((true, rest)),
        _ => None,
    }
}

/// The position after a class, or after a comma that follows the class at once.
fn after_class(text: &[u8]) -> Position<'_>
    ensures order { order_at result.place (tokens_of result.rest.now)
        ≡ order_at OrderPlace.Between (tokens_of text.now) }
    ensures shorter { length result.rest.now ≤ length text.now }
{
    match after_byte(text, b',') {
        Some(rest) => Position {
            place: OrderPlace::Class,
            rest,
        },
        None => Position {
            place: OrderPlace::Between,
            rest: text,
        },
    }
}

/// Reads classes of one number, each with a comma right after it, until something is wrong. No class is taken any more.
/// The rest of the text comes after a comma between classes, too.
#[inline(always)]
fn read_singles<'a>(text: &'a [u8], marks: &mut Marks, terms: Terms) -> &'a [u8]
    requires room { HasRoom marks.old (length text.now) }
    requires past { is_past terms.taking marks.old.classes marks.old.before ≡ true }
    ensures read { IsReadOn terms.m terms.taking OrderPlace.Class text.now marks.old OrderPlace.Class result.now
        marks.new }
    ensures past { is_past terms.taking marks.new.classes marks.new.before ≡ true }
{
    let mut rest = text;
    while let Some((n, after)) = listed_number(rest) {
        if marks.wrong_with(terms.m, n).is_some() {
            break;
        }
        marks.add_new(n, false);
        marks.end_class();
        rest = after;
    }
    rest
}

/// Reads classes without blanks that have a comma right after each, as long as nothing is wrong with them, once no
/// class is taken any more. Returns the position after them.
#[inline(never)]
fn read_classes<'a>(text: &'a [u8], marks: &mut Marks, terms: Terms) -> Position<'a>
    requires { HasRoom marks.old (length text.now) }
    ensures { IsReadOn terms.m terms.taking OrderPlace.Class text.now marks.old result.place result.rest.now marks.new }
{
    let mut place = OrderPlace::Class;
    let mut rest = text;
    if !marks.is_past(terms.taking) {
        return Position { place, rest };
    }
    let mut read = *marks;
    rest = read_singles(rest, &mut read, terms);
    while let Some(inside) = after_byte(rest, b'{') {
        Position { place, rest } = OrderPlace::Opened.read_members(
            inside, &mut read, terms.m, false,
        );
        let OrderPlace::Class = place else {
            break;
        };
        rest = read_singles(rest, &mut read, terms);
    }
    *marks = read;
    Position { place, rest }
}

/// Reads an order, and returns the marks of its classes.
fn read_order(text: &[u8], terms: Terms) -> Option<Marks>
    ensures { result ≡ option_map (with_classes terms.m terms.taking no_marks)
        (order_at OrderPlace.Order (tokens_of text.now)) }
{
    let mut marks = Marks::new();
    let mut place = OrderPlace::Order;
    let mut rest = trim_start(text);
    loop {
        if let Some((n, after)) = listed_number(rest) {
            place = place.after_listed(n, &mut marks, terms)?;
            Position { place, rest } = place.read_on(after, &mut marks, terms);
        } else if let Some((token, after)) = next_token(rest) {
            place = place.after(token, &mut marks, terms)?;
            Position { place, rest } = place.read_on(after, &mut marks, terms);
        } else {
            return place.is_end().then_some(marks);
        }
    }
}

/// The count and the marks of a line, if it has the shape of a ballot line.
fn read_line(line: &[u8], terms: Terms) -> Option<(u64, Marks)>
    ensures { MatchOption result (ballot_of line.now ≡ None)
        (λ read. HasMarks terms.m terms.taking line.now read.0 read.1) }
{
    let Some((Token::Number(count), rest)) = next_token(line) else {
        return None;
    };
    let Some((Token::Colon, order)) = next_token(rest) else {
        return None;
    };
    Some((count, read_order(order, terms)?))
}

/// Reads a ballot line, given without its end. A line of another shape has the fault `BadBallot`.
pub(crate) fn read_ballot(line: &[u8], header: Header, way: Way) -> Result<Ballot, FaultName>
    requires { HasNumber way }
    ensures ok { IfOk result (λ ballot. IsGoodBallot line.now header.kind header.m header.categories way
        ballot.count ballot.approved) }
    ensures candidates { IfOk result (λ ballot. IsIncreasing 1 header.m ballot.approved) }
    ensures voters { IfOk result (λ ballot. (1 ≤ ballot.count) × (ballot.count ≤ most_voters)) }
    ensures err { IfErr result (λ fault. IsBallotFault line.now header.kind header.m header.categories fault) }
{
    let terms = Terms {
        m: header.m,
        taking: Taking::new(header.kind, way),
    };
    let Some((count, marks)) = read_line(line, terms) else {
        return Err(FaultName::BadBallot);
    };
    let approved = marks.approved;
    match marks.fault(header, count) {
        Some(fault) => Err(fault),
        None => Ok(Ballot { count, approved }),
    }
}

/// A line has at most one reading as a count and a list of classes.
pub fn one_ballot_line()
    ensures { (line : List ℕ) (c d : ℕ) (cs ds : List (List ℕ)) → IsBallotLine line c cs → IsBallotLine line d ds
        → (c ≡ d) × (cs ≡ ds) }
{}
