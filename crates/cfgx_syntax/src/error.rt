//! What is wrong with a cfg text, where, and how it prints.

ghost use Rattle.std.specs.Prelude.{◌≡◌, ◌↔◌, IsTrue, Some, codes, map, replicate};
ghost use Rattle.std.specs.List.{repeat};
ghost use Rattle.std.specs.Fmt.{DisplaysOnOk};
ghost use Rattle.cfgx_syntax.specs.Error.{cause_of, error_text, fault_in, marks};
ghost use Rattle.cfgx_syntax.specs.Error.{more_terms_text, only_byte};
ghost use Rattle.cfgx_syntax.specs.Error.{opening_words, quoted, texts_eq, unexpected_text};
ghost use Rattle.cfgx_syntax.specs.Error.{FailsWith};

pub mod laws;
pub mod terms;

use std::alloc::{AllocError, AllocFailed, Allocator, Global};
use std::fmt;
use std::ops::Range;

// 64 spaces.
const SPACES: &str = "                                                                ";

// 64 carets.
const CARETS: &str = "^^^^^^^^^^^^^^^^^^^^^^^^^^^^^^^^^^^^^^^^^^^^^^^^^^^^^^^^^^^^^^^^";

/// The kind of a fault. Equal reasons have the same variant, number and texts.
#[derive(Clone, Copy, Debug)]
pub enum Reason {
    /// A `not` with no member or several. The field is the number of its members.
    InvalidNot(usize),
    /// Characters that no expression has. No text has this fault.
    InvalidCharacters,
    /// A parenthesis is never closed.
    UnclosedParens,
    /// A parenthesis is closed that was never opened.
    UnopenedParens,
    /// A quote is never closed.
    UnclosedQuotes,
    /// A quote is closed that was never opened. No text has this fault.
    UnopenedQuotes,
    /// The text has no predicate, literal or function.
    Empty,
    /// A term that may not stand there. The field has the terms that may, and is empty if none
    /// may.
    Unexpected(&'static [&'static str]),
    /// A number that does not parse or is out of range, or a `target_endian` that is neither `big`
    /// nor `little`.
    InvalidInteger,
    /// More than one predicate, literal or function stands outside of every function.
    MultipleRootPredicates,
    /// The width of an atomic is neither an integer nor `ptr`.
    InvalidHasAtomic,
    /// A built-in name that is not known. No text has this fault.
    UnknownBuiltin,
}

/// A fault, which is a reason with a span, and the text that it is in. Equal errors have the same
/// text, span and reason.
#[derive(Drop)]
#[derive_where(Debug)]
pub struct ParseError<A: Allocator = Global> {
    /// The text, without an outer `cfg( )`.
    pub original: String<A>,
    /// The bytes of `original` that are at fault.
    pub span: Range<usize>,
    /// What is wrong with those bytes.
    pub reason: Reason,
}

/// The error of a call that reads a text.
#[derive(Drop)]
#[derive_where(Debug)]
pub enum Failure<A: Allocator = Global> {
    /// The text has a fault.
    Parse(ParseError<A>),
    /// The call ran out of memory. The text may have a fault or none.
    Memory(AllocError),
}

impl PartialEq for Reason {
    ghost use Rattle.std.specs.{Cmp.on_per, Cmp.partial_equiv_from_equiv, Ordering.on};
    ghost use Rattle.cfgx_syntax.specs.Error.{cause_eq, cause_of};
    ghost use Rattle.cfgx_syntax.specs.laws.Equality.{cause_eq-equiv};

    ghost eq = { on cause_of cause_eq };

    ghost laws = { on_per cause_of (partial_equiv_from_equiv cause_eq-equiv) };

    #[tactic(auto, using(crate::proofs::Equalities::equalities))]
    fn eq(&self, other: &Self) -> bool
        ensures value { result ≡ cause_eq (cause_of self.now) (cause_of other.now) }
        ensures same { IsTrue result ↔ (cause_of self.now ≡ cause_of other.now) }
    {
        self.number() == other.number()
            && self.members() == other.members()
            && are_same_texts(self.terms(), other.terms())
    }
}

// Returns whether both lists have the same texts in the same order.
#[tactic(auto, using(crate::proofs::Equalities::texts))]
fn are_same_texts(texts: &[&str], others: &[&str]) -> bool
    ensures value { result ≡ texts_eq (map (λ t. t.now) texts.now) (map (λ t. t.now) others.now) }
    ensures same { IsTrue result ↔ (map (λ t. t.now) texts.now ≡ map (λ t. t.now) others.now) }
{
    texts == others
}

impl Eq for Reason {
    ghost use Rattle.std.specs.Cmp.{on_equiv};
    ghost use Rattle.cfgx_syntax.specs.Error.{cause_of};
    ghost use Rattle.cfgx_syntax.specs.laws.Equality.{cause_eq-equiv};

    ghost laws = { on_equiv cause_of cause_eq-equiv };
}

impl<A: Allocator> PartialEq for ParseError<A> {
    ghost use Rattle.std.specs.{Cmp.on_per, Cmp.partial_equiv_from_equiv, Ordering.on};
    ghost use Rattle.cfgx_syntax.specs.Error.{fault_eq, fault_of};
    ghost use Rattle.cfgx_syntax.specs.laws.Equality.{fault_eq-equiv};

    ghost eq = { on fault_of fault_eq };

    ghost laws = { on_per fault_of (partial_equiv_from_equiv fault_eq-equiv) };

    #[tactic(auto, using(crate::proofs::Equalities::equalities))]
    fn eq(&self, other: &Self) -> bool
        ensures value { result ≡ fault_eq (fault_of self.now) (fault_of other.now) }
        ensures same { IsTrue result ↔ (fault_of self.now ≡ fault_of other.now) }
    {
        self.original == other.original && self.span == other.span && self.reason == other.reason
    }
}

impl<A: Allocator> Eq for ParseError<A> {
    ghost use Rattle.std.specs.Cmp.{on_equiv};
    ghost use Rattle.cfgx_syntax.specs.Error.{fault_of};
    ghost use Rattle.cfgx_syntax.specs.laws.Equality.{fault_eq-equiv};

    ghost laws = { on_equiv fault_of fault_eq-equiv };
}

impl<A: Allocator> PartialEq for Failure<A> {
    ghost use Rattle.std.specs.{Cmp.on_per, Cmp.partial_equiv_from_equiv, Ordering.on};
    ghost use Rattle.std.specs.{Cmp.Lexicographic.options_equiv, Option.option_eq};
    ghost use Rattle.cfgx_syntax.specs.Error.{failure_of, fault_eq};
    ghost use Rattle.cfgx_syntax.specs.laws.Equality.{fault_eq-equiv};

    ghost eq = { on failure_of (option_eq fault_eq) };

    ghost laws = { on_per failure_of (partial_equiv_from_equiv (options_equiv fault_eq-equiv)) };

    #[tactic(auto, using(crate::proofs::Equalities::equalities))]
    fn eq(&self, other: &Self) -> bool
        ensures value { result ≡ option_eq fault_eq (failure_of self.now) (failure_of other.now) }
        ensures same { IsTrue result ↔ (failure_of self.now ≡ failure_of other.now) }
    {
        match (self, other) {
            (Failure::Parse(one), Failure::Parse(other)) => *one == *other,
            (Failure::Memory(_), Failure::Memory(_)) => true,
            _ => false,
        }
    }
}

impl<A: Allocator> Eq for Failure<A> {
    ghost use Rattle.std.specs.{Cmp.on_equiv, Cmp.Lexicographic.options_equiv};
    ghost use Rattle.cfgx_syntax.specs.Error.{failure_of};
    ghost use Rattle.cfgx_syntax.specs.laws.Equality.{fault_eq-equiv};

    ghost laws = { on_equiv failure_of (options_equiv fault_eq-equiv) };
}

impl<A: Allocator> Failure<A> {
    /// Returns the error for `reason` at the bytes `span` of `original`, with a copy of `original`
    /// in `alloc`, or `Memory` if `alloc` refuses the copy.
    pub fn of(alloc: A, original: &str, span: Range<usize>, reason: Reason) -> Failure<A>
        ensures { FailsWith (fault_in original.now
            (record { cause = cause_of reason; start = span.start; end = span.end })) result }
    {
        match String::from_str(alloc, original) {
            Ok(original) => Failure::Parse(ParseError {
                original,
                span,
                reason,
            }),
            Err(error) => Failure::Memory(error),
        }
    }
}

impl<A: Allocator> From<ParseError<A>> for Failure<A> {
    ghost use Rattle.cfgx_syntax.specs.declared.error.Failure.TheVariants.{Parse};

    ghost from_gives = { λ error failure. failure ≡ Parse error };

    fn from(error: ParseError<A>) -> Failure<A> {
        Failure::Parse(error)
    }
}

impl<A: Allocator> From<AllocError> for Failure<A> {
    ghost use Rattle.cfgx_syntax.specs.declared.error.Failure.TheVariants.{Memory};

    ghost from_gives = { λ error failure. failure ≡ Memory error };

    fn from(error: AllocError) -> Failure<A> {
        Failure::Memory(error)
    }
}

impl<T: Drop, A: Allocator> From<AllocFailed<T>> for Failure<A> {
    ghost use Rattle.std.specs.Prelude.{alloc_error};
    ghost use Rattle.cfgx_syntax.specs.declared.error.Failure.TheVariants.{Memory};

    ghost from_gives = { λ _ failure. failure ≡ Memory alloc_error };

    fn from(_error: AllocFailed<T>) -> Failure<A> {
        Failure::Memory(AllocError)
    }
}

impl Reason {
    ghost use Rattle.cfgx_syntax.specs.Error.{cause_members, cause_number, cause_of, cause_terms};
    ghost use Rattle.cfgx_syntax.specs.Error.{description_of};
    ghost use Rattle.cfgx_syntax.specs.Terms.{terms_number};

    /// Returns the number of the reason: that of its variant, from 1 on.
    pub fn number(self) -> u32
        ensures { result ≡ cause_number (cause_of self) }
    {
        match self {
            Reason::InvalidNot(_) => 1,
            Reason::InvalidCharacters => 2,
            Reason::UnclosedParens => 3,
            Reason::UnopenedParens => 4,
            Reason::UnclosedQuotes => 5,
            Reason::UnopenedQuotes => 6,
            Reason::Empty => 7,
            Reason::Unexpected(_) => 8,
            Reason::InvalidInteger => 9,
            Reason::MultipleRootPredicates => 10,
            Reason::InvalidHasAtomic => 11,
            Reason::UnknownBuiltin => 12,
        }
    }

    /// Returns the number of members of an `InvalidNot`, and 0 for every other reason.
    pub fn members(self) -> usize
        ensures { result ≡ cause_members (cause_of self) }
    {
        match self {
            Reason::InvalidNot(members) => members,
            _ => 0,
        }
    }

    // Returns the terms of an `Unexpected`, and none for every other reason.
    fn terms(self) -> &'static [&'static str]
        ensures { map (λ t. t.now) result.now ≡ cause_terms (cause_of self) }
    {
        match self {
            Reason::Unexpected(terms) => terms,
            _ => &[],
        }
    }

    /// Returns the number of the list of terms of an `Unexpected`, from 1 on in the order of
    /// RULES, and 0 for every other list and reason.
    pub fn terms_number(self) -> u32
        ensures { result ≡ terms_number (cause_of self) }
    {
        match self {
            Reason::Unexpected(terms) => terms::number_of(terms),
            _ => 0,
        }
    }

    /// Returns the reason in a few words, without its number and its terms.
    pub fn description(self) -> &'static str
        ensures { result.now ≡ description_of (cause_of self) }
    {
        match self {
            Reason::InvalidNot(_) => "not() takes 1 predicate",
            Reason::InvalidCharacters => "invalid character(s)",
            Reason::UnclosedParens => "unclosed parens",
            Reason::UnopenedParens => "unopened parens",
            Reason::UnclosedQuotes => "unclosed quotes",
            Reason::UnopenedQuotes => "unopened quotes",
            Reason::Empty => "empty expression",
            Reason::Unexpected(_) => "unexpected term",
            Reason::InvalidInteger => "invalid integer",
            Reason::MultipleRootPredicates => "multiple root predicates",
            Reason::InvalidHasAtomic => "expected integer or \"ptr\"",
            Reason::UnknownBuiltin => "unknown built-in",
        }
    }
}

impl fmt::Display for Reason {
    ghost use Rattle.cfgx_syntax.specs.Error.{cause_of, reason_text};

    ghost output = { λ reason. Some (reason_text (cause_of reason)) };

    fn fmt<W: fmt::Write>(&self, f: &mut fmt::Formatter<W>) -> fmt::Result {
        match self {
            Reason::InvalidNot(found) => write!(f, "not() takes 1 predicate, found {found}"),
            Reason::Unexpected(terms) => write_unexpected(f, terms),
            reason => f.write_str(reason.description()),
        }
    }
}

// Writes which of `terms` were expected, or that none was.
fn write_unexpected<W: fmt::Write>(f: &mut fmt::Formatter<W>, terms: &[&str]) -> fmt::Result
    ensures { DisplaysOnOk W.write_str_gives f.old result
        (Some (unexpected_text (map (λ t. t.now) terms.now))) f.new }
{
    let Some((first, others)) = terms.split_first() else {
        return f.write_str("the term was not expected here");
    };
    f.write_str(opening_words(others))?;
    write_quoted(f, first)?;
    write_more_terms(f, others)?;
    f.write_str(" here")
}

// Returns the words before the first expected term. `others` are the terms after it.
fn opening_words(others: &[&str]) -> &'static str
    ensures { result.now ≡ opening_words (map (λ t. t.now) others.now) }
{
    if others.is_empty() {
        "expected a "
    } else {
        "expected one of "
    }
}

// Writes `term` between back quotes.
fn write_quoted<W: fmt::Write>(f: &mut fmt::Formatter<W>, term: &str) -> fmt::Result
    ensures { DisplaysOnOk W.write_str_gives f.old result (Some (quoted term.now)) f.new }
{
    f.write_str("`")?;
    f.write_str(term)?;
    f.write_str("`")
}

// Writes each of `terms` after a comma and a space, between back quotes.
fn write_more_terms<W: fmt::Write>(f: &mut fmt::Formatter<W>, terms: &[&str]) -> fmt::Result
    ensures { DisplaysOnOk W.write_str_gives f.old result
        (Some (more_terms_text (map (λ t. t.now) terms.now))) f.new }
{
    for term in terms {
        f.write_str(", ")?;
        write_quoted(f, term)?;
    }
    Ok(())
}

impl<A: Allocator> ParseError<A> {
    ghost use Rattle.cfgx_syntax.specs.Error.{cause_of, description_of};

    /// Returns the reason in a few words, without its number and its terms.
    pub fn description(&self) -> &'static str
        ensures { result.now ≡ description_of (cause_of self.now.reason) }
    {
        self.reason.description()
    }
}

impl<A: Allocator> fmt::Display for ParseError<A> {
    ghost use Rattle.cfgx_syntax.specs.Error.{fault_of, error_text};

    ghost output = { λ error. Some (error_text (fault_of error)) };

    fn fmt<W: fmt::Write>(&self, f: &mut fmt::Formatter<W>) -> fmt::Result {
        write_fault(f, self.original.as_str(), &self.span, self.reason)
    }
}

/// Writes the fault `reason` at the bytes `span` of `original`, as a `ParseError` is printed: the
/// text, a line feed, the marks below the span, and the reason.
pub fn write_fault<W: fmt::Write>(
    f: &mut fmt::Formatter<W>,
    original: &str,
    span: &Range<usize>,
    reason: Reason,
) -> fmt::Result
    ensures { DisplaysOnOk W.write_str_gives f.old result
        (Some (error_text (fault_in original.now (record {
          cause = cause_of reason;
          start = span.now.start;
          end = span.now.end;
        })))) f.new }
{
    f.write_str(original)?;
    f.write_str("\n")?;
    write_spaces(f, span.start)?;
    write_marks(f, span.end.saturating_sub(span.start), reason)?;
    f.write_str(" ")?;
    f.write(reason)
}

// Writes the marks below a span of `width` bytes.
fn write_marks<W: fmt::Write>(
    f: &mut fmt::Formatter<W>,
    width: usize,
    reason: Reason,
) -> fmt::Result
    ensures { DisplaysOnOk W.write_str_gives f.old result
        (Some (marks width (cause_of reason))) f.new }
{
    match reason {
        Reason::UnclosedParens | Reason::UnclosedQuotes => f.write_str("-"),
        Reason::UnopenedParens | Reason::UnopenedQuotes => f.write_str("^"),
        _ => write_carets(f, width),
    }
}

// Writes `text` `count` times.
fn write_repeated<W: fmt::Write>(f: &mut fmt::Formatter<W>, text: &str, count: usize) -> fmt::Result
    ensures { DisplaysOnOk W.write_str_gives f.old result (Some (repeat count text.now)) f.new }
{
    for _time in 0..count {
        f.write_str(text)?;
    }
    Ok(())
}

// Writes `mark` `count` times. `block` is 64 marks, so that a long span takes few calls.
fn write_in_blocks<W: fmt::Write>(
    f: &mut fmt::Formatter<W>,
    mark: &str,
    block: &str,
    count: usize,
) -> fmt::Result
    requires { block.now ≡ repeat 64 mark.now }
    ensures { DisplaysOnOk W.write_str_gives f.old result (Some (repeat count mark.now)) f.new }
{
    write_repeated(f, block, count / 64)?;
    write_repeated(f, mark, count % 64)
}

// Writes `count` spaces: one for each byte before a span.
#[tactic(auto, using(crate::proofs::Repeated::repeat_one))]
fn write_spaces<W: fmt::Write>(f: &mut fmt::Formatter<W>, count: usize) -> fmt::Result
    ensures { DisplaysOnOk W.write_str_gives f.old result
        (Some (replicate count (only_byte (codes " ")))) f.new }
{
    write_in_blocks(f, " ", SPACES, count)
}

// Writes `count` carets: one for each byte of a span.
#[tactic(auto, using(crate::proofs::Repeated::repeat_one))]
fn write_carets<W: fmt::Write>(f: &mut fmt::Formatter<W>, count: usize) -> fmt::Result
    ensures { DisplaysOnOk W.write_str_gives f.old result
        (Some (replicate count (only_byte (codes "^")))) f.new }
{
    write_in_blocks(f, "^", CARETS, count)
}
