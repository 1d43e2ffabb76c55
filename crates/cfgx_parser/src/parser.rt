//! The parser: from a text to the nodes of its tree, in one pass.
ghost use Rattle.std.specs.Prelude.{◌≡◌, ◌+◌, ◌≤◌, ◌^◌, ◌<◌, [], true, length, reverse};
ghost use Rattle.std.specs.Prelude.{OnErr, OnOk};
ghost use Rattle.cfgx_syntax.specs.Error.{cause_of, unexpected};
ghost use Rattle.cfgx_syntax.specs.Lexer.{token_of, item_of};
ghost use Rattle.cfgx_grammar.specs.FollowSet.{next, expected};
ghost use Rattle.cfgx_parser.specs.parsing.NodeState.{func_of};
ghost use Rattle.cfgx_grammar.specs.FirstFault.{fault_between, lacks_value};
ghost use Rattle.cfgx_grammar.specs.parsing.Step.{with_member, predicate_ended, allows_count};
ghost use Rattle.cfgx_grammar.specs.parsing.Step.{apply, step, unclosed, one_root, conclude};
ghost use Rattle.cfgx_parser.specs.parsing.Fields.{function_of, open_of, empty_list};
ghost use Rattle.cfgx_parser.specs.parsing.Fields.{last_of, token_like, plain_fault};
ghost use Rattle.cfgx_parser.specs.parsing.Fields.{counted_around};

use crate::classification::{Fault, LocatedText, Pending, classify};
use crate::function::{Func, FuncKind};
use crate::located::Span;
use crate::nodes::ExprNode;
use crate::nodes::writer::{KEPT_CAPACITY, NodeWriter, Opening};
use cfgx_syntax::error::{Failure, Reason, terms};
use cfgx_syntax::lexer::{Lexer, LexerToken, Token};
use cfgx_syntax::memory::SmallAllocator;
use smallvec::SmallVec;
use std::alloc::AllocError;
use std::fmt;

/// A list that has not ended: the members of a function, or what stands outside of every function.
#[derive(Clone, Copy)]
pub(crate) struct OpenList {
    /// The number of its members that have ended
    ended_members: usize,
    /// The position of its `(`, once that is read
    parens_position: Option<usize>,
}

impl OpenList {
    /// Returns a list of which nothing is read.
    fn new() -> Self
        ensures { result ≡ empty_list }
    {
        OpenList {
            ended_members: 0,
            parens_position: None,
        }
    }
}

/// A function whose `)` is not read yet.
#[derive(Clone, Copy)]
pub(crate) struct OpenFunc {
    kind: FuncKind,
    /// The bytes of its name
    span: Span,
    /// Where it began among the nodes
    opening: Opening,
    /// The list in which it stands
    around: OpenList,
}

/// `SmallVec` fills its unused inline room with this value. Nothing reads it.
impl Default for OpenFunc {
    fn default() -> Self {
        OpenFunc {
            kind: FuncKind::Not,
            span: Span { start: 0, end: 0 },
            opening: Opening {
                node: 0,
                waiting: 0,
            },
            around: OpenList::new(),
        }
    }
}

/// What the last token was, as far as it says what may follow. `read_all` holds it.
#[derive(Clone, Copy)]
pub(crate) enum LastToken {
    /// No token is read yet
    Start,
    /// A word that is not the name of a function
    Key,
    /// A value in quotes
    Value,
    /// `=`
    Equals,
    /// `all`, `any` or `not`
    Function,
    /// `(`
    OpenParen,
    /// `)`
    CloseParen,
    /// `,`
    Comma,
}

impl LastToken {
    /// Returns what is kept of `token`.
    fn of(token: Token<'_>) -> Self
        ensures { result ≡ last_of (Some (token_of token.entry)) }
    {
        match token {
            Token::Key(_) => LastToken::Key,
            Token::Value(_) => LastToken::Value,
            Token::Equals => LastToken::Equals,
            Token::All | Token::Any | Token::Not => LastToken::Function,
            Token::OpenParen => LastToken::OpenParen,
            Token::CloseParen => LastToken::CloseParen,
            Token::Comma => LastToken::Comma,
        }
    }
}

/// Why parsing stopped. Small, because every step returns it.
#[derive(Clone, Copy)]
pub(crate) enum Halt {
    /// At the fault that the parser has noted
    Fault,
    /// Out of memory
    Memory,
}

impl From<AllocError> for Halt {
    ghost use Rattle.cfgx_parser.specs.declared.parser.Halt.TheVariants.{Memory};

    ghost from_gives = { λ _ halt. halt ≡ Memory };

    fn from(_error: AllocError) -> Halt {
        Halt::Memory
    }
}

/// A parser that reads one text after another. Its fields hold the state after a token.
#[derive(Drop)]
pub struct Parser<'a, A: SmallAllocator> {
    /// The functions that are open, the innermost last
    func_stack: SmallVec<OpenFunc, 2, A>,
    /// The innermost open list. It is not on the stack, so that counting a member is cheap
    list: OpenList,
    /// The nodes of the functions that have begun, and of the predicates and literals that have
    /// ended
    writer: NodeWriter<A>,
    /// The predicate or literal that has begun and not ended
    pending: Option<Pending<'a>>,
    /// The fault at which parsing stopped last. It is here, and not in `Halt`, since every step
    /// returns a `Halt`; before the first fault nothing reads it
    fault: Fault,
    /// Each open function, and each member that has ended, has a node
    ghost bounded: { list.ended_members + counted_around (reverse func_stack.items)
        ≤ length writer.nodes.items },
    /// The number of nodes fits in a `usize`
    ghost countable: { length writer.nodes.items < 2 ^ 64 },
}

/// Whether `token` may stand after the last one, or at the start. Commas may repeat, as in
/// `cfg-expr`.
fn may_follow(last: LastToken, token: Token<'_>) -> bool
    ensures { result ≡ next (token_like last) (token_of token.entry) }
{
    use LastToken::*;
    match token {
        Token::Key(_) | Token::All | Token::Any | Token::Not => {
            matches!(last, Start | OpenParen | Comma)
        }
        Token::Value(_) => matches!(last, Equals),
        Token::Equals => matches!(last, Key),
        Token::OpenParen => matches!(last, Function),
        Token::CloseParen => matches!(last, OpenParen | Comma | Key | Value | CloseParen),
        Token::Comma => matches!(last, Comma | Key | Value | CloseParen),
    }
}

/// Returns the reason of a token that may not follow `last`: what was expected there. The list
/// after a comma names neither `,` nor the functions, though they may follow.
fn expected(last: LastToken) -> Reason
    ensures { cause_of result ≡ unexpected (expected (token_like last)) }
{
    use LastToken::*;
    Reason::Unexpected(match last {
        Start => terms::MEMBER,
        OpenParen => terms::AFTER_PAREN,
        Comma => terms::AFTER_COMMA,
        Key => terms::AFTER_KEY,
        Equals => terms::AFTER_EQUALS,
        Value => terms::AFTER_VALUE,
        Function => terms::AFTER_FUNCTION,
        CloseParen => terms::AFTER_CLOSING,
    })
}

/// Whether a value must follow the last token.
fn lacks_value(last: LastToken) -> bool
    ensures { result ≡ lacks_value (token_like last) }
{
    matches!(last, LastToken::Equals)
}

/// Returns the function with `members` members.
fn func_of(kind: FuncKind, members: usize) -> Func
    ensures { result ≡ func_of (function_of kind) members }
{
    match kind {
        FuncKind::Not => Func::Not,
        FuncKind::All => Func::All(members),
        FuncKind::Any => Func::Any(members),
    }
}

/// Whether a function of this kind may have `members` members.
fn allows_count(kind: FuncKind, members: usize) -> bool
    ensures { result ≡ allows_count (function_of kind) members }
{
    match kind {
        FuncKind::Not => members == 1,
        FuncKind::All | FuncKind::Any => true,
    }
}

/// Returns the fault of a text of `len` bytes that ends inside `top`, whose members are in `list`.
fn unclosed(top: &OpenFunc, list: OpenList, len: usize) -> Fault
    ensures { plain_fault result ≡ unclosed len (open_of top.now list) list.parens_position }
{
    match list.parens_position {
        Some(position) => Fault {
            reason: Reason::UnclosedParens,
            span: Span {
                start: position,
                end: len,
            },
        },
        None => Fault {
            reason: Reason::Unexpected(terms::AFTER_FUNCTION),
            span: top.span,
        },
    }
}

impl<'a, A: SmallAllocator> Parser<'a, A> {
    ghost use Rattle.cfgx_grammar.specs.parsing.State.{initial};
    ghost use Rattle.cfgx_parser.specs.parsing.Parser.{state_of, Gives, Opens, WritesPending};
    ghost use Rattle.cfgx_parser.specs.parsing.Parser.{parens_opened, value_added, IsQuoted};
    ghost use Rattle.cfgx_parser.specs.parsing.Parser.{FailsAsHalted};
    ghost use Rattle.cfgx_parser.specs.parsing.Parser.{ReadsShort, room_of};
    ghost use Rattle.cfgx_parser.specs.declared.parser.Halt.TheVariants as halt;
    ghost use Rattle.cfgx_parser.specs.parsing.Parser.{closed_at, concluded, HaltsAs, ReadsAll};

    /// Returns a parser that has read nothing of a text of `len` bytes.
    #[inline(always)]
    pub fn new(alloc: A, len: usize) -> Self
        ensures { state_of result ≡ initial }
    {
        Parser {
            func_stack: SmallVec::new(alloc),
            list: OpenList::new(),
            writer: NodeWriter::new(alloc, len),
            pending: None,
            fault: Fault {
                reason: Reason::Empty,
                span: Span { start: 0, end: 0 },
            },
        }
    }

    /// Prepares the room for a text of `len` bytes. The parser has to be new.
    pub fn prepare_for(&mut self, len: usize)
        ensures { state_of self.new ≡ state_of self.old }
    {
        self.writer.prepare_for(len);
    }

    /// Moves the vectors to the heap, since `clear` overwrites each inline element with a default.
    #[cold]
    #[inline(never)]
    fn move_to_heap(&mut self) -> Result<(), AllocError>
        ensures { state_of self.new ≡ state_of self.old }
    {
        self.func_stack.reserve(KEPT_CAPACITY)?;
        self.writer.move_to_heap()
    }

    /// Clears the state for a text of `len` bytes, and keeps the memory. Moves the vectors to the
    /// heap if a node was written since the last restart and `waiting` is inline. The fault of the
    /// last text stays, and nothing reads it before `halt` replaces it.
    ///
    /// # Errors
    ///
    /// `AllocError`: the allocator refused memory.
    #[inline(always)]
    pub fn restart(&mut self, len: usize) -> Result<(), AllocError>
        ensures { state_of self.new ≡ initial }
    {
        let must_move = self.writer.should_move_to_heap();
        self.func_stack.clear();
        self.list = OpenList::new();
        self.pending = None;
        self.writer.restart(len);
        if must_move {
            self.move_to_heap()?;
        }
        Ok(())
    }

    /// Notes a fault, and returns the halt for it.
    fn halt(&mut self, reason: Reason, span: Span) -> Halt
        ensures halted { result ≡ halt.Fault }
        ensures noted { plain_fault self.new.fault
            ≡ fault_between (cause_of reason) span.start span.end }
    {
        self.fault = Fault { reason, span };
        Halt::Fault
    }

    /// Returns the failure for `halt`. A `Failure::Parse` holds a copy of the text. If memory for
    /// the copy is refused, returns `Failure::Memory`.
    fn failure(&self, alloc: A, original: &str, halt: Halt) -> Failure<A>
        ensures { FailsAsHalted original.now halt self.now result }
    {
        match halt {
            Halt::Fault => {
                let Fault { reason, span } = self.fault;
                let Span { start, end } = span;
                Failure::of(alloc, original, start..end, reason)
            }
            Halt::Memory => Failure::Memory(AllocError),
        }
    }

    /// Notes the position of the `(` of the innermost function.
    fn open_parens(&mut self, position: usize)
        ensures { state_of self.new ≡ parens_opened (state_of self.old) position }
    {
        self.list.parens_position = Some(position);
    }

    /// Counts one more member of the innermost list.
    fn count_member(&mut self)
        requires { self.old.list.ended_members + counted_around (reverse self.old.func_stack.items)
            < length self.old.writer.nodes.items }
        ensures counted { state_of self.new ≡ with_member (state_of self.old) }
        ensures functions { self.new.func_stack.items ≡ self.old.func_stack.items }
    {
        self.list.ended_members += 1;
    }

    /// Writes the pending predicate or literal, if there is one.
    // The test costs less than the call.
    #[inline(always)]
    fn write_pending(&mut self) -> Result<(), Halt>
        ensures { WritesPending self.old self.new result }
    {
        match &self.pending {
            Some(_) => self.write_leaf(),
            None => Ok(()),
        }
    }

    /// Writes the predicate or literal that is pending.
    fn write_leaf(&mut self) -> Result<(), Halt>
        ensures { WritesPending self.old self.new result }
    {
        // Never `None`: `write_pending` tests this.
        let Some(pending) = &self.pending else {
            return Ok(());
        };
        let leaf = match classify(pending) {
            Ok(leaf) => leaf,
            Err(Fault { reason, span }) => return Err(self.halt(reason, span)),
        };
        self.pending = None;
        self.writer.push_leaf(leaf)?;
        Ok(())
    }

    /// Writes the pending predicate or literal, if there is one, and counts it.
    fn end_predicate(&mut self) -> Result<(), Halt>
        ensures answer { Gives result self.old self.new (predicate_ended (state_of self.old)) }
        ensures functions { OnOk result
            (self.new.func_stack.items ≡ self.old.func_stack.items) }
    {
        if self.pending.is_some() {
            self.write_pending()?;
            self.count_member();
        }
        Ok(())
    }

    /// Opens a function whose name stands at `span`.
    #[inline(always)]
    fn open(&mut self, kind: FuncKind, span: Span) -> Result<(), AllocError>
        ensures opened { OnOk result (Opens self.old self.new (function_of kind) span) }
        ensures room { OnErr result (4 < room_of (state_of self.old)) }
    {
        let opening = self.writer.begin_function()?;
        // A comparison costs less than the call, which is out of line.
        if self.func_stack.len() == self.func_stack.capacity() {
            self.func_stack.reserve(1)?;
        }
        self.func_stack.push_reserved(OpenFunc {
            kind,
            span,
            opening,
            around: self.list,
        });
        self.list = OpenList::new();
        Ok(())
    }

    /// Closes the innermost function at the `)` that stands at `span`.
    fn close(&mut self, span: Span) -> Result<(), Halt>
        ensures { Gives result self.old self.new (closed_at (state_of self.old) span) }
    {
        let Some(top) = self.func_stack.pop() else {
            return Err(self.halt(Reason::UnopenedParens, span));
        };
        let members = self.list.ended_members + usize::from(self.pending.is_some());
        if !allows_count(top.kind, members) {
            let (start, end) = (top.span.start, span.end);
            return Err(self.halt(Reason::InvalidNot(members), Span { start, end }));
        }
        self.write_pending()?;
        self.list = top.around;
        self.writer
            .end_function(top.opening, func_of(top.kind, members))?;
        // The function is a member of the list around it.
        self.count_member();
        Ok(())
    }

    /// Notes `text` as the value of the pending predicate. `span` includes the quotes around it.
    fn add_value(&mut self, text: &'a str, span: Span)
        requires { span.start + 1 ≤ span.end }
        ensures { state_of self.new ≡ value_added (state_of self.old) text.now span }
    {
        // Never `None`: a value follows `=`, which follows the key of the pending predicate.
        if let Some(pending) = &mut self.pending {
            pending.value = Some(LocatedText {
                text,
                span: Span {
                    start: span.start + 1,
                    end: span.end - 1,
                },
            });
        }
    }

    /// Applies a token that may stand after the last one.
    fn apply(&mut self, lexed: LexerToken<'a>) -> Result<(), Halt>
        requires quoted { IsQuoted lexed }
        ensures { Gives result self.old self.new
            (apply (state_of self.old) (item_of lexed.entry) (token_of lexed.entry.token)) }
    {
        let LexerToken { token, span } = lexed;
        let span = Span::from(span);
        match token {
            Token::Key(text) => {
                let key = LocatedText { text, span };
                self.pending = Some(Pending { key, value: None });
            }
            Token::Value(text) => self.add_value(text, span),
            Token::Equals => {}
            Token::All => self.open(FuncKind::All, span)?,
            Token::Any => self.open(FuncKind::Any, span)?,
            Token::Not => self.open(FuncKind::Not, span)?,
            Token::OpenParen => self.open_parens(span.start),
            Token::CloseParen => self.close(span)?,
            Token::Comma => self.end_predicate()?,
        }
        Ok(())
    }

    /// Applies a token if it may follow `last`, and otherwise halts with what was expected.
    fn read(&mut self, last: LastToken, lexed: LexerToken<'a>) -> Result<(), Halt>
        requires quoted { IsQuoted lexed }
        ensures { Gives result self.old self.new
            (step (token_like last) (state_of self.old) (item_of lexed.entry)) }
    {
        if !may_follow(last, lexed.token) {
            return Err(self.halt(expected(last), lexed.span.into()));
        }
        self.apply(lexed)
    }

    /// Ends what stands outside of every function, in a text of `len` bytes. Anything but one
    /// member there is a fault.
    fn end_roots(&mut self, len: usize) -> Result<(), Halt>
        requires { self.old.func_stack.items ≡ [] }
        ensures { Gives result self.old self.new (one_root len (state_of self.old)) }
    {
        let whole = Span { start: 0, end: len };
        match self.list.ended_members {
            0 => Err(self.halt(Reason::Empty, whole)),
            1 => Ok(self.writer.end_list(0)?),
            _ => Err(self.halt(Reason::MultipleRootPredicates, whole)),
        }
    }

    /// Ends a text of `len` bytes in which no value is missing. An open function is a fault.
    fn end_text(&mut self, len: usize) -> Result<(), Halt>
        ensures { Gives result self.old self.new (concluded (state_of self.old) len) }
    {
        if let Some(top) = self.func_stack.last() {
            let Fault { reason, span } = unclosed(top, self.list, len);
            return Err(self.halt(reason, span));
        }
        self.end_predicate()?;
        self.end_roots(len)
    }

    /// Ends a text of `len` bytes after its last token.
    fn finish(&mut self, last: LastToken, len: usize) -> Result<(), Halt>
        ensures { Gives result self.old self.new
            (conclude (token_like last) len (state_of self.old)) }
    {
        if lacks_value(last) {
            return Err(self.halt(Reason::Unexpected(terms::VALUE), Span::from(len..len)));
        }
        self.end_text(len)
    }

    /// Reads all tokens of the lexer, to the end of the text. The parser has to be new or
    /// restarted. If the result is `Ok`, `nodes` and `places` have the tree of the text.
    ///
    /// # Errors
    ///
    /// `Failure::Parse`: the first fault of the text. `Failure::Memory`: an allocator refused
    /// memory.
    pub fn read_all(&mut self, alloc: A, lexer: Lexer<'a, A>) -> Result<(), Failure<A>>
        ensures reads { ReadsAll lexer.entry self.old self.new result }
        ensures short { ReadsShort lexer.entry self.old result }
    {
        let text = lexer.original();
        let mut last = LastToken::Start;
        for lexed in lexer {
            let lexed = lexed?;
            let token = lexed.token;
            if let Err(halt) = self.read(last, lexed) {
                return Err(self.failure(alloc, text, halt));
            }
            last = LastToken::of(token);
        }
        match self.finish(last, text.len()) {
            Ok(()) => Ok(()),
            Err(halt) => Err(self.failure(alloc, text, halt)),
        }
    }

    /// Returns the nodes that were written.
    pub fn nodes(&self) -> &[ExprNode]
        ensures { result.now ≡ self.now.writer.nodes.items }
    {
        self.writer.nodes.as_slice()
    }

    /// Returns the places of the predicates among the nodes, in the order in which they are asked.
    pub fn places(&self) -> &[usize]
        ensures { result.now ≡ self.now.writer.places.items }
    {
        self.writer.places.as_slice()
    }

    /// Returns the nodes that were written, and the places of the predicates among them.
    #[inline(always)]
    pub fn into_parts(self) -> (SmallVec<ExprNode, 5, A>, SmallVec<usize, 4, A>)
        ensures nodes { result.0 ≡ self.entry.writer.nodes }
        ensures places { result.1 ≡ self.entry.writer.places }
    {
        let Parser { writer, .. } = self;
        let NodeWriter { nodes, places, .. } = writer;
        (nodes, places)
    }
}

/// Prints the name alone.
impl<A: SmallAllocator> fmt::Debug for Parser<'_, A> {
    fn fmt<W: fmt::Write>(&self, f: &mut fmt::Formatter<W>) -> fmt::Result {
        f.debug_struct("Parser").finish_non_exhaustive()
    }
}
