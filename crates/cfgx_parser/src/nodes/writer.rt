//! The nodes of a tree while they are written, in one pass over the text.
ghost use Rattle.std.specs.Prelude.{◌≡◌, ◌<◌, ◌≤◌, ◌+◌, ◌-◌, ◌^◌, length, OnErr, OnOk, IfOk};

use super::ExprNode;
use crate::function::Func;
use cfgx_syntax::memory::SmallAllocator;
use smallvec::SmallVec;
use std::alloc::AllocError;
use std::mem;

/// Where an open function began.
#[derive(Clone, Copy)]
pub(crate) struct Opening {
    /// The place of its node
    pub(crate) node: usize,
    /// The length of the writer's `waiting` when it began
    pub(crate) waiting: usize,
}

/// The number of bytes of text that are expected for each node.
const BYTES_PER_NODE: usize = 8;

/// The fewest nodes for which room is added when a text first outgrows the room there is.
const MIN_CAPACITY: usize = 3;

/// The most nodes for which room is added then. They take 168 KiB: most allocators grow a block of
/// that size where it stands, and do not copy it.
const MAX_CAPACITY: usize = 3584;

/// The capacity that `move_to_heap` reserves for each vector. It is greater than each inline
/// capacity, or `reserve` would leave a vector inline.
pub(crate) const KEPT_CAPACITY: usize = 8;

/// Returns how many more nodes to reserve when those of a text of `len` bytes outgrow their room.
fn capacity_for(len: usize) -> usize {
    (len / BYTES_PER_NODE).max(MIN_CAPACITY).min(MAX_CAPACITY)
}

/// The nodes of a tree while they are written.
#[derive(Drop)]
pub(crate) struct NodeWriter<A: SmallAllocator> {
    /// The nodes, in source order
    pub(crate) nodes: SmallVec<ExprNode, 5, A>,
    /// The places of the predicates whose list is open, those of inner lists last
    pub(crate) waiting: SmallVec<usize, 4, A>,
    /// The places of the other predicates, in the order in which they are asked
    pub(crate) places: SmallVec<usize, 4, A>,
    /// `nodes.len()`, cached: a `SmallVec` first tests whether it is inline
    node_count: usize,
    /// `waiting.len()`, cached for the same reason
    waiting_count: usize,
    /// How many more nodes to reserve when those of this text first outgrow their room, and then 0
    first_capacity: usize,
    /// Both counts are the lengths of their vectors
    ghost counted: { (node_count ≡ length nodes.items) × (waiting_count ≡ length waiting.items) },
    /// There are no more places than nodes
    ghost few: { length waiting.items + length places.items ≤ length nodes.items },
}

impl<A: SmallAllocator> NodeWriter<A> {
    ghost use Rattle.smallvec.specs.SmallVec.{HasRoomFor};
    ghost use Rattle.cfgx_parser.specs.nodes.Node.{nothing, opening_of, with_leaf, with_function};
    ghost use Rattle.cfgx_parser.specs.nodes.Node.{with_node};
    ghost use Rattle.cfgx_parser.specs.nodes.Node.{with_list_ended, with_function_ended, completed};
    ghost use Rattle.cfgx_parser.specs.nodes.NodeWriter.{written_of, KeepsNodes};

    /// Returns a writer that has written nothing of a text of `len` bytes.
    #[inline(always)]
    pub(crate) fn new(alloc: A, len: usize) -> Self
        ensures { written_of result ≡ nothing }
    {
        NodeWriter {
            nodes: SmallVec::new(alloc),
            waiting: SmallVec::new(alloc),
            places: SmallVec::new(alloc),
            node_count: 0,
            waiting_count: 0,
            first_capacity: capacity_for(len),
        }
    }

    /// Prepares the room for a text of `len` bytes, of which nothing is written.
    pub(crate) fn prepare_for(&mut self, len: usize)
        ensures { written_of self.new ≡ written_of self.old }
    {
        self.first_capacity = capacity_for(len);
    }

    /// Clears the writer for a text of `len` bytes, and keeps the memory.
    pub(crate) fn restart(&mut self, len: usize)
        ensures { written_of self.new ≡ nothing }
    {
        self.nodes.clear();
        self.waiting.clear();
        self.places.clear();
        self.node_count = 0;
        self.waiting_count = 0;
        self.prepare_for(len);
    }

    /// Whether the vectors should move to the heap: a node was written since the last restart, and
    /// `waiting` is inline. This decides about cost alone, so `waiting` stands for all vectors, the
    /// `func_stack` of the parser included.
    pub(crate) fn should_move_to_heap(&self) -> bool {
        self.node_count > 0 && !self.waiting.spilled()
    }

    /// Moves the vectors to the heap.
    pub(crate) fn move_to_heap(&mut self) -> Result<(), AllocError>
        ensures { written_of self.new ≡ written_of self.old }
    {
        self.waiting.reserve(KEPT_CAPACITY)?;
        self.places.reserve(KEPT_CAPACITY)?;
        self.nodes.reserve(KEPT_CAPACITY)
    }

    /// Reserves capacity for one more node, the first time for as many as the text is likely to
    /// have.
    #[cold]
    #[inline(never)]
    fn grow(&mut self) -> Result<(), AllocError>
        ensures written { written_of self.new ≡ written_of self.old }
        ensures reserved { OnOk result (HasRoomFor self.new.nodes 1) }
    {
        let capacity = mem::replace(&mut self.first_capacity, 0);
        if capacity == 0 {
            return self.nodes.reserve(1);
        }
        self.nodes.reserve_exact(capacity)
    }

    /// Writes a node, and returns its place.
    #[inline(always)]
    fn push_node(&mut self, node: ExprNode) -> Result<usize, AllocError>
        ensures place { IfOk result (λ place. place ≡ length (written_of self.old).nodes) }
        ensures written { OnOk result (written_of self.new ≡ with_node node (written_of self.old)) }
        ensures unchanged { OnErr result (written_of self.new ≡ written_of self.old) }
        ensures countable { OnOk result (length (written_of self.new).nodes < 2 ^ 64) }
        ensures room { OnErr result (5 ≤ length (written_of self.old).nodes) }
    {
        let place = self.node_count;
        prove!(place == self.nodes.len());
        if place == self.nodes.capacity() {
            self.grow()?;
        }
        self.nodes.push_reserved(node);
        prove!(place < self.nodes.len());
        self.node_count = place + 1;
        Ok(place)
    }

    /// Writes a predicate or a literal of the innermost list. A literal is not asked.
    pub(crate) fn push_leaf(&mut self, leaf: ExprNode) -> Result<(), AllocError>
        ensures written { OnOk result
            (written_of self.new ≡ with_leaf leaf (written_of self.old)) }
        ensures kept { KeepsNodes (written_of self.old) (written_of self.new) }
        ensures room { OnErr result (4 ≤ length (written_of self.old).nodes) }
    {
        let is_asked = matches!(leaf, ExprNode::Predicate(_));
        let place = self.push_node(leaf)?;
        if is_asked {
            prove!(self.waiting.capacity() >= 4);
            self.waiting.push(place)?;
            prove!(self.waiting_count < self.waiting.len());
            self.waiting_count += 1;
        }
        Ok(())
    }

    /// Writes the node of a function that begins, and returns where it begins. `end_function`
    /// completes the node.
    pub(crate) fn begin_function(&mut self) -> Result<Opening, AllocError>
        ensures opening { IfOk result
            (λ opening. opening ≡ opening_of (written_of self.old)) }
        ensures written { OnOk result
            (written_of self.new ≡ with_function (written_of self.old)) }
        ensures kept { KeepsNodes (written_of self.old) (written_of self.new) }
        ensures room { OnErr result (5 ≤ length (written_of self.old).nodes) }
    {
        let node = self.push_node(ExprNode::Fn {
            func: Func::Not,
            len: 0,
        })?;
        let waiting = self.waiting_count;
        Ok(Opening { node, waiting })
    }

    /// Ends a list that has one predicate of its own.
    fn end_list_of_one(&mut self) -> Result<(), AllocError>
        ensures written { OnOk result (written_of self.new
            ≡ with_list_ended (length (written_of self.old).waiting - 1) (written_of self.old)) }
        ensures kept { KeepsNodes (written_of self.old) (written_of self.new) }
        ensures room { OnErr result (5 ≤ length (written_of self.old).nodes) }
    {
        if let Some(place) = self.waiting.pop() {
            self.waiting_count -= 1;
            prove!(self.places.capacity() >= 4);
            self.places.push(place)?;
        }
        Ok(())
    }

    /// Ends a list whose own predicates are those of `waiting` from `begin` on.
    fn end_list_of_many(&mut self, begin: usize) -> Result<(), AllocError>
        requires { begin ≤ length (written_of self.old).waiting }
        ensures written { OnOk result
            (written_of self.new ≡ with_list_ended begin (written_of self.old)) }
        ensures kept { KeepsNodes (written_of self.old) (written_of self.new) }
        ensures room { OnErr result (5 ≤ length (written_of self.old).nodes) }
    {
        prove!(self.places.capacity() >= 4);
        self.places
            .extend_from_slice(&self.waiting.as_slice()[begin..])?;
        self.waiting.truncate(begin);
        self.waiting_count = begin;
        Ok(())
    }

    /// Ends a list: moves its own predicates, those of `waiting` from `begin` on, to `places`. Most
    /// lists have none or one, and moving one takes fewer steps than moving a slice.
    #[inline(always)]
    pub(crate) fn end_list(&mut self, begin: usize) -> Result<(), AllocError>
        ensures written { OnOk result
            (written_of self.new ≡ with_list_ended begin (written_of self.old)) }
        ensures kept { KeepsNodes (written_of self.old) (written_of self.new) }
        ensures room { OnErr result (5 ≤ length (written_of self.old).nodes) }
    {
        let count = self.waiting_count;
        // Never less than `begin`: an inner list takes its own predicates alone.
        if count <= begin {
            return Ok(());
        }
        if count - begin == 1 {
            return self.end_list_of_one();
        }
        self.end_list_of_many(begin)
    }

    /// Completes the node of a function whose members are all written.
    #[inline(always)]
    fn complete(&mut self, place: usize, func: Func)
        ensures { written_of self.new ≡ completed place func (written_of self.old) }
    {
        // Always true: the node was written when the function began.
        if place < self.node_count {
            let len = self.node_count - place;
            self.nodes[place] = ExprNode::Fn { func, len };
        }
    }

    /// Ends the function that began at `opening`.
    pub(crate) fn end_function(&mut self, opening: Opening, func: Func) -> Result<(), AllocError>
        ensures written { OnOk result
            (written_of self.new ≡ with_function_ended opening func (written_of self.old)) }
        ensures kept { KeepsNodes (written_of self.old) (written_of self.new) }
        ensures room { OnErr result (5 ≤ length (written_of self.old).nodes) }
    {
        self.complete(opening.node, func);
        self.end_list(opening.waiting)
    }
}
