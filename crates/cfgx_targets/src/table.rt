//! Tables of targets.

ghost use Rattle.std.specs.Prelude.{◌≡◌, IfErr, IfOk, MatchOption, option_copied};
ghost use Rattle.cfgx_targets.specs.Table.{AreIncreasing, IsFirstNotAbove, row_with};

use crate::info::TargetInfo;
use std::alloc::{Allocator, Global};
use std::fmt;
use std::marker::Model;

/// Targets in strictly increasing order of their triples, which are compared as bytes. Contracts
/// see the list of rows.
#[derive(Drop)]
pub struct TargetTable<'a, A: Allocator = Global> {
    rows: Vec<TargetInfo<'a, A>, A>,
}

impl<'a, A: Allocator> Model for TargetTable<'a, A> {
    ghost use Rattle.std.specs.Prelude.{List};
    ghost use Rattle.cfgx_targets.specs.declared.info.TargetInfo.{TargetInfo};
    ghost use Rattle.cfgx_targets.specs.Table.{AreIncreasing};

    ghost Value = { List (TargetInfo A) };

    ghost view = { λ table. table.rows.items };

    ghost invariant = { λ table. AreIncreasing table.rows.items };
}

/// Rows whose triples do not strictly increase.
#[derive(Drop)]
pub struct TableError<'a, A: Allocator = Global> {
    /// The index of the first row whose triple is not above the one before.
    pub index: usize,
    /// All rows, in their order.
    pub rows: Vec<TargetInfo<'a, A>, A>,
}

impl<'a, A: Allocator> TargetTable<'a, A> {
    /// Returns the table of `rows`. It allocates nothing.
    ///
    /// Returns an error if the triples do not strictly increase. The error has the rows, so that
    /// the caller can sort them and try again.
    pub fn from_rows(rows: Vec<TargetInfo<'a, A>, A>) -> Result<Self, TableError<'a, A>>
        ensures kept { IfOk result (λ table. table ≡ rows.entry.items) }
        ensures increasing { IfOk result (λ table. AreIncreasing table) }
        ensures returned { IfErr result (λ error. error.rows ≡ rows.entry) }
        ensures first { IfErr result (λ error. IsFirstNotAbove rows.entry.items error.index) }
    {
        match first_not_above(rows.as_slice()) {
            Some(index) => Err(TableError { index, rows }),
            None => Ok(TargetTable { rows }),
        }
    }

    /// Returns the table of `rows`, whose triples increase.
    pub(crate) fn from_increasing(rows: Vec<TargetInfo<'a, A>, A>) -> Self
        requires { AreIncreasing rows.items }
        ensures { result ≡ rows.entry.items }
    {
        TargetTable { rows }
    }

    /// Returns the rows, in the order of their triples.
    pub fn rows(&self) -> &[TargetInfo<'a, A>]
        ensures rows { result.now ≡ self.now }
        ensures increasing { AreIncreasing result.now }
    {
        self.rows.as_slice()
    }
}

// Returns the index of the first row whose triple is not above the one before.
fn first_not_above<A: Allocator>(rows: &[TargetInfo<'_, A>]) -> Option<usize>
    ensures { MatchOption result (AreIncreasing rows.now) (IsFirstNotAbove rows.now) }
{
    for place in 1..rows.len() {
        let before = &rows[place - 1];
        let row = &rows[place];
        if before.triple.cmp(&row.triple).is_ge() {
            return Some(place);
        }
    }
    None
}

/// Returns the row of `table` with `triple`, or `None` if no row has it.
pub fn get_builtin_target_by_triple<'t, 'a, A: Allocator>(
    table: &'t TargetTable<'a, A>,
    triple: &str,
) -> Option<&'t TargetInfo<'a, A>>
    ensures { option_copied result ≡ row_with triple.now table.now }
{
    let rows = table.rows();
    match rows.binary_search_by(|row| row.triple.as_str().cmp(triple)) {
        Ok(place) => Some(&rows[place]),
        Err(_) => None,
    }
}

impl<A: Allocator> fmt::Debug for TargetTable<'_, A> {
    fn fmt<W: fmt::Write>(&self, f: &mut fmt::Formatter<W>) -> fmt::Result {
        f.debug_list().slice(self.rows()).finish()
    }
}

impl<A: Allocator> fmt::Debug for TableError<'_, A> {
    fn fmt<W: fmt::Write>(&self, f: &mut fmt::Formatter<W>) -> fmt::Result {
        write!(f, "TableError at {} of ", self.index)?;
        f.debug_list().slice(self.rows.as_slice()).finish()
    }
}
