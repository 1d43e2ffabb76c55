//! Faults as C sees them, and why a call has no result.

ghost use Rattle.std.specs.Prelude.{◌≡◌, ◌<◌, ◌+◌, ◌^◌};
ghost use Rattle.cfgx_c.specs.Faults.{c_fault, utf8_fault};
ghost use Rattle.cfgx_c.specs.internal.Refusals.{fault_at, plain};

use crate::status::OUT_OF_MEMORY;
use cfg_expr::error::ParseError;
use std::alloc::{AllocError, AllocFailed};

/// The fault of a text or a fact. Offsets are in bytes.
#[repr(C)]
#[derive(Clone, Copy, Debug, Default)]
pub struct CfgxFault {
    /// The number of the text among those of the call, or of the fact among all facts, from 0 on
    pub item: usize,
    /// The offset of the stripped text in the text: 4 if an outer `cfg( )` was stripped, else 0. A
    /// `?` in front of a fact is one byte more
    pub offset: usize,
    /// The start of the span, in the stripped text
    pub start: usize,
    /// The end of the span, in the stripped text
    pub end: usize,
    /// The number of members, if a `not` has too few or too many of them, else 0
    pub members: usize,
    /// The number of the reason
    pub reason: u32,
    /// The number of the list of terms, from 1 on, if the reason is `Unexpected`, else 0
    pub terms: u32,
}

impl CfgxFault {
    /// Returns the fault of the item with this number, of which the byte at `start` is the first
    /// that is no UTF-8.
    pub(crate) fn at_byte(item: usize, start: usize) -> CfgxFault
        requires { start + 1 < 2 ^ 64 }
        ensures { result ≡ utf8_fault item start }
    {
        CfgxFault {
            item,
            start,
            end: start + 1,
            ..CfgxFault::default()
        }
    }

    /// Returns the fault of the item with this number as C sees it. `offset` bytes stand before the
    /// stripped text.
    pub(crate) fn of(item: usize, offset: usize, error: &ParseError) -> CfgxFault
        ensures { result ≡ c_fault item offset (fault_at error.now) }
    {
        CfgxFault {
            item,
            offset,
            start: error.span.start,
            end: error.span.end,
            members: error.reason.members(),
            reason: error.reason.number(),
            terms: error.reason.terms_number(),
        }
    }
}

/// Why a call has no result.
#[derive(Clone, Copy, Debug)]
pub(crate) struct Refusal {
    /// The status of the call
    pub(crate) status: u32,
    /// The fault of the text or the fact that the status is about, else zeros
    pub(crate) fault: CfgxFault,
}

impl Refusal {
    /// Returns a refusal that is about no text and no fact.
    pub(crate) fn plain(status: u32) -> Refusal
        ensures { result ≡ plain status }
    {
        Refusal {
            status,
            fault: CfgxFault::default(),
        }
    }

    /// Writes the fault to `fault`, and returns the status.
    pub(crate) fn report(self, fault: &mut CfgxFault) -> u32
        ensures status { result ≡ self.status }
        ensures fault { fault.new ≡ self.fault }
    {
        *fault = self.fault;
        self.status
    }
}

impl From<AllocError> for Refusal {
    ghost use Rattle.std.specs.Prelude.{◌≡◌};
    ghost use Rattle.cfgx_c.specs.Status.{out_of_memory};
    ghost use Rattle.cfgx_c.specs.internal.Refusals.{plain};

    ghost from_gives = { λ _ refusal. refusal ≡ plain out_of_memory };

    fn from(_error: AllocError) -> Refusal {
        Refusal::plain(OUT_OF_MEMORY)
    }
}

impl<T: Drop> From<AllocFailed<T>> for Refusal {
    ghost use Rattle.std.specs.Prelude.{◌≡◌};
    ghost use Rattle.cfgx_c.specs.Status.{out_of_memory};
    ghost use Rattle.cfgx_c.specs.internal.Refusals.{plain};

    ghost from_gives = { λ _ refusal. refusal ≡ plain out_of_memory };

    fn from(_error: AllocFailed<T>) -> Refusal {
        Refusal::plain(OUT_OF_MEMORY)
    }
}
