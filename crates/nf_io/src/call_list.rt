//! Lists of the calls that fail.
ghost use Rattle.std.specs.Prelude.{◌≡◌, ◌==◌, [], ◌∷◌, ◌++◌, OnOk, OnErr};
ghost use Rattle.std.specs.List.{list_any};

use nf_core::NoMemory;
use std::alloc::Global;
use std::marker::Model;

/// A list of numbers of calls, counted from 1. A contract sees the list of the numbers, the last
/// added last.
#[derive(Drop)]
pub struct CallList {
    calls: Vec<u64>,
}

impl Model for CallList {
    ghost use Rattle.std.specs.Prelude.{ℕ, List};

    ghost Value = { List ℕ };

    ghost view = { λ l. l.calls.items };
}

impl CallList {
    /// The list without calls. It takes its memory from `alloc` as calls are added.
    pub fn new(alloc: Global) -> CallList
        ensures { result ≡ [] }
    {
        CallList {
            calls: Vec::new(alloc),
        }
    }

    /// Adds the number of a call.
    ///
    /// Answers NoMemory where no memory is left; then the list stays as it was.
    pub fn add(&mut self, call: u64) -> Result<(), NoMemory>
        ensures ok { OnOk result (self.new ≡ self.old ++ call ∷ []) }
        ensures err { OnErr result (self.new ≡ self.old) }
    {
        self.calls.push(call)?;
        Ok(())
    }

    // Whether the call of this number is in the list.
    pub(crate) fn has(&self, call: u64) -> bool
        ensures { result ≡ list_any (λ listed. listed == call) self.now }
    {
        self.calls.contains(&call)
    }
}
