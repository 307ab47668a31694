//! Counts of calls and of faults, with the calls that fail.
ghost use Rattle.std.specs.Prelude.{◌≡◌, ◌≤◌, ◌||◌, not, is_err};
ghost use Rattle.nf_io.specs.Causes.{HasCause, faults_after, risen};
ghost use Rattle.nf_io.specs.Memory.{is_next_listed};

use crate::call_list::CallList;
use crate::failure::Failed;

// The calls so far, counted from 1, and those of them that failed. A count that reaches its
// limit stays there.
#[derive(Drop)]
pub(crate) struct Calls {
    fails: CallList,
    count: u64,
    faults: u64,
}

impl Calls {
    pub(crate) fn new(fails: CallList) -> Calls
        ensures fails { result.fails ≡ fails }
        ensures count { result.count ≡ 0 }
        ensures faults { result.faults ≡ 0 }
    {
        Calls {
            fails,
            count: 0,
            faults: 0,
        }
    }

    // Counts one more call, which fails where it is listed or can't be done.
    pub(crate) fn next(&mut self, can_be_done: bool) -> Result<(), Failed>
        ensures fails { is_err result
            ≡ (is_next_listed self.old.fails self.old.count || not can_be_done) }
        ensures listed { self.new.fails ≡ self.old.fails }
        ensures count { self.new.count ≡ risen self.old.count }
        ensures faults { self.new.faults ≡ faults_after self.old.faults result }
        ensures cause { HasCause self.old.faults self.new.faults result }
        ensures never_falls { self.old.faults ≤ self.new.faults }
    {
        self.count = self.count.saturating_add(1);
        if self.fails.has(self.count) || !can_be_done {
            self.faults = self.faults.saturating_add(1);
            return Err(Failed);
        }
        Ok(())
    }
}
