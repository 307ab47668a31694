//! Reading the announcements of a trace back gives what is shown.

ghost use Rattle.std.specs.Prelude.{ℕ, Bool, List, take};
ghost use Rattle.nf_core.specs.Plan.{Plan, IsPlan};
ghost use Rattle.nf_line.specs.Trace.{trace};
ghost use Rattle.nf_session.specs.Replay.{IsReplayed};

use crate::laws::follow_text_is_one_change_after_another;
use nf_line::events_have_plain_values;
use nf_model::pools_have_proper_rows;

/// After each accepted line of a trace, reading the announcements so far from nothing on is defined and
/// leaves exactly the lines that are shown, each once (`IsReplayed` of specs/Replay), under `full` and without.
pub fn replay_is_what_is_shown()
    ensures { (plan : Plan) (full : Bool) (bytes : List ℕ) (k : ℕ) → IsPlan plan
        → IsReplayed plan full (take k (trace bytes).events) }
{
    events_have_plain_values();
    follow_text_is_one_change_after_another();
    pools_have_proper_rows();
}
