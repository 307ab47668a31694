//! What holds of the definitions themselves. Each function does nothing, and its contract is the law.

ghost use Rattle.std.specs.Prelude.{◌≡◌, Bool, List};
ghost use Rattle.nf_core.specs.Plan.{Plan};
ghost use Rattle.nf_line.specs.Trace.{Event};
ghost use Rattle.nf_model.specs.Changes.{no_inputs};
ghost use Rattle.nf_session.specs.Follow.{follow_text, text_from};
ghost use Rattle.nf_session.specs.Sessions.{piece_limit};

/// Following a trace by computing every prefix anew writes the same text as entering one event after the
/// other and writing what each one changes.
pub fn follow_text_is_one_change_after_another()
    ensures { (plan : Plan) (full : Bool) (events : List Event)
        → follow_text plan full events ≡ text_from (no_inputs plan full) events }
{}

/// The most bytes of one read are 65,536.
pub fn pieces_have_a_limit()
    ensures { piece_limit ≡ 65536 }
{}
