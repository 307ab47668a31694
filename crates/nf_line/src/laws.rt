//! What holds of the definitions themselves. Each function does nothing, and its contract is the law.

ghost use Rattle.std.specs.Prelude.{◌≡◌, ◌≢◌, ℕ, ◌+◌, ◌-◌, ◌^◌, ◌<◌, ◌≤◌, false, true, List, [], ◌∷◌, ◌++◌, length, map, take, fold, None, option_to_list};
ghost use Rattle.nf_line.specs.Lines.{cut, cut_off, line_limit, ended_lines, unended, without_return};
ghost use Rattle.nf_line.specs.Line.{Line, line, line_within, Faulty, Long};
ghost use Rattle.nf_line.specs.Cutting.{Content, Run, start, after_call, is_long, used_of, line_of, content_after, last_line, IsContent, HasCut, IsLongBehind};
ghost use Rattle.nf_line.specs.Standing.{standing, read_on};
ghost use Rattle.nf_line.specs.Trace.{Event, Refusal, Ending, Done, Refused, TooLong, after_events, trace_over, trace, trace_so_far, trace_limit};

/// Whatever the pieces are, the lines that are handed out are those of the cut of all bytes that
/// were used, one after the other, without one CR at their end.
///
/// What stands between two calls is `HasCut` of specs/Cutting: it holds before the first one, each
/// call that isn't too long keeps it, and what it leaves can be kept, and at the end the lines of all
/// bytes are those that were handed out and then the one that is kept.
pub fn lines_are_those_of_the_cut()
    ensures start { HasCut [] [] [] }
    ensures step { (bytes : List ℕ) (lines : List (List ℕ)) (content : Content) (piece : List ℕ)
        → HasCut bytes lines content.kept → is_long content piece ≡ false
        → HasCut (bytes ++ take (used_of piece) piece)
        (lines ++ option_to_list (line_of content piece)) (content_after content piece).kept }
    ensures content { (content : Content) (piece : List ℕ)
        → IsContent content → is_long content piece ≡ false
        → IsContent (content_after content piece) }
    ensures whole { (pieces : List (List ℕ)) → let run = fold after_call start pieces in
        run.content.was_long ≡ false → HasCut run.bytes run.lines run.content.kept }
    ensures last { (bytes : List ℕ) (lines : List (List ℕ)) (kept : List ℕ)
        → HasCut bytes lines kept
        → map without_return (cut bytes) ≡ lines ++ option_to_list (last_line kept) }
{}

/// A line that is handed out has the meaning of its whole piece in the cut, and so has the last one.
/// A piece that is longer than a line may be is `Long`.
pub fn lines_mean_their_pieces()
    ensures within { (piece : List ℕ) → length piece ≤ line_limit
        → line piece ≡ line_within (without_return piece) }
    ensures long { (piece : List ℕ) → line_limit < length piece → line piece ≡ Faulty Long }
    ensures all { (bytes : List ℕ) (lines : List (List ℕ)) (kept : List ℕ)
        → HasCut bytes lines kept → length kept ≤ line_limit
        → map line (cut bytes) ≡ map line_within (lines ++ option_to_list (last_line kept)) }
    ensures broken_off { (bytes : List ℕ) (lines : List (List ℕ)) (kept : List ℕ)
        → HasCut bytes lines kept → length kept ≤ line_limit
        → map line (cut_off bytes) ≡ map line_within lines }
{}

/// Where a piece makes a line too long, the piece of the cut that stands behind those of the lines
/// handed out is longer than a line may be, whatever comes behind, also where the bytes are broken
/// off there. So its line is `Long`, right behind those handed out.
pub fn long_lines_are_long_pieces()
    ensures whole { (bytes : List ℕ) (lines : List (List ℕ)) (content : Content)
        (piece more : List ℕ) (cut_so_far : HasCut bytes lines content.kept)
        → content.was_long ≡ false → is_long content piece ≡ true
        → IsLongBehind cut_so_far.pieces (cut (bytes ++ piece ++ more)) }
    ensures broken_off { (bytes : List ℕ) (lines : List (List ℕ)) (content : Content)
        (piece more : List ℕ) (cut_so_far : HasCut bytes lines content.kept)
        → content.was_long ≡ false → is_long content piece ≡ true
        → IsLongBehind cut_so_far.pieces (cut_off (bytes ++ piece ++ more)) }
    ensures meaning { (bytes : List ℕ) (lines : List (List ℕ)) (content : Content) (piece : List ℕ)
        → HasCut bytes lines content.kept
        → content.was_long ≡ false → is_long content piece ≡ true → (rest : List Line)
        × (map line (cut_off (bytes ++ piece)) ≡ map line_within lines ++ Faulty Long ∷ rest) }
{}

/// The lines that ended stay what they are, whatever comes behind, and so does one that is already too
/// long.
pub fn lines_that_ended_stay()
    ensures whole { (bytes more : List ℕ) → (rest : List Line)
        × (map line (cut (bytes ++ more)) ≡ map line (cut_off bytes) ++ rest) }
    ensures broken_off { (bytes more : List ℕ) → (rest : List Line)
        × (map line (cut_off (bytes ++ more)) ≡ map line (cut_off bytes) ++ rest) }
{}

/// What is known of a trace by its first bytes stays, whatever comes behind.
///
/// A refusal that they show is that of the trace, and its accepted lines are those before it
/// (`refused`). Where they show none, the accepted lines of the trace begin with theirs (`goes_on`),
/// and where they are as many as make a trace too long it has no others (`at_limit`). What shows no
/// refusal shows none in fewer bytes (`shorter`), and some bytes alone never show that a trace is too
/// long (`never_too_long`).
pub fn what_is_known_of_a_trace_stays()
    ensures refused { (bytes more : List ℕ) (number : ℕ) (refusal : Refusal)
        → length bytes ≤ trace_limit → (trace_so_far bytes).ending ≡ Refused number refusal
        → trace (bytes ++ more) ≡ trace_so_far bytes }
    ensures goes_on { (bytes more : List ℕ)
        → length bytes ≤ trace_limit → (trace_so_far bytes).ending ≡ Done → (events : List Event)
        × ((trace (bytes ++ more)).events ≡ (trace_so_far bytes).events ++ events) }
    ensures at_limit { (bytes more : List ℕ)
        → length bytes ≡ trace_limit → (trace_so_far bytes).ending ≡ Done
        → trace (bytes ++ more)
        ≡ record { events = (trace_so_far bytes).events; ending = TooLong } }
    ensures shorter { (bytes more : List ℕ)
        → (trace_so_far (bytes ++ more)).ending ≡ Done → (trace_so_far bytes).ending ≡ Done }
    ensures never_too_long { (bytes : List ℕ) → (trace_so_far bytes).ending ≢ TooLong }
{}

/// Where a reader stands after some bytes of a trace follows from the bytes alone (`standing` of
/// specs/Standing): how many lines ended, what stands behind the last LF, and the end of the last
/// accepted line.
///
/// Where those bytes show no refusal, the trace has their accepted lines, and then what is read on from
/// there: of all bytes (`whole`), of bytes that go on (`so_far`), and where the trace is too long
/// (`too_long`). Of lines that were cut so far as many ended as were handed out, and what is kept stands
/// behind the last LF (`cut`). The lines handed out are read on likewise (`lines`). What stands behind the
/// last LF can be kept (`within`).
pub fn traces_go_on_from_where_they_stand()
    ensures whole { (bytes more : List ℕ)
        → length (bytes ++ more) < trace_limit → (trace_so_far bytes).ending ≡ Done
        → trace (bytes ++ more) ≡ after_events (trace_so_far bytes).events
        (read_on (standing bytes) Done (cut (unended bytes ++ more))) }
    ensures so_far { (bytes more : List ℕ) → (trace_so_far bytes).ending ≡ Done
        → trace_so_far (bytes ++ more) ≡ after_events (trace_so_far bytes).events
        (read_on (standing bytes) Done (cut_off (unended bytes ++ more))) }
    ensures too_long { (bytes more : List ℕ) → length bytes ≤ trace_limit
        → trace_limit ≤ length (bytes ++ more) → (trace_so_far bytes).ending ≡ Done
        → let counted = take (trace_limit - length bytes) more in
        trace (bytes ++ more) ≡ after_events (trace_so_far bytes).events
        (read_on (standing bytes) TooLong (cut_off (unended bytes ++ counted))) }
    ensures cut { (bytes : List ℕ) (lines : List (List ℕ)) (kept : List ℕ)
        → HasCut bytes lines kept
        → (ended_lines bytes ≡ length lines) × (unended bytes ≡ kept) }
    ensures lines { (bytes : List ℕ) (lines : List (List ℕ)) (kept : List ℕ)
        → HasCut bytes lines kept → length kept ≤ line_limit
        → (trace_so_far bytes).ending ≡ Done → (ending : Ending) (rest : List Line)
        → let stand = standing bytes in
        trace_over 1 None ending (map line_within lines ++ rest) ≡ after_events
        (trace_so_far bytes).events (trace_over (stand.ended + 1) stand.last ending rest) }
    ensures within { (bytes : List ℕ) → (trace_so_far bytes).ending ≡ Done
        → length (unended bytes) ≤ line_limit }
{}

/// The limits in figures: a line has at most 65,536 bytes before its LF, and a trace fewer than 2^63 - 1.
#[tactic(auto, unfolding(crate::specs::Trace::trace_limit))]
pub fn limits_in_figures()
    ensures line { line_limit ≡ 65536 }
    ensures trace { trace_limit ≡ 2 ^ 63 - 1 }
{}
