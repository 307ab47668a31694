//! Following a trace while it comes in, and running a whole one.
//!
//! specs/Follow has the text that `follow` writes, every prefix of the trace computed anew; specs/Followers what a
//! follower stands for between two pieces of a trace and how taking a piece ends; specs/Sessions how a session over
//! a whole trace ends, what it wrote and what it left; specs/Replay what is shown after announcements were read
//! back; specs/Costs what lines may cost in evaluated expressions, and specs/Drill the made trace of a drill and
//! what is counted over it. `follower` has the follower, which takes pieces of any sizes: `reader` cuts and counts the lines that they
//! end, up to the next one with an event for the plan, `reading` judges a line, and `entering` makes its event, enters
//! it and announces the changes. `session` reads a picked file to its end, in
//! pieces (`pieces`), and has each handled before the next one; `following` announces each line then, and
//! `inferring` writes once all is read. `making` makes the lines of a drill, and `drilling` enters and counts them.
//! `fault` says how each ends early. Below stand nf_io, nf_line, nf_model and
//! nf_announce; above stands the program.
#![tactic(auto)]

mod drilling;
mod entering;
mod fault;
mod follower;
mod following;
mod inferring;
mod laws;
mod making;
mod pieces;
mod reader;
mod reading;
mod replay_laws;
mod session;

pub use drilling::{Summary, drill};
pub use fault::{FollowEnd, SessionEnd};
pub use follower::Follow;
pub use following::follow;
pub use inferring::infer;
pub use laws::{follow_text_is_one_change_after_another, pieces_have_a_limit};
pub use pieces::{PIECE_LIMIT, new_buffer};
pub use replay_laws::replay_is_what_is_shown;
