//! What an audit keeps of a stream of Cucumber Messages, and that judging line by line over it is judging over all lines.
//!
//! The crate gives definitions: what is kept of the lines so far and what a line makes of it (`summary_of_lines`,
//! `summary_after_line`), and what is found in a line by it (`finding`), all in `specs/ByOnePass`. Each public function is a
//! law: its contract says the law, and it does nothing.
//!
//! The contract of a judge of one line, whose state is seen as a `Summary`, cites them:
//!
//! ```text
//! ghost use Rattle.cm_state.specs.ByOnePass.{finding, summary_after_line};
//!
//! fn judge(state: &mut State, envelope: Envelope, settings: Settings) -> Option<Finding>
//!     ensures found { result ≡ finding settings state.old envelope }
//!     ensures kept { result ≡ None → state.new ≡ summary_after_line state.old envelope }
//! ```
//!
//! From a state in which nothing was seen, line after line, it then finds the stream's first fault: by `summaries_step` the
//! state is `summary_of_lines` of those so far, and by `findings_are_faults` what is found in a line is its fault over all of them.
#![tactic(auto)]

mod laws;

pub use laws::{findings_are_faults, judged_is_told, summaries_step};
