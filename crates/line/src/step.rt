// What an event hands back.
use crate::line::Line;
use event::{Reply, Stored};

// The next line with the reply, and which settings record the event replaced, if any.
#[derive(Clone, Copy)]
pub struct Step {
    pub line: Line,
    pub reply: Reply,
    pub storing: Option<Stored>,
}
