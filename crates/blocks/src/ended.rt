// How a program ends that answers its input to the end.
use crate::left::Left;
use crate::output::Taken;

// No more input comes, and the `Left` says whether it has ended or a read failed; `write` did not take all that was due; or
// the turns are used up, so many.
#[derive(Clone, Copy)]
pub enum Ended {
    Input(Left),
    Output(Taken),
    Turns(u64),
}
