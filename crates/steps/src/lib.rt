// A step list: which steps and which lists are legal (23), and the taking of a lent record.
#![tactic(auto)]

mod lane;
mod legal;
mod take;

pub use lane::{Laid, Numbers, STEP_WIDTH, step_at};
pub use legal::check_steps;
pub use take::take_step;
