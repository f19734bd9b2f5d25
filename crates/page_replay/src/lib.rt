// The page replay: pages of one satellite through both collectors. It sees only what they and `layouts` promise.
#![tactic(auto)]

mod page_step;
mod page_time;
pub mod replay;
