//! What the crew's lines ask of a meter, and what is answered.
#![tactic(auto)]

pub mod kind;
pub mod post;
pub mod reply;
pub mod request;
pub mod session;
pub mod word;
