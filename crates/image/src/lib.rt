// Images: an agent as bytes, and back (docs/IMAGE-FORMAT.md).
#![tactic(auto)]

mod beliefs; // the belief table
mod bytes; // a part of a slice, copied
mod events; // the queue
mod form; // how wide numbers are
mod parts; // library and state, read
mod reader; // an image that is read
pub mod restore; // the agent that an image holds
pub mod save; // the image of an agent
mod stacks; // instances and stacks
mod whole; // contents and bodies together
mod words; // numbers
