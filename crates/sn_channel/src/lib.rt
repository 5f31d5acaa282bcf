// A channel: numbers that one speaker says and one listener hears, over one atomic word.
//
// - `view`: what the seats of a channel's table know, and the rule over the word and all views
// - `plays`: what each step on the word tells, and how views are noted and joined
// - `channel`: the channel, and how it is opened
// - `speaker`: the end that says numbers
// - `listener`: the end that hears the word, and meets the speaker
#![tactic(auto)]

mod channel;
mod listener;
mod plays;
mod speaker;
mod view;

pub use channel::Channel;
pub use listener::Listener;
pub use speaker::Speaker;
