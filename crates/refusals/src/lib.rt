// What every refusal tells: its number, one carried number, and the layer that found it.
#![tactic(auto)]

mod ground;
mod layer;
mod refusal;

pub use ground::Ground;
pub use layer::Layer;
pub use refusal::Refusal;
