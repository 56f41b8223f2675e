// The one record in which every layer refuses: which rule was broken, who saw it, and where.
#![tactic(auto)]

mod fault;
mod layer;
mod rule;

pub use fault::Fault;
pub use layer::Layer;
pub use rule::Rule;
