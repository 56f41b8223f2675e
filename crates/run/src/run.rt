// A run's state: a supply, an order, and the dispatcher over them.
use crate::dispatcher::Dispatcher;
use order::Order;
use supply::Supply;

pub mod call;
pub mod reply;

#[derive(Drop)]
pub struct Run<S: Supply, O: Order> {
    supply: S,
    order: O,
    dispatcher: Dispatcher,
}
