// The unit that takes an upload (document 01, "The unit"): what is done with bytes that arrive. With making a unit and the work step, whose
// crates stand below, it is the whole unit, under this one name.
#![tactic(auto)]

mod receiver;

pub use device_rules::{Device, Phase, Received, Transfer};
pub use device_state::make;
pub use device_work::work;
pub use receiver::receive;
