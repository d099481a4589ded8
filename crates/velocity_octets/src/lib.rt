// A velocity's record in the octets of a message of a kind, and stored as octets: document 01, "Octet layouts".
#![tactic(auto)]

mod message;
mod record;

pub use message::store_velocity;
pub use record::velocity;
