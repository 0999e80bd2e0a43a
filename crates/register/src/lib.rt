// Values, what a resource means, and the trait of resources.
#![tactic(auto)]

pub mod bytes;
pub mod path;
pub mod place;
pub mod resource;
pub mod values;
