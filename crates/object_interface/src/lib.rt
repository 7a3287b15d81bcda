//! What an object's interface is: the trait that each one implements, what its calls answer, what they mean, and the messages that
//! go out for an answer; and what implementers take to answer and to describe.
#![tactic(auto)]

pub use crate::answer::{DispatchResult2, Done, Signal};
pub use crate::answered::Answered;
pub use crate::arguments::{body_of, path_of, read_arguments};
pub use crate::description::{
    Access, DescribedArgument, DescribedInterface, DescribedMethod, DescribedProperty,
    DescribedSignal, Description, basic_type,
};
pub use crate::errors::{
    fails, invalid_arguments, missing, standard_error, unknown, unknown_interface, unknown_method,
    unknown_object,
};
pub use crate::interface::{Interface, Properties};
pub use crate::items::Items;

mod answer;
mod answered;
mod arguments;
mod boxed;
mod description;
mod errors;
mod interface;
mod items;
