//! The objects of a service: their tree, and the interfaces that stand in it.
#![tactic(auto)]

pub use crate::laws::a_number_has_room_once_an_answer_had_it;
pub use crate::lent::InterfaceDerefMut;
pub use crate::notifying::ResponseDispatchNotifier;
pub use crate::reference::{InterfaceDeref, InterfaceRef};
pub use crate::server::{Adding, ObjectServer, Removed};
pub use object_interface::{
    Access, Answered, DescribedArgument, DescribedMethod, DescribedProperty, DescribedSignal,
    Description, DispatchResult2, Done, Interface, Items, Properties, Signal,
};
pub use object_signals::{Emits, ManagerSignal, OwnedSignalEmitter, SignalEmitter, fdo};
pub use object_standard::{ManagedInterface, ManagedObject, StandardMethod};
pub use object_tree::{ObjectAt, Removal, StandardInterface, Tree};

mod announcing;
mod calling;
mod dispatch;
mod laws;
mod lent;
mod notifying;
mod properties;
mod reference;
mod server;
mod standard;
mod target;
mod telling;
