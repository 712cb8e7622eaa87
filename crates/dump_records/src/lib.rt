//! The records of heap dumps of Java virtual machines, in the HPROF format of version 1.0.1 or 1.0.2.
//!
//! A [`Dump`] is read once, from its beginning to its end. Each record of its heap goes to a [`RecordVisitor`], which reads or
//! skips the body.
//!
//! **Proved**, for all inputs: at Ok a reading is at the end of the dump; an input error comes only where a device has failed; no
//! call indexes out of range, overflows or runs forever. **Only tested**: which records are read. See the README.
#![tactic(auto)]

mod dump;
mod error;

pub use dump::Dump;
pub use dump::contents::Contents;
pub use dump::field_type::{FieldType, IdSize};
pub use dump::record::{Elements, ObjectKind, ObjectRecord, Record};
pub use dump::record_visitor::RecordVisitor;
pub use dump::root_place::RootPlace;
pub use dump::window::Window;
pub use error::{ImportError, Problem};
