//! What an event does once no check refused, in a machine in which its class is initialized.

pub(crate) mod accesses;
pub(crate) mod beginning;
pub(crate) mod changes;
