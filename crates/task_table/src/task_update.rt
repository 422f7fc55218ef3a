//! The task that an event changes, before and after the event. The changes of processors are
//! computed from this pair.

use psi_spec::Task;

/// The task whose counts an event changes, before and after the event. Both fields are `None` if
/// the event changes no task.
#[derive(Clone, Copy)]
pub(crate) struct TaskUpdate {
    pub(crate) old: Option<Task>,
    pub(crate) new: Option<Task>,
}
