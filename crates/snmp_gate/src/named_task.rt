//! What a device can be asked.

ghost use Rattle.snmp_gate.specs.Named.{TaskNamed, TaskNamed-prop};

use crate::task::Task;

/// What a device is asked for a request, by names that can be spelled as OBJECT IDENTIFIERs.
#[derive(Drop)]
pub struct NamedTask {
    pub task: Task,
    pub ghost named: { TaskNamed task } by { TaskNamed-prop task },
}
