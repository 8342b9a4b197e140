//! What a device is asked for a request.

use snmp_walk::{BulkAsk, BulkDialogue, Dialogue, ReadOperation};

/// What a device is asked for a request.
#[derive(Drop)]
pub enum Task {
    /// A GetRequest or a GetNextRequest.
    Read(ReadOperation, Dialogue),
    /// A GetBulkRequest, and by which request the device is asked next.
    Bulk(BulkAsk, BulkDialogue),
    /// A SetRequest.
    Set,
}
