//! Copies of replies.
ghost use Rattle.std.specs.Prelude.{◌≡◌, IfOk};

use ir_meaning::Reply;
use ir_types::OutOfMemory;
use sqlite_items::Items as List;
use std::alloc::Global;

/// The same reply again.
pub(crate) fn copied_reply(alloc: Global, reply: &Reply) -> Result<Reply, OutOfMemory>
    ensures { IfOk result (λ copy. copy ≡ reply.now) }
{
    match reply {
        Reply::Grant(granted) => Ok(Reply::Grant(*granted)),
        Reply::Give { value, writes } => Ok(Reply::Give {
            value: *value,
            writes: List::from_slice(alloc, writes.as_slice())?,
        }),
    }
}
