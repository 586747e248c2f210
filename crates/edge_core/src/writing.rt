//! Writes all bytes to a sink.

ghost use Rattle.std.specs.Prelude.{◌<◌, ◌≤◌, take, length, IfErr, OnOk, OnErr};
ghost use Rattle.edge_core.specs.Faults.{HasRisen};
ghost use Rattle.edge_core.specs.Sink.{Takes, Writes};

use crate::input::Failed;
use crate::output::Sink;

/// A write failed after the first `sent` bytes were taken.
#[derive(Clone, Copy, Debug, PartialEq, Eq)]
pub struct WriteFault {
    /// How many bytes were taken.
    pub sent: usize,
}

/// Writes all of `bytes`, in as many writes as the sink needs. It takes no memory.
///
/// After a fault the rest, `&bytes[sent..]`, can be written in another call.
pub fn write_all<K: Sink>(sink: &mut K, bytes: &[u8]) -> Result<(), WriteFault>
    // The bytes, where the sink tells them.
    ensures all_taken { OnOk result
        (Takes K.may_fall_silent (K.taken sink.old) (K.taken sink.new) bytes.now) }
    ensures sent_taken { IfErr result (λ fault.
        Takes K.may_fall_silent (K.taken sink.old) (K.taken sink.new) (take fault.sent bytes.now)) }
    ensures sent_within { IfErr result (λ fault. fault.sent < length bytes.now) }

    // The faults.
    ensures fault { OnErr result (HasRisen (K.faults sink.old) (K.faults sink.new)) }
    ensures never_falls { K.faults sink.old ≤ K.faults sink.new }

    // Each write was handed all bytes not yet taken.
    ensures writes { OnOk result
        (Writes K.write_gives bytes.now sink.old (length bytes.now) sink.new) }
    ensures writes_sent { IfErr result (λ fault.
        Writes K.write_gives bytes.now sink.old fault.sent sink.new) }
{
    let mut sent = 0;
    while sent < bytes.len() {
        match sink.write(&bytes[sent..]) {
            Ok(count) => sent += count,
            Err(Failed) => return Err(WriteFault { sent }),
        }
    }
    Ok(())
}
