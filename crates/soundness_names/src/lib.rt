// Vmids: drawn on their hosts, and each of one process only.
#![tactic(auto)]

ghost use Rattle.std.specs.Prelude.{◌≡◌, not};
ghost use Rattle.base.specs.Lists.{every};
ghost use Rattle.broker.specs.Names.{processes_of, same_vmid};
ghost use Rattle.protocol.specs.Sound.{distinct, none_shared};
ghost use Rattle.soundness_names.specs.Names.{is_drawn_on, vmids_drawn};

use broker::process::{Status, Vmid};
use broker::state::Broker;

// The host is a host, and the number is drawn on it.
pub fn is_drawn(drawn: [u16; 8], v: Vmid) -> bool
    ensures { result ≡ is_drawn_on drawn v }
{
    v.0 < Broker::HOSTS && (0 < v.1) & (v.1 <= drawn[v.0 as usize])
}

// Every vmid of a status is drawn.
pub fn vmids_drawn(drawn: [u16; 8], status: Status) -> bool
    ensures { result ≡ vmids_drawn drawn status }
{
    match status {
        Status::Unstarted => true,
        Status::Running(v) | Status::Ended(v) => is_drawn(drawn, v),
        Status::Migrating(source, target) => is_drawn(drawn, source) & is_drawn(drawn, target),
    }
}

// No process of a status has the vmid.
pub fn is_free(v: Vmid, status: Status) -> bool
    ensures { result ≡ every (λ w. not (same_vmid v w)) (processes_of status) }
{
    match status {
        Status::Unstarted | Status::Ended(_) => true,
        Status::Running(w) => v != w,
        Status::Migrating(source, target) => (v != source) & (v != target),
    }
}

// No process of the one status shares its vmid with a process of the other.
pub fn share_none(one: Status, other: Status) -> bool
    ensures { result ≡ none_shared (processes_of one) (processes_of other) }
{
    match one {
        Status::Unstarted | Status::Ended(_) => true,
        Status::Running(v) => is_free(v, other),
        Status::Migrating(source, target) => is_free(source, other) & is_free(target, other),
    }
}

// No two processes of a status share a vmid.
pub fn are_distinct(status: Status) -> bool
    ensures { result ≡ distinct (processes_of status) }
{
    match status {
        Status::Migrating(source, target) => source != target,
        _ => true,
    }
}
