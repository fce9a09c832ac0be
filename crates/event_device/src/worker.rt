//! What a thread promises of a port that it is lent.

use event_ports::Port;
use std::snapshot::Snapshot;
use std::thread::Promise;

/// The promise of a thread that is lent a port: the port that it gives back is that one.
#[derive(Drop)]
pub struct ComesBack {
    pub lent: Snapshot<Port>,
}

impl Promise<Port> for ComesBack {
    ghost use Rattle.std.specs.Prelude.{◌≡◌};
    ghost use Rattle.event_device.specs.Device.{site_of};

    ghost kept_by = { λ p r. site_of r ≡ site_of p.lent.value };
}
