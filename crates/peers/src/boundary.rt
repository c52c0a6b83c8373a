// What the core and its driver name alike: of boundary.rs the id of a peer.
ghost use Rattle.std.specs.Prelude.{◌≡◌};

// The id of a member of the cluster.
#[derive(Clone, Copy)]
pub struct PeerId(pub(crate) u64);

impl PeerId {
    pub fn new(raw: u64) -> Self
        ensures { result.0 ≡ raw }
    {
        Self(raw)
    }

    pub fn get(self) -> u64
        ensures { result ≡ self.0 }
    {
        self.0
    }
}
