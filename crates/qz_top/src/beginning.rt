//! How a script begins.
ghost use Rattle.std.specs.Prelude.{◌≡◌, ◌∷◌, [], IfOk, IfErr};
ghost use Rattle.std.specs.declared.snapshot.Snapshot.{Snapshot};
ghost use Rattle.qz_cluster.specs.declared.clusters.Cluster.{Cluster};
ghost use Rattle.qz_cluster.specs.View.{view as cluster_view};
ghost use Rattle.qz_top.specs.Calls.{begun};
ghost use Rattle.qz_top.specs.Seen.{view};

use crate::runs::Run;
use qz_cluster::Cluster;
use qz_disk::Disk;
use std::alloc::Global;
use std::snapshot::Snapshot;

impl<D: Disk> Run<D> {
    /// A script that begins at this cluster. The cluster comes back where there is no memory.
    pub(crate) fn begin(
        alloc: Global,
        cluster: Cluster<D>,
        is_own: bool,
    ) -> Result<Run<D>, Cluster<D>>
        ensures ok { IfOk result (λ run. (view run ≡ begun is_own (cluster_view cluster)) × (run.cluster ≡ cluster)) }
        ensures began { IfOk result (λ run. run.begun.value ≡ cluster) }
        ensures shown { IfOk result (λ run. (first : Snapshot (Cluster D D.Disk)) × (run.trail.items ≡ first ∷ []) × (first.value ≡ cluster)) }
        ensures err { IfErr result (λ c. c ≡ cluster) }
    {
        let mut trail = Vec::new(alloc);
        if trail.reserve(1).is_err() {
            return Err(cluster);
        }
        trail.push_reserved(Snapshot::of(&cluster));
        let begun = Snapshot::of(&cluster);
        Ok(Run {
            alloc,
            cluster,
            trail,
            begun,
            is_own,
        })
    }
}
