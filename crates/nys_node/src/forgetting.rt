//! What a node forgets: all entries of a host that isn't live at it, and of one that is, once its log has
//! reached the base of the epoch, those below the base.

ghost use Rattle.std.specs.Prelude.{◌≡◌, ◌<◌, ℕ, Bool, List, length};
ghost use Rattle.nys_bytes.specs.declared.content.Content.{Content};
ghost use Rattle.nys_hosts.specs.Sets.{has};
ghost use Rattle.nys_hosts.specs.declared.limits.TheConstants.{MAX_HOSTS};
ghost use Rattle.nys_node.specs.Entering.{AreReplicas};
ghost use Rattle.nys_node.specs.Means.{IsReplicaOf, Means};
ghost use Rattle.nys_replica.specs.Stands.{entry_count, kept_from};
ghost use Rattle.nys_rules.specs.Logging.{forgetting};
ghost use Rattle.nys_rules.specs.Scope.{Scope};
ghost use Rattle.nys_rules.specs.View.{kept_at, View};
ghost use Rattle.nys_sending.specs.Tables.{IsTable};
ghost use Rattle.nys_source.specs.Rules.{Rules};
ghost use Rattle.nys_source.specs.Tables.{put};

use crate::node::Node;
use nys_hosts::{HostSet, MAX_HOSTS};
use nys_replica::Replica;
use nys_source::Protocol;

/// The slot from which on the entries of a log are needed, where the host is live or not.
fn kept_at<P: Protocol>(replica: &Replica<P>, live: bool, base: u32) -> u32
    ensures { result ≡ kept_at live base (kept_from replica.now) (entry_count replica.now) }
{
    let long = replica.len();
    let from = replica.kept_from();
    if !live {
        return long;
    }
    if base <= long { base.max(from) } else { from }
}

/// The replica that is there forgets the entries that are needed no more.
fn forget_in<P: Protocol>(place: &mut Option<Replica<P>>, live: bool, base: u32)
    ensures { (rules : Rules P.State) (h : ℕ) (log : List Content) (kept : ℕ) (known : Bool)
        → IsReplicaOf rules h place.old log kept known
        → IsReplicaOf rules h place.new log (kept_at live base kept (length log)) known }
{
    if let Some(replica) = place {
        let slot = kept_at(replica, live, base);
        replica.forget(slot);
    }
}

/// The same at the place of a host, if it has one.
fn forget_at<P: Protocol>(replicas: &mut Vec<Option<Replica<P>>>, h: u32, live: bool, base: u32)
    ensures { (rules : Rules P.State) (logs : ℕ → List Content) (kept : ℕ → ℕ) (known : ℕ → Bool)
        → AreReplicas rules replicas.old.items logs kept known
        → AreReplicas rules replicas.new.items logs
        (put kept h (kept_at live base (kept h) (length (logs h)))) known }
{
    if let Some(place) = replicas.get_mut(h as usize) {
        forget_in(place, live, base);
    }
}

/// The same of each host, where these are live and an epoch has these bases.
pub(crate) fn forget_all<P: Protocol>(
    replicas: &mut Vec<Option<Replica<P>>>,
    live: &HostSet,
    base: [u32; MAX_HOSTS],
)
    ensures { (rules : Rules P.State) (logs : ℕ → List Content) (kept : ℕ → ℕ) (known : ℕ → Bool)
        (bases : ℕ → ℕ) → IsTable base bases → AreReplicas rules replicas.old.items logs kept known
        → AreReplicas rules replicas.new.items logs
        (λ h. kept_at (has live.now h) (bases h) (kept h) (length (logs h))) known }
{
    for h in 0..MAX_HOSTS as u32 {
        forget_at(replicas, h, live.contains(h), base[h as usize]);
    }
}

impl<P: Protocol> Node<P> {
    /// The node keeps no entry of a live host's log below the base, once the log has reached it.
    pub(crate) fn forget_entries(&mut self, h: u32)
        requires host { h < MAX_HOSTS }
        requires rows { length self.old.replicas.items ≡ MAX_HOSTS }
        ensures { (scope : Scope P.State) (v : View) → Means scope self.old v
            → Means scope self.new (forgetting h v) }
    {
        let base = self.base[h as usize];
        forget_in(&mut self.replicas[h as usize], true, base);
    }
}
