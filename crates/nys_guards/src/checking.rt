//! Whether a guard graph is good.

ghost use Rattle.std.specs.Prelude.{◌≡◌, ℕ, ◌<◌, ◌≤◌, ◌↔◌, IfOk, IfErr, IsOk, None};
ghost use Rattle.nys_hosts.specs.declared.limits.TheConstants.{MAX_HOSTS};
ghost use Rattle.nys_graph.specs.Links.{linked_in};
ghost use Rattle.nys_guards.specs.Good.{guards_in, threshold_in, AreThresholds, IsGood, shared_guards};
ghost use Rattle.nys_guards.specs.Faults.{fault_of_host, fault_of_link, IsFirstFault, IsFirstOfHosts, IsFirstOfLinks, IsFirstOfLinksFrom};

use crate::fault::GuardFault;
use crate::table::GuardGraph;
use nys_graph::Graph;

impl GuardGraph {
    /// Whether the guards are good for the graph. The first fault is answered: hosts rising, for each
    /// `NotOwn`, `TooFew`, `CreditTooSmall`; then links by their lower and then their higher host.
    pub fn check(&self, graph: &Graph) -> Result<(), GuardFault>
        requires { AreThresholds self.now.t }
        ensures good { IsOk result ↔ IsGood graph.now.hosts (linked_in graph.now.rows)
            (threshold_in self.now.t) self.now.credit (guards_in self.now.guards) }
        ensures fault { IfErr result (IsFirstFault graph.now.hosts (linked_in graph.now.rows)
            (threshold_in self.now.t) self.now.credit
            (guards_in self.now.guards)) }
    {
        self.check_hosts(graph)?;
        self.check_links(graph)
    }

    /// The first fault of a host, if any has one.
    fn check_hosts(&self, graph: &Graph) -> Result<(), GuardFault>
        requires { AreThresholds self.now.t }
        ensures clean { IfOk result (λ _. (h : ℕ) → h < graph.now.hosts
            → fault_of_host (linked_in graph.now.rows) (threshold_in self.now.t) self.now.credit
            (guards_in self.now.guards) h ≡ None) }
        ensures fault { IfErr result (IsFirstOfHosts graph.now.hosts (linked_in graph.now.rows)
            (threshold_in self.now.t)
            self.now.credit (guards_in self.now.guards)) }
    {
        for h in 0..graph.hosts() {
            if let Some(fault) = self.host_fault(graph, h) {
                return Err(fault);
            }
        }
        Ok(())
    }

    /// The first fault of a link, if any has one.
    fn check_links(&self, graph: &Graph) -> Result<(), GuardFault>
        requires { AreThresholds self.now.t }
        ensures clean { IfOk result (λ _. (p h : ℕ) → p < h → h < graph.now.hosts
            → fault_of_link (linked_in graph.now.rows) (threshold_in self.now.t)
            (guards_in self.now.guards) p h ≡ None) }
        ensures fault { IfErr result (IsFirstOfLinks graph.now.hosts (linked_in graph.now.rows)
            (threshold_in self.now.t)
            (guards_in self.now.guards)) }
    {
        for p in 0..graph.hosts() {
            self.check_links_from(graph, p)?;
        }
        Ok(())
    }

    /// The first fault of a link to a higher host, if any has one.
    fn check_links_from(&self, graph: &Graph, p: u32) -> Result<(), GuardFault>
        requires t { AreThresholds self.now.t }
        requires host { p < graph.now.hosts }
        ensures clean { IfOk result (λ _. (h : ℕ) → p < h → h < graph.now.hosts
            → fault_of_link (linked_in graph.now.rows) (threshold_in self.now.t)
            (guards_in self.now.guards) p h ≡ None) }
        ensures fault { IfErr result (IsFirstOfLinksFrom graph.now.hosts (linked_in graph.now.rows)
            (threshold_in self.now.t)
            (guards_in self.now.guards) p) }
    {
        for h in p + 1..graph.hosts() {
            if let Some(fault) = self.link_fault(graph, p, h) {
                return Err(fault);
            }
        }
        Ok(())
    }

    /// What is wrong with the guards of a host.
    #[tactic(auto, unfolding(crate::specs::Good::guards_in))]
    fn host_fault(&self, graph: &Graph, h: u32) -> Option<GuardFault>
        requires t { AreThresholds self.now.t }
        requires host { h < graph.now.hosts }
        ensures { result ≡ fault_of_host (linked_in graph.now.rows)
            (threshold_in self.now.t) self.now.credit (guards_in self.now.guards) h }
    {
        let guards = self.guards[h as usize];
        let (have, need) = (guards.count(), 3 * self.threshold(h) + 1);
        let degree = graph.degree(h);
        if !guards.contains(h) {
            Some(GuardFault::NotOwn(h))
        } else if have < need {
            Some(GuardFault::TooFew(h, have, need))
        } else if self.credit < degree {
            Some(GuardFault::CreditTooSmall(h, self.credit, degree))
        } else {
            None
        }
    }

    /// What is wrong with the guards that two linked hosts share.
    #[tactic(auto, unfolding(crate::specs::Good::guards_in))]
    fn link_fault(&self, graph: &Graph, p: u32, h: u32) -> Option<GuardFault>
        requires t { AreThresholds self.now.t }
        requires first { p < graph.now.hosts }
        requires second { h < graph.now.hosts }
        ensures { result ≡ fault_of_link (linked_in graph.now.rows) (threshold_in self.now.t)
            (guards_in self.now.guards) p h }
    {
        let have = self.shared(p, h);
        let need = 2 * self.threshold(p).max(self.threshold(h)) + 1;
        if graph.linked(p, h) && have < need {
            Some(GuardFault::ShareTooFew(p, h, have, need))
        } else {
            None
        }
    }

    /// How many guards two hosts share.
    #[tactic(auto, unfolding(crate::specs::Good::guards_in))]
    fn shared(&self, p: u32, h: u32) -> u32
        requires first { p < MAX_HOSTS }
        requires second { h < MAX_HOSTS }
        ensures { result ≡ shared_guards (guards_in self.now.guards) p h }
    {
        let (of_p, of_h) = (self.guards[p as usize], self.guards[h as usize]);
        of_p.meet(&of_h).count()
    }
}
