//! How many makers decide.

ghost use Rattle.std.specs.Prelude.{◌≡◌, ◌≤◌};
ghost use Rattle.nys_hosts.specs.declared.limits.TheConstants.{MAX_HOSTS, MAX_T};
ghost use Rattle.nys_hosts.specs.Counts.{quorum_of};

/// How many of `n` guards make a quorum, where at most `t` of them lie.
pub fn quorum(n: u32, t: u32) -> u32
    requires guards { n ≤ MAX_HOSTS }
    requires liars { t ≤ MAX_T }
    ensures { result ≡ quorum_of n t }
{
    (n + t) / 2 + 1
}
