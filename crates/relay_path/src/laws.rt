//! Laws of hops and of paths, stated as contracts of functions that do nothing.

ghost use Rattle.std.specs.Prelude.{◌≡◌, ◌⊎◌, ◌<◌, ℕ, List, All};
ghost use Rattle.frame_link.specs.Relay.{Said};
ghost use Rattle.relay_path.specs.declared.answer.Target.{Target};
ghost use Rattle.relay_path.specs.Domains.{DomainKnows};
ghost use Rattle.relay_path.specs.Hopping.{IsHop};
ghost use Rattle.relay_path.specs.Opening.{hopped};
ghost use Rattle.relay_path.specs.Paths.{HasOnePath, HasPath, IsPath, IsRoute, IsStopped};
ghost use Rattle.relay_path.specs.Paths.{LastOpens, Stops};

/// Of the cases of a hop one holds of any bytes, and no other.
pub fn one_hop_holds()
    ensures some { (d : DomainKnows) (target : Target) (bytes : List ℕ) → All (λ b. b < 256) bytes
        → IsHop d target bytes (hopped d target bytes) }
    ensures alone { (d : DomainKnows) (target : Target) (bytes : List ℕ) (said : Said)
        → All (λ b. b < 256) bytes → IsHop d target bytes said → said ≡ hopped d target bytes }
{}

/// A route of some domains leads to the node, or stops: one of both, and in one way.
pub fn paths_are_done()
    ensures some { (ds : List DomainKnows) (route bytes : List ℕ) (node : ℕ)
        → IsRoute ds route bytes → HasPath ds route node bytes ⊎ Stops ds route node bytes }
    ensures apart { (ds : List DomainKnows) (route bytes : List ℕ) (node hop code : ℕ)
        (forms : List (List ℕ)) → IsRoute ds route bytes → IsPath ds route node bytes forms
        → ¬ IsStopped ds route node bytes hop code }
    ensures one_path { (ds : List DomainKnows) (route bytes : List ℕ) (node : ℕ)
        → IsRoute ds route bytes → HasOnePath ds route node bytes }
    ensures one_stop { (ds : List DomainKnows) (route bytes : List ℕ) (node hop code h c : ℕ)
        → IsRoute ds route bytes → IsStopped ds route node bytes hop code
        → IsStopped ds route node bytes h c → (hop ≡ h) × (code ≡ c) }
{}

/// The last form of a path opens under the node's key to the body that the issuer sealed.
pub fn the_last_form_opens()
    ensures { (ds : List DomainKnows) (route bytes : List ℕ) (node : ℕ) (forms : List (List ℕ))
        → (path : IsPath ds route node bytes forms) → LastOpens ds route node forms path.c }
{}
