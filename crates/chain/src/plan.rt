// What a walk asks of every record of its chain, worked out before the first (paper 02, note 3).
//
// A plan is always of its own chain and pattern: the type says so, and no walk asks for it.
ghost use Rattle.std.specs.Prelude.{◌≡◌};
ghost use Rattle.store.specs.Scan.{chain_ok};
ghost use Rattle.std.proofs.Props.{props};
ghost use Rattle.chain.specs.Planned.{resource_of, bound_number, admits_bound, alone, WorkedOut};

use store::{Chain, ResourceId, Triple};
use table::triple::at;

// The pattern and the chain; the chain's resource, 0 for all records; for each position the number that the pattern
// binds there; whether it binds none but the chain's, which is worked out once and has no value beside it.
#[derive(Clone, Copy)]
pub struct Plan {
    pub pattern: Triple,
    pub chain: Chain,
    pub resource: ResourceId,
    pub subject: Option<ResourceId>,
    pub predicate: Option<ResourceId>,
    pub object: Option<ResourceId>,
    pub alone: bool,
    pub ghost planned: { WorkedOut chain pattern resource subject predicate object alone } by { Prim.hlevel props },
}

// A chain's resource, 0 for all records. No Option: the chain, which goes with it everywhere, says which of the two.
pub fn resource_of(chain: Chain, x: Triple) -> ResourceId
    ensures { result.0 ≡ resource_of chain x }
{
    match chain {
        Chain::All => ResourceId(0),
        Chain::By(p) => at(p, x),
    }
}

// A number of a pattern, where it is bound.
fn bound_number(y: ResourceId) -> Option<ResourceId>
    ensures { result ≡ bound_number y }
{
    if y.0 == 0 {
        return None;
    }
    Some(y)
}

// Whether a pattern binds no position but that of y, one of its numbers or 0: exactly then they add up to y.
fn is_alone(x: Triple, y: ResourceId) -> bool
    ensures { result ≡ alone x y.0 }
{
    let sum = x.subject.0 as u64 + x.predicate.0 as u64 + x.object.0 as u64;
    sum == y.0 as u64
}

// Whether z is the number that the pattern binds at its position, if it binds one.
fn admits_bound(bound: Option<ResourceId>, z: ResourceId) -> bool
    ensures { result ≡ admits_bound bound z }
{
    match bound {
        None => true,
        Some(y) => z == y,
    }
}

impl Plan {
    ghost use Rattle.chain.specs.Plans.{agrees_bound, agrees_by};

    // The plan of a walk along a chain.
    pub fn new(chain: Chain, x: Triple) -> Plan
        ensures { (result.chain ≡ chain) × (result.pattern ≡ x) }
    {
        let y = resource_of(chain, x);
        Plan {
            pattern: x,
            chain,
            resource: y,
            subject: bound_number(x.subject),
            predicate: bound_number(x.predicate),
            object: bound_number(x.object),
            alone: is_alone(x, y),
        }
    }

    // Whether t has the pattern's number at each position that it binds.
    #[tactic(auto, unfolding(crate::specs::Plans::agrees_bound))]
    fn agrees_bound(self, t: Triple) -> bool
        ensures { result ≡ agrees_bound self t }
    {
        admits_bound(self.subject, t.subject)
            && admits_bound(self.predicate, t.predicate)
            && admits_bound(self.object, t.object)
    }

    // Whether t, which has the chain's resource at the chain's position, has the pattern's number at each bound
    // position.
    pub fn agrees_by(self, t: Triple) -> bool
        ensures { result ≡ agrees_by self t }
    {
        self.alone || self.agrees_bound(t)
    }

    // Whether a cursor on the plan's pattern may be on its chain, as `pick::chain_ok` tells without a plan: by a bound
    // position, or all records where nothing is bound. The two are no twins: this one reads what the plan has worked
    // out.
    pub fn chain_fits(self) -> bool
        ensures { result ≡ chain_ok self.chain self.pattern }
    {
        let chain = self.chain;
        match chain {
            Chain::All => self.alone,
            Chain::By(_) => self.resource.0 != 0,
        }
    }
}
