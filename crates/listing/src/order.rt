// The order of rules: lower rank first, and of one rank the lower number.
ghost use Rattle.std.specs.Prelude.{◌≡◌, ◌≤◌, length, MatchResult};
ghost use Rattle.listing.specs.Order.{before, Place, Joined, Stays, Ordered, Apart};

use crate::rule::Rule;
use std::alloc::AllocFailed;

// No `Ord` of rules: it and `==` would have to tell the same rules apart, and rules of one rank and number may differ
// in the rest. Two comparisons and not one of pairs, by which 3,000 rules that come in order took 1.6 times the
// instructions to add.
pub fn comes_before(a: &Rule, b: &Rule) -> bool
    ensures { result ≡ before a.now b.now }
{
    if a.rank == b.rank {
        a.number < b.number
    } else {
        a.rank < b.rank
    }
}

// How many rules at the front come before this one. No `partition_point`: that would choose another place in a list that
// is not in order, and `insert_rule` takes any list.
fn place_of(rules: &[Rule], rule: &Rule) -> usize
    ensures first { Place rules.now rule.now result }
    ensures within { result ≤ length rules.now }
{
    rules
        .iter()
        .position(|other| !comes_before(other, rule))
        .unwrap_or(rules.len())
}

// Puts a rule at its place. A list in strictly rising order stays so if it has no rule of that number.
#[tactic(auto, using(crate::proofs::Insert::ordered_after, crate::proofs::Insert::apart_after))]
pub fn insert_rule(rules: &mut Vec<Rule>, rule: Rule) -> Result<(), AllocFailed<Rule>>
    ensures cases { MatchResult result (λ _. Joined rules.old.items rule rules.new.items) (λ _. rules.new.items ≡ rules.old.items) }
    ensures ordered { Stays Ordered rules.old.items rule rules.new.items }
    ensures apart { Stays Apart rules.old.items rule rules.new.items }
{
    let place = place_of(rules, &rule);
    rules.insert(place, rule)
}
