// A rule list: rules in strictly rising order, no two with one number.
ghost use Rattle.std.specs.Prelude.{◌≡◌, [], MatchOption};
ghost use Rattle.listing.specs.Order.{Ordered, Apart, Unused, Used};
ghost use Rattle.listing.specs.Lists.{Added};

use crate::fault::Cause;
use crate::order::insert_rule;
use crate::rule::Rule;
use std::alloc::Global;

#[derive(Drop)]
pub struct RuleList {
    // a Vec and no map, since `rules` hands out one slice in order
    rules: Vec<Rule>,
    ghost ordered: { Ordered rules.items },
    ghost apart: { Apart rules.items },
}

impl RuleList {
    pub fn new(heap: Global) -> RuleList
        ensures { result.rules.items ≡ [] }
    {
        RuleList {
            rules: Vec::new(heap),
        }
    }

    // Puts a rule at its place in the order. A number that is in use is a fault, and the list stays.
    pub fn add(&mut self, rule: Rule) -> Result<(), Cause>
        ensures { Added self.old.rules.items rule self.new.rules.items result }
    {
        if let Some(line) = line_of(self.rules(), rule.number) {
            return Err(Cause::NumberInUse {
                number: rule.number,
                line,
            });
        }
        Ok(insert_rule(&mut self.rules, rule)?)
    }

    // The rules in their order.
    pub fn rules(&self) -> &[Rule]
        ensures { result.now ≡ self.now.rules.items }
    {
        self.rules.as_slice()
    }
}

// The line of the rule that has this number, where one has it.
pub fn line_of(rules: &[Rule], number: u16) -> Option<u64>
    ensures { MatchOption result (Unused number rules.now) (λ l. Used number l rules.now) }
{
    rules
        .iter()
        .find(|rule| rule.number == number)
        .map(|rule| rule.line)
}
