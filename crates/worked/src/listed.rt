// Numbers, sides and the list on examples. Lines of every kind are in the program's own input.
use codes::span::Span;
use listing::list::RuleList;
use listing::number::number;
use listing::rule::Rule;
use listing::side::span_between;
use std::alloc::Global;

#[test]
fn numbers_are_digits_up_to_65535(rt: HostRuntime) {
    assert_eq!(rt; number("0065535"), Some(65535));
    assert_eq!(rt; number("65536"), None);
    assert_eq!(rt; number("+5"), None);
    assert_eq!(rt; number(""), None);
}

#[test]
fn a_range_may_run_past_the_highest_value(rt: HostRuntime) {
    assert_eq!(rt; span_between(2, 5, 15), Some(Span { low: 2, len: 4 }));
    assert_eq!(rt; span_between(14, 1, 15), Some(Span { low: 14, len: 4 }));
    assert_eq!(rt; span_between(14, 16, 15), None);
}

fn rule(heap: Global, number: u16, rank: u16, line: u64) -> Rule {
    Rule {
        number,
        rank,
        class: 0,
        sides: Vec::new(heap),
        line,
    }
}

#[test]
fn rules_stand_by_rank_and_then_by_number(rt: HostRuntime) {
    let heap = rt.alloc();
    let mut list = RuleList::new(heap);
    for (line, (number, rank)) in (1..).zip([(4, 9), (5, 1), (3, 9)]) {
        assert!(rt; list.add(rule(heap, number, rank, line)).is_ok());
    }
    assert!(rt;
        list.add(rule(heap, 5, 0, 4)).is_err(),
        "number 5 is in use"
    );
    let last = list.rules().last().map(|rule| rule.line);
    assert_eq!(rt; last, Some(1), "rank 9 and the higher number");
}
