// Rules in a chip of two rows: the first rule in order answers, and a full chip refuses.
use chips::rows::RowChip;
use codes::joined::JoinedCode;
use codes::span::Span;
use rules::board::Board;
use rules::rule::RuleRow;
use simple::fence::FenceCode;
use simple::plain::PlainCode;
use std::test::Fail;
use ternary::refusal::Refusal;

#[test]
fn first_rule_answers(rt: HostRuntime) -> Result<(), Fail> {
    let mut memory = [None; 2];
    let mut board = Board {
        chip: RowChip::over(&mut memory),
        code: JoinedCode::new(PlainCode::new(16)?, FenceCode::new(4)?),
    };
    let block = Some(Span {
        low: 1024,
        len: 1024,
    });
    let fence = Some(Span { low: 3, len: 2 });
    board.place_rule(
        0,
        &RuleRow {
            number: 7,
            class: 40,
            sides: &[block, None],
        },
    )?;
    board.place_rule(
        1,
        &RuleRow {
            number: 65535,
            class: 65535,
            sides: &[None, fence],
        },
    )?;
    let full = board.place_rule(
        2,
        &RuleRow {
            number: 9,
            class: 9,
            sides: &[None, None],
        },
    );
    assert_eq!(rt; full, Err(Refusal::NoSuchRow { row: 2 }));
    assert_eq!(rt;
        board.class_of(&[2047, 3]),
        Ok(Some((7, 40))),
        "both rules hold it"
    );
    assert_eq!(rt; board.class_of(&[2048, 4]), Ok(Some((65535, 65535))));
    assert_eq!(rt; board.class_of(&[2048, 5]), Ok(None));
    assert_eq!(rt;
        board.class_of(&[2048, 16]),
        Err(Refusal::OutsideField { field: 1 })
    );
    Ok(())
}
