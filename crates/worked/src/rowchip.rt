// The row chip on examples: which row answers, what is refused, and what is left of the caller's memory.
use chips::chip::Chip;
use chips::row::Row;
use chips::rows::RowChip;
use std::test::Fail;
use ternary::digit::Digit;
use ternary::refusal::Refusal;
use ternary::word::Word;

// All * but for digit 70.
fn word(digit: Digit) -> Word {
    let mut made = Word::blank();
    made.put(70, digit);
    made
}

#[test]
fn the_lowest_match_answers(rt: HostRuntime) -> Result<(), Fail> {
    let one = word(Digit::One);
    let mut memory = [None; 8];
    let mut chip = RowChip::over(&mut memory);
    chip.write(6, &one, 60)?;
    chip.write(3, &one, 30)?;
    chip.write(1, &word(Digit::Zero), 10)?;
    assert_eq!(rt;
        chip.find(&one),
        Some((3, 30)),
        "row 1 does not match, rows 3 and 6 do"
    );
    Ok(())
}

#[test]
fn an_erased_row_is_never_found(rt: HostRuntime) -> Result<(), Fail> {
    let mut memory = [Some(Row {
        word: Word::blank(),
        tag: 5,
    }); 1];
    let mut chip = RowChip::over(&mut memory);
    chip.erase(0)?;
    assert_eq!(rt;
        chip.find(&Word::blank()),
        None,
        "an empty row matches no key, not even one that is all *"
    );
    Ok(())
}

#[test]
fn words_and_keys_of_stars(rt: HostRuntime) {
    let mut memory = [
        Some(Row {
            word: word(Digit::One),
            tag: 8,
        }),
        Some(Row {
            word: Word::blank(),
            tag: 7,
        }),
    ];
    let chip = RowChip::over(&mut memory);
    assert_eq!(rt;
        chip.find(&word(Digit::Zero)),
        Some((1, 7)),
        "a row that is all * matches every key"
    );
    assert_eq!(rt;
        chip.find(&Word::blank()),
        Some((0, 8)),
        "a key that is all * matches every word"
    );
}

#[test]
fn row_255_is_the_last(rt: HostRuntime) -> Result<(), Fail> {
    let mut memory = [None; 300];
    let mut chip = RowChip::over(&mut memory);
    chip.write(255, &Word::blank(), 7)?;
    assert_eq!(rt; chip.find(&Word::blank()), Some((255, 7)));
    assert_eq!(rt;
        memory[255],
        Some(Row {
            word: Word::blank(),
            tag: 7
        })
    );
    Ok(())
}

#[test]
fn row_256_is_refused(rt: HostRuntime) -> Result<(), Fail> {
    let mut memory = [None; 300];
    memory[256] = Some(Row {
        word: Word::blank(),
        tag: 9,
    });
    let mut chip = RowChip::over(&mut memory);
    assert_eq!(rt; chip.find(&Word::blank()), None, "slot 256 is not a row");
    let Err(refusal) = chip.write(256, &word(Digit::One), 1) else {
        return Err(Fail::new("row 256 is not on the chip"));
    };
    assert_eq!(rt; (refusal.number(), refusal.place()), (1, 256));
    assert_eq!(rt;
        memory[256],
        Some(Row {
            word: Word::blank(),
            tag: 9
        }),
        "behind row 255 the memory is as it was"
    );
    Ok(())
}

#[test]
fn a_chip_over_no_rows(rt: HostRuntime) {
    let mut memory = [None; 0];
    let chip = RowChip::over(&mut memory);
    assert_eq!(rt; (chip.count(), chip.find(&Word::blank())), (0, None));
    assert_eq!(rt; chip.read(0), Err(Refusal::NoSuchRow { row: 0 }));
}

#[test]
fn rows_are_as_the_memory_was_and_a_refusal_leaves_them(rt: HostRuntime) {
    let one = word(Digit::One);
    let mut memory = [None, Some(Row { word: one, tag: 9 })];
    let mut chip = RowChip::over(&mut memory);
    assert_eq!(rt;
        chip.write(2, &Word::blank(), 1),
        Err(Refusal::NoSuchRow { row: 2 })
    );
    assert_eq!(rt;
        (chip.read(0), chip.read(1)),
        (Ok(None), Ok(Some(Row { word: one, tag: 9 })))
    );
    assert_eq!(rt; chip.find(&one), Some((1, 9)));
}
