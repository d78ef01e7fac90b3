// Lines and what is read of them.
use journal::command::{Command, ReadError, read};
use journal::words::{without_line_feed, words};
use std::test::Fail;

#[test]
fn cuts_at_spaces_alone(rt: HostRuntime) -> Result<(), Fail> {
    let found = words(rt.alloc(), b"  rates\tscale   list ")?;
    assert!(rt; found.len() == 2);
    assert_eq!(rt; found[0], b"rates\tscale".as_slice());
    assert_eq!(rt; found[1], b"list".as_slice());
    Ok(())
}

#[test]
fn tells_the_fault(rt: HostRuntime) -> Result<(), Fail> {
    let lines = [
        ("Rates scale", "unknown command"),
        ("rates", "rates are scale or list"),
        ("rates scale 1", "wrong count of words"),
        ("rates list 1 2x", "word 3 is not a number"),
        (
            "surcharge 1 1234567890123456789",
            "word 2 has more than 18 digits",
        ),
        ("rate 1 2 Call 3 4 5 6", "word 3 is neither call nor put"),
        ("rate 1 2 call 3 4 5", "wrong count of words"),
    ];
    for (line, text) in lines {
        let Err(ReadError::Unreadable(fault)) = read(rt.alloc(), line.as_bytes()) else {
            return Err(Fail::new("it was read"));
        };
        assert_eq!(rt; fault.to_string(rt.alloc())?.as_str(), text, "{}", line);
    }
    Ok(())
}

#[test]
fn drops_one_line_feed(rt: HostRuntime) {
    assert_eq!(rt;
        without_line_feed(b"rates scale\n"),
        b"rates scale".as_slice()
    );
    assert_eq!(rt;
        without_line_feed(b"rates scale"),
        b"rates scale".as_slice()
    );
    assert_eq!(rt; without_line_feed(b"\n\n"), b"\n".as_slice());
    assert_eq!(rt; without_line_feed(b""), b"".as_slice());
}

#[test]
fn skips(rt: HostRuntime) {
    for line in ["", "   ", "# rates scale", "#"] {
        assert!(rt;
            matches!(read(rt.alloc(), line.as_bytes()), Ok(None)),
            "{}",
            line
        );
    }
}

#[test]
fn reads_commands(rt: HostRuntime) -> Result<(), Fail> {
    let Ok(Some(Command::RatesList(amounts))) = read(
        rt.alloc(),
        b"rates list 007 000000000000000010",
    ) else {
        return Err(Fail::new("no list"));
    };
    assert_eq!(rt; amounts.as_slice(), [7, 10].as_slice());
    let Ok(Some(Command::Surcharge(percentages))) = read(rt.alloc(), b"surcharge 5 0 9") else {
        return Err(Fail::new("no surcharge"));
    };
    assert_eq!(rt;
        percentages,
        [5, 0, 9, 0, 0, 0, 0, 0, 0, 0, 0, 0, 0, 0, 0, 0]
    );
    let Ok(Some(Command::Rate(quote))) = read(rt.alloc(), b"rate 1 2 put 3 4 5 100") else {
        return Err(Fail::new("no rate"));
    };
    assert_eq!(rt; (quote.row, quote.strike, quote.lot), (1, 3, 100));
    Ok(())
}
