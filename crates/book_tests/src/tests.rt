// Slips that are not the book's of today are denied by 1, and a denied change of stage hands its slip back.
use book::ledger::Book;
use book::slips::Denied;
use denials::book::BookFault;
use std::process::Abort;
use std::test::Fail;
use terms::OptionType;
use terms::denial::{Denial, Place};
use terms::holdings::Class;

/// Passes where the call was denied by 1, without a place.
fn stale<T: Drop>(rt: &impl Abort, answer: Result<T, BookFault>) -> Result<(), Fail> {
    let Err(fault) = answer else {
        return Err(Fail::new("a stale slip was let through"));
    };
    assert_eq!(rt; fault.number(), 1);
    assert_eq!(rt; fault.place(), Place::Nowhere);
    Ok(())
}

fn accepted<T>(answer: Result<T, BookFault>) -> Result<T, Fail> {
    answer.map_err(|_| Fail::new("a lawful call was denied"))
}

#[test]
fn a_slip_of_another_book_or_day_is_denied(rt: HostRuntime) -> Result<(), Fail> {
    let mut book = Book::new();
    let mut other = Book::new();
    let slip = accepted(book.open(7, 10))?;
    let of_another_book = accepted(other.open(8, 10))?;
    stale(
        &rt,
        book.list_security(&of_another_book, Class::ListB, 100, 1000),
    )?;
    let listed = accepted(book.list_security(&slip, Class::ListB, 100, 1000))?;
    assert_eq!(rt; listed.row, 0);
    stale(
        &rt,
        other.list_series(&slip, 0, OptionType::Call, 1000, 20, 5),
    )?;
    stale(&rt, other.list_term(&slip, 0, 1000, 20, 5))?;
    let of_another_day = accepted(other.open(7, 11))?;
    stale(&rt, book.trade(&of_another_day, 0, 1))?;
    stale(&rt, book.quote_price(&of_another_day, 0, 1))?;
    stale(&rt, book.quote_premium(&of_another_day, 0, 1))?;
    // 1 comes before 2 and 3
    stale(&rt, book.trade(&of_another_day, 99, 0))?;
    assert_eq!(rt; accepted(book.trade(&slip, 0, 1))?, 0);
    Ok(())
}

#[test]
fn a_slip_of_another_stage_is_handed_back(rt: HostRuntime) -> Result<(), Fail> {
    let mut book = Book::new();
    let early = accepted(book.open(7, 10))?;
    let slip = accepted(book.open(7, 10))?;
    let Ok(valuing) = book.end_session(slip) else {
        return Err(Fail::new("the session did not end"));
    };
    // the first slip has the book's number and day, and the book is in valuing
    stale(&rt, book.trade(&early, 0, 1))?;
    let Err(Denied { slip: early, fault }) = book.end_session(early) else {
        return Err(Fail::new("a session ended twice"));
    };
    assert_eq!(rt; fault.number(), 1);
    let Err(
        Denied {
            slip: valuing,
            fault,
        },
    ) = book.next_day(valuing, 10)
    else {
        return Err(Fail::new("the day came again"));
    };
    assert_eq!(rt; fault.number(), 2);
    assert_eq!(rt; fault.place(), Place::Number(0));
    let Ok(next) = book.next_day(valuing, 11) else {
        return Err(Fail::new("the next day did not come"));
    };
    stale(&rt, book.list_security(&early, Class::Other, 1, 1))?;
    let listed = accepted(book.list_security(&next, Class::Other, 1, 1))?;
    assert_eq!(rt; listed.security, 0);
    Ok(())
}

#[test]
fn a_book_that_was_never_opened_takes_no_slip(rt: HostRuntime) -> Result<(), Fail> {
    let mut book = Book::new();
    let mut other = Book::new();
    let slip = accepted(other.open(0, 1))?;
    stale(&rt, book.list_security(&slip, Class::ListA, 1, 1))?;
    let Err(Denied { slip: _, fault }) = book.end_session(slip) else {
        return Err(Fail::new("a book that was never opened ended its session"));
    };
    assert_eq!(rt; fault.number(), 1);
    Ok(())
}
