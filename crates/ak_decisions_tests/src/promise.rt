use crate::build::{ballot, process, version};
use ak_promise::{Answer, Promise};
use std::alloc::Global;
use std::test::Fail;

// What happens to a promise, and what is answered: a ballot is its term and a letter, a version so many entries of a.
#[derive(Clone, Copy)]
enum Turn {
    Ask(u32, u8, bool, Answer),
    Release(u32, u8, u32, bool),
}

// Whether the turn is answered so.
fn is_answered(alloc: Global, promise: &mut Promise, turn: Turn) -> Result<bool, Fail> {
    match turn {
        Turn::Ask(term, letter, finished, answer) => {
            let ballot = ballot(alloc, term, letter)?;
            Ok(promise.ask(ballot, finished) == answer)
        }
        Turn::Release(term, letter, count, released) => {
            let ballot = ballot(alloc, term, letter)?;
            let version = version(alloc, count)?;
            Ok(promise.release(alloc, &ballot, &version)? == released)
        }
    }
}

// Whether the last ballot is this one, of this term and letter.
fn is_last(alloc: Global, promise: &Promise, term: u32, letter: u8) -> Result<bool, Fail> {
    let wanted = ballot(alloc, term, letter)?.copy(alloc)?;
    match promise.last() {
        Some(last) => Ok(last.compare(&wanted).is_eq()),
        None => Ok(false),
    }
}

#[test]
fn a_promise_binds_until_it_is_released(rt: HostRuntime) -> Result<(), Fail> {
    let mut promise = Promise::none(rt.alloc());
    assert!(rt; promise.last().is_none() && !promise.released());
    let a = process(rt.alloc(), b'a')?;
    for (turn, term, letter, released, floor) in [
        (Turn::Release(1, b'b', 9, false), 0, 0, false, 0),
        (
            Turn::Ask(1, b'b', false, Answer::Granted),
            1,
            b'b',
            false,
            0,
        ),
        (
            Turn::Ask(1, b'b', false, Answer::Granted),
            1,
            b'b',
            false,
            0,
        ),
        (Turn::Ask(1, b'a', true, Answer::Old), 1, b'b', false, 0),
        (Turn::Ask(1, b'c', false, Answer::Busy), 1, b'b', false, 0),
        (
            Turn::Ask(2, b'b', false, Answer::Granted),
            2,
            b'b',
            false,
            0,
        ),
        (Turn::Release(1, b'b', 9, false), 2, b'b', false, 0),
        (Turn::Release(2, b'b', 4, true), 2, b'b', true, 4),
        (Turn::Ask(2, b'b', true, Answer::Old), 2, b'b', true, 4),
        (
            Turn::Ask(2, b'c', false, Answer::Granted),
            2,
            b'c',
            false,
            4,
        ),
        (Turn::Ask(9, b'd', true, Answer::Granted), 9, b'd', false, 4),
        (Turn::Release(9, b'd', 3, true), 9, b'd', true, 4),
        (Turn::Release(9, b'd', 6, true), 9, b'd', true, 6),
    ] {
        assert!(rt; is_answered(rt.alloc(), &mut promise, turn)?);
        if letter > 0 {
            assert!(rt; is_last(rt.alloc(), &promise, term, letter)?);
        }
        assert_eq!(rt; promise.released(), released);
        assert_eq!(rt; promise.floor().count(&a), floor);
    }
    Ok(())
}

#[test]
fn a_node_promises_to_itself(rt: HostRuntime) -> Result<(), Fail> {
    let mut promise = Promise::none(rt.alloc());
    promise.release_last(rt.alloc(), &version(rt.alloc(), 2)?)?;
    assert!(rt; !promise.released() && promise.floor().len() == 0);
    promise.bind(ballot(rt.alloc(), 7, b'a')?);
    assert!(rt; is_last(rt.alloc(), &promise, 7, b'a')? && !promise.released());
    promise.release_last(rt.alloc(), &version(rt.alloc(), 2)?)?;
    assert!(rt; is_last(rt.alloc(), &promise, 7, b'a')? && promise.released());
    assert_eq!(rt; promise.floor().len(), 1);
    Ok(())
}
