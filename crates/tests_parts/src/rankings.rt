//! The least key of some places.

use sim_time::{Key, Time};
use std::process::Abort;
use std::test::Fail;
use tournament::KeyTournament;

// A key that is due then.
fn due(time: Time) -> Key {
    Key {
        time,
        node: 0,
        source: 0,
        number: 0,
    }
}

// Sets a place's time, or takes it away, and reads which place then leads with which time.
fn expect_first(
    rt: &impl Abort,
    tournament: &mut KeyTournament,
    place: usize,
    time: Option<Time>,
    first: Option<(usize, Time)>,
) {
    assert!(rt; place < tournament.places());
    tournament.set(place, time.map(due));
    assert_eq!(rt;
        tournament.first(),
        first.map(|(place, time)| (place, due(time)))
    );
}

#[test]
fn the_lowest_place_of_the_least_key_leads(rt: HostRuntime) -> Result<(), Fail> {
    let mut tournament = KeyTournament::new(rt.alloc(), 5)?;
    assert_eq!(rt; tournament.places(), 5);
    assert!(rt; tournament.first().is_none());
    expect_first(&rt, &mut tournament, 2, Some(70), Some((2, 70)));
    expect_first(&rt, &mut tournament, 4, Some(50), Some((4, 50)));
    expect_first(&rt, &mut tournament, 0, Some(50), Some((0, 50)));
    expect_first(&rt, &mut tournament, 4, Some(40), Some((4, 40)));
    expect_first(&rt, &mut tournament, 4, None, Some((0, 50)));
    expect_first(&rt, &mut tournament, 0, Some(90), Some((2, 70)));
    expect_first(&rt, &mut tournament, 3, Some(70), Some((2, 70)));
    expect_first(&rt, &mut tournament, 1, Some(70), Some((1, 70)));
    expect_first(&rt, &mut tournament, 1, None, Some((2, 70)));
    expect_first(&rt, &mut tournament, 2, Some(71), Some((3, 70)));
    expect_first(&rt, &mut tournament, 3, None, Some((2, 71)));
    expect_first(&rt, &mut tournament, 2, None, Some((0, 90)));
    expect_first(&rt, &mut tournament, 0, None, None);
    Ok(())
}

#[test]
fn a_copy_changes_alone(rt: HostRuntime) -> Result<(), Fail> {
    let mut tournament = KeyTournament::new(rt.alloc(), 3)?;
    expect_first(&rt, &mut tournament, 1, Some(20), Some((1, 20)));
    let copy = tournament.copy()?;
    expect_first(&rt, &mut tournament, 2, Some(10), Some((2, 10)));
    assert_eq!(rt; copy.places(), 3);
    assert_eq!(rt; copy.first(), Some((1, due(20))));
    Ok(())
}

#[test]
fn the_greatest_times_are_reported_apart(rt: HostRuntime) -> Result<(), Fail> {
    let mut tournament = KeyTournament::new(rt.alloc(), 4)?;
    let most = u64::MAX;
    expect_first(&rt, &mut tournament, 3, Some(most), Some((3, most)));
    expect_first(&rt, &mut tournament, 1, Some(most), Some((1, most)));
    expect_first(&rt, &mut tournament, 2, Some(most - 1), Some((2, most - 1)));
    Ok(())
}

#[test]
fn no_places_have_no_first(rt: HostRuntime) -> Result<(), Fail> {
    let tournament = KeyTournament::new(rt.alloc(), 0)?;
    assert!(rt; tournament.first().is_none());
    Ok(())
}
