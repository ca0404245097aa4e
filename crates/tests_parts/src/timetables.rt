//! The least time of some places.
ghost use Rattle.std.specs.Prelude.{◌<◌};

use sim_time::Time;
use std::alloc::Global;
use std::process::Abort;
use std::test::Fail;
use tournament::Timetable;

// A timetable, and the same times in a plain list.
#[derive(Drop)]
struct BothTables {
    timetable: Timetable,
    plain: Vec<Option<Time>>,
}

// The lowest place of the least time, by a look at each.
fn soonest(times: &[Option<Time>]) -> Option<(usize, Time)> {
    let mut first: Option<(usize, Time)> = None;
    for (place, time) in times.iter().enumerate() {
        if let Some(time) = *time {
            first = match first {
                Some((_, least)) if least <= time => first,
                _ => Some((place, time)),
            };
        }
    }
    first
}

impl BothTables {
    // So many places with no time.
    fn new(rt: &impl Abort, alloc: Global, places: usize) -> BothTables {
        assert!(rt; places <= 4_096);
        let timetable = Timetable::new(alloc, places).expect(rt, "a timetable");
        let plain: Vec<Option<Time>> = vec![in alloc; None; places].expect(rt, "a list");
        assert_eq!(rt; timetable.places(), places);
        BothTables { timetable, plain }
    }

    // Sets a place's time, or takes it away, and reads which place then leads with which time.
    fn set(&mut self, rt: &impl Abort, place: usize, time: Option<Time>) -> Option<(usize, Time)> {
        assert!(rt; place < self.timetable.places());
        assert!(rt; place < self.plain.len());
        self.timetable.set(place, time);
        self.plain[place] = time;
        let first = self.timetable.first();
        assert_eq!(rt; first, soonest(&self.plain));
        if first.is_some() {
            assert_eq!(rt; first, Some(self.timetable.leader()));
        }
        first
    }
}

// Numbers that look drawn (a linear congruential generator).
#[derive(Drop)]
struct TimeDraws {
    state: u64,
}

impl TimeDraws {
    fn below(&mut self, bound: usize) -> usize
        requires { 0 < bound }
        ensures { result < bound }
    {
        self.state = self
            .state
            .wrapping_mul(6_364_136_223_846_793_005)
            .wrapping_add(1_442_695_040_888_963_407);
        (self.state >> 33) as usize % bound
    }
}

// So many changes of places that are drawn, each to one of these times.
fn change_at_random(
    rt: &impl Abort,
    alloc: Global,
    places: usize,
    times: &[Option<Time>],
    changes: usize,
) {
    let mut both = BothTables::new(rt, alloc, places);
    let mut draws = TimeDraws { state: 7 };
    for _change in 0..changes {
        assert!(rt; places > 0 && !times.is_empty());
        let place = draws.below(places);
        let time = times[draws.below(times.len())];
        let _first = both.set(rt, place, time);
    }
}

#[test]
fn the_lowest_place_of_the_least_time_leads(rt: HostRuntime) {
    let mut both = BothTables::new(&rt, rt.alloc(), 5);
    assert!(rt; both.timetable.first().is_none());
    assert_eq!(rt; both.set(&rt, 2, Some(70)), Some((2, 70)));
    assert_eq!(rt; both.set(&rt, 4, Some(50)), Some((4, 50)));
    assert_eq!(rt; both.set(&rt, 0, Some(50)), Some((0, 50)));
    assert_eq!(rt; both.set(&rt, 4, Some(40)), Some((4, 40)));
    assert_eq!(rt; both.set(&rt, 4, None), Some((0, 50)));
    assert_eq!(rt; both.set(&rt, 0, Some(90)), Some((2, 70)));
    assert_eq!(rt; both.set(&rt, 3, Some(70)), Some((2, 70)));
    assert_eq!(rt; both.set(&rt, 1, Some(70)), Some((1, 70)));
    assert_eq!(rt; both.set(&rt, 1, None), Some((2, 70)));
    assert_eq!(rt; both.set(&rt, 2, Some(71)), Some((3, 70)));
    assert_eq!(rt; both.set(&rt, 3, None), Some((2, 71)));
    assert_eq!(rt; both.set(&rt, 2, None), Some((0, 90)));
    assert_eq!(rt; both.set(&rt, 0, None), None);
}

#[test]
fn a_copy_of_times_changes_alone(rt: HostRuntime) -> Result<(), Fail> {
    let mut both = BothTables::new(&rt, rt.alloc(), 3);
    assert_eq!(rt; both.set(&rt, 1, Some(20)), Some((1, 20)));
    let copy = both.timetable.copy()?;
    assert_eq!(rt; both.set(&rt, 2, Some(10)), Some((2, 10)));
    assert_eq!(rt; copy.places(), 3);
    assert_eq!(rt; copy.first(), Some((1, 20)));
    Ok(())
}

#[test]
fn of_equal_times_the_lower_place_leads(rt: HostRuntime) {
    for places in 2..18 {
        let mut both = BothTables::new(&rt, rt.alloc(), places);
        for one in 0..places {
            for other in 0..places {
                for time in [0, 5, u64::MAX - 1, u64::MAX] {
                    let _first = both.set(&rt, one, Some(time));
                    assert_eq!(rt;
                        both.set(&rt, other, Some(time)),
                        Some((one.min(other), time))
                    );
                    let _first = both.set(&rt, one, None);
                    assert_eq!(rt; both.set(&rt, other, None), None);
                }
            }
        }
    }
}

#[test]
fn the_greatest_times_lead_where_there_are_no_others(rt: HostRuntime) {
    let mut both = BothTables::new(&rt, rt.alloc(), 4);
    let most = u64::MAX;
    assert_eq!(rt; both.set(&rt, 3, Some(most)), Some((3, most)));
    assert_eq!(rt; both.set(&rt, 1, Some(most)), Some((1, most)));
    assert_eq!(rt; both.set(&rt, 2, Some(most - 1)), Some((2, most - 1)));
    assert_eq!(rt; both.set(&rt, 0, Some(1 << 62)), Some((0, 1 << 62)));
    assert_eq!(rt; both.set(&rt, 0, None), Some((2, most - 1)));
}

#[test]
fn no_places_have_no_first_time(rt: HostRuntime) {
    let both = BothTables::new(&rt, rt.alloc(), 0);
    assert!(rt; both.timetable.first().is_none());
}

// Times about the first one that no word tells, that one itself, and those past it.
#[test]
fn times_that_no_word_tells_lead_too(rt: HostRuntime) {
    let first = (1 << 52) - 2;
    let far = [
        None,
        Some(first),
        Some(first + 1),
        Some(1 << 62),
        Some(u64::MAX - 1),
        Some(u64::MAX),
    ];
    let near = [
        None,
        Some(0),
        Some(9),
        Some(first - 2),
        Some(first - 1),
        Some(first),
        Some(first + 1),
        Some(u64::MAX),
    ];
    for places in 1..40 {
        change_at_random(&rt, rt.alloc(), places, &far, 600);
        change_at_random(&rt, rt.alloc(), places, &near, 600);
    }
}

#[test]
fn the_least_of_many_places_leads(rt: HostRuntime) {
    let times = [
        None,
        Some(1),
        Some(2),
        Some(3),
        Some(1 << 40),
        Some(1 << 62),
        Some(u64::MAX - 1),
        Some(u64::MAX),
    ];
    change_at_random(&rt, rt.alloc(), 1_000, &times, 2_000);
    change_at_random(&rt, rt.alloc(), 4_096, &times, 2_000);
}
