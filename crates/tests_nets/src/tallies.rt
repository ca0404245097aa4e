//! Percentiles of values that figures count.
use figures::Tally;
use std::test::Fail;

/// Values, a percent, and that percentile. Below 64 each value is a class of its own; 100 and 101 are
/// one class; no percentile is above the greatest value.
const ROWS: [(&[u64], u64, Option<u64>); 8] = [
    (&[], 50, None),
    (&[7], 50, Some(7)),
    (&[1000], 99, Some(1000)),
    (&[1, 2, 3, 4], 50, Some(2)),
    (&[4, 3, 2, 1], 99, Some(4)),
    (&[32, 33, 100, 200], 50, Some(33)),
    (&[100, 1000, 1000, 1000], 25, Some(101)),
    (&[0, 1 << 49], 50, Some(0)),
];

#[test]
fn percentiles_of_few_values(rt: HostRuntime) -> Result<(), Fail> {
    for (values, percent, reported) in ROWS {
        let mut tally = Tally::new(rt.alloc());
        for value in values {
            assert!(rt; *value < 1 << 50);
            assert!(rt; tally.count < 1 << 40);
            tally.note(*value);
        }
        assert!(rt; !tally.refused);
        assert!(rt; percent <= 100);
        assert!(rt; tally.count < 1 << 40);
        assert_eq!(rt; tally.percentile(percent), reported);
        assert_eq!(rt; tally.greatest(), values.iter().max().copied());
    }
    Ok(())
}
