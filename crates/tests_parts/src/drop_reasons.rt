//! The list of reasons why packets are dropped, by which tables and texts go.
use aqm::drop_reason::LONGEST_WORD;
use aqm::{DropReason, OfferDrop, REASONS, TakeDrop};
use std::test::Fail;

#[test]
fn each_reason_stands_at_its_index(rt: HostRuntime) -> Result<(), Fail> {
    let rows: [(DropReason, &[u8], &[u8]); REASONS] = [
        (DropReason::Lost, b"lost", b"dropped as lost"),
        (
            DropReason::Offer(OfferDrop::Full),
            b"full",
            b"dropped as full",
        ),
        (
            DropReason::Take(TakeDrop::Codel),
            b"codel",
            b"dropped by CoDel",
        ),
    ];
    let all = DropReason::all();
    assert_eq!(rt; all.len(), REASONS);
    for index in 0..REASONS {
        let (reason, word, name) = rows[index];
        assert_eq!(rt; reason.index(), index);
        assert!(rt; all[index] == reason);
        assert_eq!(rt; reason.word(), word);
        assert_eq!(rt; reason.count_name(), name);
        assert!(rt; word.len() <= LONGEST_WORD);
    }
    Ok(())
}
