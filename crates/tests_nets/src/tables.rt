//! The table of a run's figures. That of a net of flows and links is tried on the built program, by
//! dev/test_whole.py and python/tests/test_figures.py.
use figures_text::{NameColumn, RunSummary, figures_text};
use std::test::Fail;

/// Neither flow nor link, behind a text that was there.
#[test]
fn of_neither_flow_nor_link(rt: HostRuntime) -> Result<(), Fail> {
    let mut text = Vec::from_slice(rt.alloc(), b"before\n")?;
    figures_text(
        &NameColumn::none(rt.alloc()),
        &[],
        &[],
        RunSummary {
            events: 0,
            end: None,
        },
        &mut text,
    )?;
    let reported = b"before\nwhat,number,figure,unit,value\nrun,,events,events,0\nrun,,end,ns,-\n";
    assert!(rt; text.as_slice() == reported.as_slice());
    Ok(())
}
