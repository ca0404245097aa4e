//! What some texts declare.

use scenario_asm::parts_of_text;
use scenario_image::{NodeKind, RoutePart};
use std::test::Fail;

/// Ways that return, in lines of some kinds.
const TEXT: &str = "\
# two routers
node s sender
node p  router # the first
node r receiver
node q router
link a s p 1000 9 droptail 9
link b p q 1000 9 codel 9 9 9 9
link c q p 1000 9 droptail 9

 flow f s r 9 9 0 9 9 reno iw3
sim 5
route p r b
lose b 1
";

/// These are the names.
fn are_names(names: &[&[u8]], expected: &[&str]) -> bool {
    names.len() == expected.len()
        && names
            .iter()
            .zip(expected.iter())
            .all(|(name, other)| *name == other.as_bytes())
}

#[test]
fn a_refused_text_declares_its_parts_and_names(rt: HostRuntime) -> Result<(), Fail> {
    let declared = parts_of_text(rt.alloc(), TEXT.as_bytes())?.ok_or("nothing is declared")?;
    assert!(rt; are_names(&declared.nodes, &["s", "p", "r", "q"]));
    assert!(rt; are_names(&declared.links, &["a", "b", "c"]));
    assert!(rt; are_names(&declared.flows, &["f"]));
    assert_eq!(rt; declared.parts.end, 5);
    assert_eq!(rt;
        declared.parts.nodes.as_slice().get(3),
        Some(&NodeKind::Router)
    );
    assert_eq!(rt; declared.parts.links.len(), 3);
    assert_eq!(rt; declared.parts.flows.len(), 1);
    let route = RoutePart {
        router: 1,
        destination: 2,
        link: 1,
    };
    assert_eq!(rt; declared.parts.routes.as_slice().first(), Some(&route));
    Ok(())
}

#[test]
fn a_faulty_line_or_another_number_of_ends_declares_nothing(rt: HostRuntime) -> Result<(), Fail> {
    for more in ["node s sender\n", "sim 6\n"] {
        let mut text = TEXT.as_bytes().to_vec(rt.alloc())?;
        text.extend_from_slice(more.as_bytes())?;
        assert!(rt; parts_of_text(rt.alloc(), &text)?.is_none());
    }
    assert!(rt; parts_of_text(rt.alloc(), b"node s sender")?.is_none());
    Ok(())
}
