//! Images: the names of their faults, and bytes that are none.

use scenario_image::{LoadFault, load};
use std::test::Fail;

#[test]
fn a_fault_has_a_name(rt: HostRuntime) -> Result<(), Fail> {
    for (fault, name) in [
        (LoadFault::L1, "L1"),
        (LoadFault::L2, "L2"),
        (LoadFault::L3, "L3"),
        (LoadFault::L4, "L4"),
        (LoadFault::L5, "L5"),
        (LoadFault::L6, "L6"),
        (LoadFault::L7, "L7"),
        (LoadFault::L8, "L8"),
        (LoadFault::NoMemory, "no memory"),
    ] {
        let text = fault.to_string(rt.alloc())?;
        assert_eq!(rt; text.as_str(), name);
    }
    Ok(())
}

// A header that counts one node, and that node.
#[test]
fn too_few_bytes_come_before_the_first_four(rt: HostRuntime) -> Result<(), Fail> {
    let bytes = b"TCC2\0\0\0\0\0\0\0\0\0\x01\0\0\0\0\0\0\0\0\x02";
    let cut = bytes.get(..22).unwrap_or(b"");
    assert_eq!(rt; load(rt.alloc(), cut).err(), Some(LoadFault::L1));
    assert_eq!(rt; load(rt.alloc(), bytes).err(), Some(LoadFault::L2));
    Ok(())
}
